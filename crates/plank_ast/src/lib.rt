//! The tree of a text, part by part as the grammar has it, and its canonical form.
#![tactic(auto)]

mod condition_spelling;
mod conditions;
mod header;
mod header_spelling;
mod laws;
mod layout;
mod methods;
mod names;
mod printing;
mod spelling;
mod statement_spelling;
mod statements;
mod text_spelling;
mod texts;

pub use conditions::{Atom, AtomEnd, Comparison, Condition, Conjunction, Literal, Operand};
pub use header::{
    ConditionLine, Direction, FlagLine, NamedCondition, PointerLine, RootLine, StartItem, StartKey,
    StartLine, StartValue,
};
pub use laws::print_keeps_tokens;
pub use methods::{Method, Methods, Variables};
pub use names::{Field, Name, Reference, Truth};
pub use printing::print;
pub use statements::{
    Assigned, Bind, Block, Body, Else, Statement, Test, TestLine, Tests, With, Write, Written,
};
pub use texts::Text;
