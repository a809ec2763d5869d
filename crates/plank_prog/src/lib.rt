//! Programs: the judged structures with numbers in the place of names, and the values of their conditions.
#![tactic(auto)]

mod block_rules;
mod blocks;
mod conditions;
mod header_rules;
mod headers;
mod laws;
mod method_rules;
mod methods;
mod names;
mod programs;
mod scopes;
mod views;

pub use blocks::{
    Bind, Block, FlagOperand, KeyOperand, PointerOperand, Reference, Test, Value, Write,
};
pub use conditions::{Condition, KeyRelation, KeyTerm};
pub use headers::{Header, Keep, KeyOrder, Pointer, StartNode};
pub use laws::condition_laws;
pub use methods::{Action, Location, Method, MethodKind};
pub use programs::Program;
pub use scopes::Scope;
pub use views::{NodeView, POINTER_FIELDS, has_flag};
