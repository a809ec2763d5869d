//! A search for full assignments of two-valued parts that meet a system of rules: exact in both directions.
//!
//! The calls: a `Session` for many questions about one system; `find`, `find_any`, and `find_counted`
//! with statistics, for one. The problem: `Rules` with their `Look`s at `Values`, and `Clauses` of
//! `Literal`s. Inside, in the order of the search: `session` keeps what follows from the system,
//! `search` decides and tries both values, `propagation` puts what follows, `steps` are its single
//! steps, `decisions` chooses the part and makes the last pass, `completion` tries one full assignment
//! before it, `hints` guides and proves nothing.
#![tactic(auto)]

mod clauses;
mod completion;
mod counts;
mod decisions;
mod hints;
mod propagation;
mod rules;
mod search;
mod session;
mod steps;
mod values;

pub use clauses::{Clauses, Literal};
pub use counts::{Count, Counts};
pub use hints::Statistics;
pub use rules::{Look, NoRules, Rules};
pub use session::{Session, find, find_any, find_counted};
pub use values::{Reads, Values};

#[cfg(test)]
mod tests;
