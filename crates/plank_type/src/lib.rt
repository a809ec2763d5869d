//! The program of a text: its limits, and numbers in the place of names.
#![tactic(auto)]

mod checking;
mod conditions;
mod exits;
mod faults;
mod headers;
mod laws;
mod limits;
mod lowering;
mod methods;
mod names;
mod operands;
mod sizes;
mod start_nodes;
mod statements;
mod steps;

pub use checking::check;
pub use faults::TypeFault;
pub use laws::{headers_are_lawful, limits_hold, methods_are_lawful, texts_are_told_whole};
pub use limits::Excess;
