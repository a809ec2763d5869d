//! The words of a command line: the command that they ask for, and the number that they say beside it.
#![tactic(auto)]

mod commands;
pub mod laws;
mod numbers;
mod parsers;
mod reading;

pub use commands::{Asked, Command, WordsFault};
pub use reading::asked_by;
