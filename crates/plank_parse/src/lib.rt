//! The reader of the grammar: from the tokens of a text to its tree, or to the first token that no text goes on with.
#![tactic(auto)]

mod atoms;
mod blocks;
mod conditions;
mod faults;
mod front;
mod header;
mod lists;
mod methods;
mod names;
mod pieces;
mod reader;
mod statements;
mod stops;
mod texts;

pub use faults::ParseFault;
pub use reader::parse;
