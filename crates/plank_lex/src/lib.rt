//! The tokens of a text of a structure, each with its place, or the first byte that begins none.
#![tactic(auto)]

mod faults;
mod laws;
mod lexemes;
mod lexer;
mod symbols;
mod tokens;
mod words;

pub use faults::LexFault;
pub use laws::{faults_are_where_parts_stop, tokens_are_those_of_parts};
pub use lexer::lex;
pub use symbols::Symbol;
pub use tokens::{Token, TokenKind};
pub use words::Reserved;
