use plank_base::{OutOfMemory, Place};
use thiserror::Error;

/// Why tokens are no text.
#[derive(Clone, Copy, Debug, PartialEq, Eq, Error)]
pub enum ParseFault {
    /// With the token at this place the tokens so far begin no text.
    #[error("no text goes on with the token at line {line}, column {column}", line = .0.line, column = .0.column)]
    Unexpected(Place),
    /// The bracket at this place is one more than may be open at once.
    #[error("the bracket at line {line}, column {column} is one too many to be open", line = .0.line, column = .0.column)]
    TooDeep(Place),
    /// Memory was refused; of the tokens nothing is said.
    #[error("out of memory")]
    OutOfMemory,
}
