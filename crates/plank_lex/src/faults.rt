use plank_base::{OutOfMemory, Place};
use thiserror::Error;

/// Why a text has no tokens.
#[derive(Clone, Copy, Debug, PartialEq, Eq, Error)]
pub enum LexFault {
    /// The byte at this place begins no token, and neither does an earlier one.
    #[error("the byte at line {line}, column {column} begins no token", line = .0.line, column = .0.column)]
    BadByte(Place),
    /// Memory was refused; of the text nothing is said.
    #[error("out of memory")]
    OutOfMemory,
}

impl From<OutOfMemory> for LexFault {
    ghost use Rattle.std.specs.Prelude.{◌≡◌};
    ghost use Rattle.plank_lex.specs.declared.faults.LexFault.TheVariants as fault;

    ghost from_gives = { λ _ e. e ≡ fault.OutOfMemory };

    fn from(_refused: OutOfMemory) -> LexFault {
        LexFault::OutOfMemory
    }
}
