use plank_base::{OutOfMemory, Place, Thing, TypeKind};
use thiserror::Error;

/// Why a text has no program.
#[derive(Clone, Copy, Debug, PartialEq, Eq, Error)]
pub enum TypeFault {
    /// A rule of typing is broken at this place, and none before it.
    #[error("a rule of typing is broken at line {line}, column {column}: {kind:?}", line = .1.line, column = .1.column, kind = .0)]
    Broken(TypeKind, Place),
    /// There are so many of these, and may be so many. No rule of typing is broken.
    #[error("there are {count} {thing:?}, and at most {limit} may be", count = .1, thing = .0, limit = .2)]
    TooMany(Thing, u32, u32),
    /// Memory was refused; of the text nothing is said.
    #[error("out of memory")]
    OutOfMemory,
}

impl From<OutOfMemory> for TypeFault {
    ghost use Rattle.std.specs.Prelude.{◌≡◌};
    ghost use Rattle.plank_type.specs.declared.faults.TypeFault.TheVariants as fault;

    ghost from_gives = { λ _ e. e ≡ fault.OutOfMemory };

    fn from(_refused: OutOfMemory) -> TypeFault {
        TypeFault::OutOfMemory
    }
}
