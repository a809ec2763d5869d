use plank_base::OutOfMemory;
use plank_lex::Token;
use std::alloc::AllocError;

/// Why no part stands at the front of some tokens.
#[derive(Clone, Copy, Debug)]
pub(crate) enum Stop<'a> {
    /// The tokens from the first one that does not go on.
    Unexpected(&'a [Token]),
    /// The tokens from the bracket that is one too many.
    TooDeep(&'a [Token]),
    OutOfMemory,
}

/// A part and the tokens after it, or why there is none.
pub(crate) type Reading<'a, T> = Result<(T, &'a [Token]), Stop<'a>>;

impl<'a> From<OutOfMemory> for Stop<'a> {
    ghost use Rattle.std.specs.Prelude.{◌≡◌};
    ghost use Rattle.plank_parse.specs.declared.stops.Stop.TheVariants as stop;

    ghost from_gives = { λ _ e. e ≡ stop.OutOfMemory };

    fn from(_refused: OutOfMemory) -> Stop<'a> {
        Stop::OutOfMemory
    }
}

impl<'a> From<AllocError> for Stop<'a> {
    ghost use Rattle.std.specs.Prelude.{◌≡◌};
    ghost use Rattle.plank_parse.specs.declared.stops.Stop.TheVariants as stop;

    ghost from_gives = { λ _ e. e ≡ stop.OutOfMemory };

    fn from(_refused: AllocError) -> Stop<'a> {
        Stop::OutOfMemory
    }
}
