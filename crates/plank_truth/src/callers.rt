ghost use Rattle.std.specs.Prelude.{◌≡◌};
ghost use Rattle.plank_pic.specs.Truths.{Caller, argument};

use plank_pic::KeyName;
use plank_prog::Reference;

/// A call as a picture sees it: the own call or the other, and the names of its root and variables.
pub trait Calls {
    // The caller of the definitions.
    ghost caller: { Self → Caller };

    /// Whether it is the own call; else it is the other.
    fn is_own(&self) -> bool
        ensures { result ≡ (caller self.now).own };

    /// The name of the root or of a variable.
    fn name_of(&self, reference: Reference) -> u8
        ensures { result ≡ (caller self.now).name reference };
}

/// The key of the call.
pub(crate) fn argument<C: Calls>(caller: &C) -> KeyName
    ensures { result ≡ argument (C.caller caller.now) }
{
    if caller.is_own() {
        KeyName::Own
    } else {
        KeyName::Other
    }
}
