ghost use Rattle.std.specs.Prelude.{◌≡◌, length, IfOk};

use crate::memory::OutOfMemory;
use std::alloc::Global;
use std::marker::Model;

/// The bytes of a name. Contracts see it as the list of its bytes.
#[derive(Debug, Drop)]
pub struct Label {
    bytes: Vec<u8>,
}

impl Model for Label {
    ghost use Rattle.std.specs.Prelude.{List, ℕ};

    ghost Value = { List ℕ };

    ghost view = { λ label. label.bytes.items };
}

impl Label {
    /// A name with these bytes.
    pub fn new(alloc: Global, bytes: &[u8]) -> Result<Label, OutOfMemory>
        ensures { IfOk result (λ label. label ≡ bytes.now) }
    {
        match Vec::from_slice(alloc, bytes) {
            Ok(bytes) => Ok(Label { bytes }),
            Err(_) => Err(OutOfMemory),
        }
    }

    /// The name that a vector holds, moved and not copied.
    pub fn from_vec(bytes: Vec<u8>) -> Label
        ensures { result ≡ bytes.items }
    {
        Label { bytes }
    }

    pub fn as_bytes(&self) -> &[u8]
        ensures { result.now ≡ self.now }
    {
        self.bytes.as_slice()
    }

    pub fn len(&self) -> usize
        ensures { result ≡ length self.now }
    {
        self.bytes.len()
    }
}

impl PartialEq for Label {
    ghost use Rattle.std.specs.Prelude.{◌==◌};
    ghost use lib.Pointwise.{pointwise};
    ghost use Rattle.std.specs.Cmp.Rules.{comparing};
    ghost use Rattle.std.proofs.Common.{rules};

    ghost eq = { pointwise ◌==◌ };

    ghost laws = { Prim.search (comparing, rules) };

    fn eq(&self, other: &Label) -> bool {
        self.bytes.as_slice() == other.bytes.as_slice()
    }
}
