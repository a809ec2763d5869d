//! What rules were found broken so far.
ghost use Rattle.std.specs.Prelude.{◌≡◌, ◌∷◌, [], None};
ghost use Rattle.plank_rules.specs.Faults.{Adds, when};

use crate::broken::Broken;
use crate::first::earlier;
use plank_base::{Place, TypeKind};

/// The first of the broken rules that were found so far: only it is told.
#[derive(Clone, Copy, Debug, PartialEq, Eq)]
pub(crate) struct Findings {
    pub(crate) first: Option<Broken>,
}

impl Findings {
    ghost use Rattle.plank_rules.specs.Faults.{Adds, when};

    pub(crate) fn new() -> Findings
        ensures { result.first ≡ None }
    {
        Findings { first: None }
    }

    pub(crate) fn add(&mut self, kind: TypeKind, place: Place)
        ensures { Adds self.old self.new (record { kind = kind; place = place } ∷ []) }
    {
        self.first = earlier(self.first, Broken { kind, place });
    }

    pub(crate) fn add_when(&mut self, test: bool, kind: TypeKind, place: Place)
        ensures { Adds self.old self.new (when test (record { kind = kind; place = place })) }
    {
        if test {
            self.add(kind, place);
        }
    }
}
