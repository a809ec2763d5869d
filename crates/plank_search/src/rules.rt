ghost use Rattle.std.specs.Prelude.{◌≡◌, ◌<◌, ℕ, Bool, true};
ghost use Rattle.plank_search.specs.Meanings.{MeetsRules};
ghost use Rattle.plank_search.specs.Answers.{Tells, Propagates};

use crate::values::{Reads, Values};

/// What a look at a constraint tells.
#[derive(Clone, Copy, PartialEq, Eq, Debug)]
pub enum Look {
    /// False of every full assignment that agrees with the values.
    Fails,
    /// True of every full assignment that agrees with the values.
    Holds,
    /// Not known as long as this part is open.
    Needs(usize),
}

/// A system of rules over two-valued parts: constraints, each with a meaning, and closures that put
/// what follows from a newly put part.
///
/// A new rule is a constraint: give it the next number, its meaning, and an arm of `look` that reads
/// parts on demand. A family of many small rules is a closure: `apply` puts what follows, and `look`
/// answers each row of the family, so that the last pass sees it.
pub trait Rules {
    // How many constraints there are.
    ghost constraint_count: { Self → ℕ };

    // Whether a constraint, by its number, is true of a full assignment.
    ghost meaning: { Self → ℕ → (ℕ → Bool) → Bool };

    /// How many constraints there are, the rows of closures included.
    fn constraints(&self) -> usize
        ensures { result ≡ constraint_count self.now };

    /// How many constraints, the first ones, are looked at during the search. The others, rows of
    /// closures, are looked at by the last pass alone. A hint: any number is right.
    fn watched(&self) -> usize {
        self.constraints()
    }

    /// Whether a constraint is looked at during the search, and not by the last pass alone. A hint,
    /// as `watched`.
    fn is_watched(&self, constraint: usize) -> bool {
        constraint < self.watched()
    }

    /// A part whose value a constraint settles by other parts. As long as it is open no value of
    /// another part is against the constraint, and the look under both values is left out. A hint.
    fn outcome(&self, constraint: usize) -> Option<usize> {
        let _ = constraint;
        None
    }

    /// Looks at a constraint under a partial assignment, reading parts until it is known or an open
    /// one is needed.
    fn look(&self, constraint: usize, values: &Values, reads: &mut Reads) -> Look
        requires { constraint < constraint_count self.now }
        ensures { Tells (λ full. meaning self.now constraint full ≡ true) values.now result };

    /// Puts what follows from a newly put part; false where nothing that meets the constraints
    /// agrees with the values.
    fn apply(&self, part: usize, values: &mut Values, reads: &mut Reads) -> bool
        ensures { Propagates (MeetsRules (meaning self.now) (constraint_count self.now)) values.old values.new result }
    {
        true
    }
}

/// Rules of no constraints, for systems of clauses alone.
#[derive(Clone, Copy, PartialEq, Eq, Debug)]
pub struct NoRules;

impl Rules for NoRules {
    ghost constraint_count = { λ _. 0 };

    ghost meaning = { λ _ _ _. true };

    fn constraints(&self) -> usize {
        0
    }

    // It may be asked of any number, so that there are calls that meet its contract.
    fn look(&self, _constraint: usize, values: &Values, _reads: &mut Reads) -> Look
        ensures { Tells (λ _. true ≡ true) values.now result }
    {
        let _ = values;
        Look::Holds
    }
}
