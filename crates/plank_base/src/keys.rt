ghost use Rattle.std.specs.Prelude.{◌≡◌};
ghost use Rattle.plank_base.specs.Keys.{is_less, is_at_most, is_ordinary};

use std::cmp::Ordering;

/// A key of a node: a whole number, or one of the two ends that lie below and above all numbers.
///
/// Arguments of methods and walked keys are numbers; the ends stand at sentinels alone.
#[derive(Clone, Copy, Debug, PartialEq, Eq, PartialOrd, Ord)]
pub enum Key {
    /// Below every other key.
    Min,
    /// An ordinary key.
    Num(i64),
    /// Above every other key.
    Max,
}

impl Key {
    /// Whether this key lies strictly below the other.
    pub fn is_less(self, other: Key) -> bool
        ensures { result ≡ is_less self other }
    {
        match (self, other) {
            (Key::Min, Key::Min) => false,
            (Key::Min, _) => true,
            (Key::Num(_), Key::Min) => false,
            (Key::Num(a), Key::Num(b)) => a < b,
            (Key::Num(_), Key::Max) => true,
            (Key::Max, _) => false,
        }
    }

    /// Whether this key lies at or below the other.
    pub fn is_at_most(self, other: Key) -> bool
        ensures { result ≡ is_at_most self other }
    {
        !other.is_less(self)
    }

    /// Whether this key lies strictly between the two ends.
    pub fn is_ordinary(self) -> bool
        ensures { result ≡ is_ordinary self }
    {
        match self {
            Key::Num(_) => true,
            Key::Min => false,
            Key::Max => false,
        }
    }
}

/// The number of a node, from 0; a fresh node has the next number, and none is used again.
#[derive(Clone, Copy, Debug, PartialEq, Eq, PartialOrd, Ord)]
pub struct NodeId(pub u32);

/// The number of a thread of the judged structure. Any number of threads may run.
#[derive(Clone, Copy, Debug, PartialEq, Eq, PartialOrd, Ord)]
pub struct ThreadId(pub u32);
