ghost use Rattle.std.specs.Prelude.{◌≡◌, ℕ, ◌+◌, ◌*◌, ◌<◌, ◌≤◌, ◌==◌, ◌↔◌, ◌&&◌, ◌||◌, not, false, length, IsTrue, IfSome, IfNone};
ghost use Rattle.plank_bits.specs.Words.{has, IsWithin, count_below, IsLeastFrom};

use crate::words;
use std::marker::Model;

/// A set of numbers below `64 * W`, for W from 1 to 64. It is copied, and no call takes memory.
///
/// Contracts see it as the list of its words; `has` says which numbers are members.
#[derive(Clone, Copy, Debug, PartialEq, Eq)]
pub struct Bits<const W: usize> {
    words: [u64; W],
}

impl<const W: usize> Model for Bits<W> {
    ghost use Rattle.std.specs.Prelude.{List, ℕ, ◌≤◌};

    ghost Value = { List ℕ };

    ghost view = { λ s. s.words };

    ghost invariant = { λ s. W ≤ 64 };

    ghost inverse = { λ words. record { words = words } };
}

impl<const W: usize> Bits<W> {
    /// The set without members.
    pub fn empty() -> Bits<W>
        requires { W ≤ 64 }
        ensures { (k : ℕ) → has result k ≡ false }
    {
        Bits { words: [0; W] }
    }

    /// Whether i is a member; no number from `64 * W` on is one.
    pub fn has(&self, i: u32) -> bool
        ensures value { result ≡ has self.now i }
        ensures below { IsTrue result → i < 64 * W }
    {
        words::contains(&self.words, i)
    }

    /// The set with i added.
    pub fn with(&self, i: u32) -> Bits<W>
        requires { i < 64 * W }
        ensures { (k : ℕ) → has result k ≡ (has self.now k || (k == i)) }
    {
        let mut words = self.words;
        words::insert(&mut words, i);
        Bits { words }
    }

    /// The numbers that are members of either set.
    pub fn union(&self, other: &Bits<W>) -> Bits<W>
        ensures { (k : ℕ) → has result k ≡ (has self.now k || has other.now k) }
    {
        let mut words = self.words;
        words::unite(&mut words, &other.words);
        Bits { words }
    }

    /// The numbers that are members of both sets.
    pub fn meet(&self, other: &Bits<W>) -> Bits<W>
        ensures { (k : ℕ) → has result k ≡ (has self.now k && has other.now k) }
    {
        let mut words = self.words;
        words::intersect(&mut words, &other.words);
        Bits { words }
    }

    /// The members that are not members of the other set.
    pub fn minus(&self, other: &Bits<W>) -> Bits<W>
        ensures { (k : ℕ) → has result k ≡ (has self.now k && not (has other.now k)) }
    {
        let mut words = self.words;
        words::subtract(&mut words, &other.words);
        Bits { words }
    }

    /// Whether every member is one of the other set.
    pub fn subset(&self, other: &Bits<W>) -> bool
        ensures { IsTrue result ↔ IsWithin (has self.now) (has other.now) }
    {
        words::are_within(&self.words, &other.words)
    }

    /// How many members there are.
    pub fn count(&self) -> u32
        ensures { result ≡ count_below (has self.now) (64 * W) }
    {
        words::count(&self.words)
    }

    /// The least member that is at least i, and None exactly where there is none.
    pub fn next_from(&self, i: u32) -> Option<u32>
        ensures found { IfSome result (IsLeastFrom (has self.now) i) }
        ensures below { IfSome result (λ k. k < 64 * W) }
        ensures none { IfNone result ((k : ℕ) → i ≤ k → has self.now k ≡ false) }
    {
        words::next_from(&self.words, i)
    }
}
