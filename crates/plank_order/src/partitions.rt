ghost use Rattle.std.specs.Prelude.{◌≡◌, ◌≢◌, ℕ, ◌<◌, ◌≤◌, ◌↔◌};
ghost use Rattle.std.specs.Bool.{OnTrue, OnFalse};
ghost use Rattle.std.specs.Result.{OnOk, OnErr};
ghost use Rattle.plank_order.specs.Partitions.{Meets};

use crate::clashes::Clash;
use crate::rows;
use plank_base::NAMES_LIMIT;
use std::marker::Model;

// A partition has room for the names of a picture.
const _: () = prove!(NAMES_LIMIT == 16);

/// The number of a node name, from 0.
#[derive(Clone, Copy, Debug, PartialEq, Eq, PartialOrd, Ord)]
pub struct Name(pub u32);

/// What is known of the equality of at most 16 node names, as many as a picture has. It is copied,
/// and no call takes memory.
///
/// Contracts see the known facts. A partition of the names is a group for each name, and `Meets`
/// says that the facts hold of the groups.
#[derive(Clone, Copy, Debug, PartialEq, Eq)]
pub struct Partition {
    same: [u32; 16],
    apart: [u32; 16],
    names: u32,
}

impl Model for Partition {
    ghost use Rattle.plank_order.specs.Partitions.{PartitionFacts, AreClosed};

    ghost Value = { PartitionFacts };

    ghost view = { λ s. record { names = s.names; same = s.same; apart = s.apart } };

    ghost invariant = { λ s.
        AreClosed (record { names = s.names; same = s.same; apart = s.apart }) };

    ghost inverse = { λ k. record { same = k.same; apart = k.apart; names = k.names } };
}

impl Partition {
    /// Nothing is known of so many names, which are numbered from 0.
    pub fn new(names: u32) -> Partition
        requires { names ≤ 16 }
        ensures names { result.names ≡ names }
        ensures nothing { (group : ℕ → ℕ) → Meets result group }
    {
        let mut same = [0; 16];
        rows::make_diagonal(&mut same);
        Partition {
            same,
            apart: [0; 16],
            names,
        }
    }

    /// The number of names.
    pub fn names(&self) -> u32
        ensures { result ≡ self.now.names }
    {
        self.names
    }

    /// Whether a and b are the same in every partition that meets what was assumed.
    pub fn same(&self, a: Name, b: Name) -> bool
        requires first { a.0 < self.now.names }
        requires second { b.0 < self.now.names }
        ensures every { OnTrue result ((group : ℕ → ℕ) →
            Meets self.now group → group a.0 ≡ group b.0) }
        ensures fails { OnFalse result ((group : ℕ → ℕ) ×
            Meets self.now group × (group a.0 ≢ group b.0)) }
    {
        rows::relates(&self.same, a.0, b.0)
    }

    /// Whether a and b are apart in every partition that meets what was assumed.
    pub fn apart(&self, a: Name, b: Name) -> bool
        requires first { a.0 < self.now.names }
        requires second { b.0 < self.now.names }
        ensures every { OnTrue result ((group : ℕ → ℕ) →
            Meets self.now group → group a.0 ≢ group b.0) }
        ensures fails { OnFalse result ((group : ℕ → ℕ) ×
            Meets self.now group × (group a.0 ≡ group b.0)) }
    {
        rows::relates(&self.apart, a.0, b.0)
    }

    /// Assumes that a and b are the same. Where no partition meets that with what was assumed, it
    /// is a Clash, and nothing changes.
    pub fn assume_same(&mut self, a: Name, b: Name) -> Result<(), Clash>
        requires first { a.0 < self.old.names }
        requires second { b.0 < self.old.names }
        ensures names { self.new.names ≡ self.old.names }
        ensures partitions { OnOk result ((group : ℕ → ℕ) →
            Meets self.new group ↔ (Meets self.old group × (group a.0 ≡ group b.0))) }
        ensures some { OnOk result ((group : ℕ → ℕ) × Meets self.new group) }
        ensures clash { OnErr result ((group : ℕ → ℕ) →
            Meets self.old group → group a.0 ≢ group b.0) }
        ensures unchanged { OnErr result (self.new ≡ self.old) }
    {
        if rows::relates(&self.apart, a.0, b.0) {
            return Err(Clash);
        }
        let (old_same, old_apart) = (self.same, self.apart);
        let group = old_same[a.0 as usize] | old_same[b.0 as usize];
        let others = old_apart[a.0 as usize] | old_apart[b.0 as usize];
        let (mut same, mut apart) = (old_same, old_apart);
        rows::extend(&mut same, &old_same, a.0, group);
        rows::extend(&mut same, &old_same, b.0, group);
        rows::extend(&mut apart, &old_same, a.0, others);
        rows::extend(&mut apart, &old_same, b.0, others);
        rows::extend(&mut apart, &old_apart, a.0, group);
        rows::extend(&mut apart, &old_apart, b.0, group);
        self.same = same;
        self.apart = apart;
        Ok(())
    }

    /// Assumes that a and b are apart. Where no partition meets that with what was assumed, it is a
    /// Clash, and nothing changes.
    pub fn assume_apart(&mut self, a: Name, b: Name) -> Result<(), Clash>
        requires first { a.0 < self.old.names }
        requires second { b.0 < self.old.names }
        ensures names { self.new.names ≡ self.old.names }
        ensures partitions { OnOk result ((group : ℕ → ℕ) →
            Meets self.new group ↔ (Meets self.old group × (group a.0 ≢ group b.0))) }
        ensures some { OnOk result ((group : ℕ → ℕ) × Meets self.new group) }
        ensures clash { OnErr result ((group : ℕ → ℕ) →
            Meets self.old group → group a.0 ≡ group b.0) }
        ensures unchanged { OnErr result (self.new ≡ self.old) }
    {
        if rows::relates(&self.same, a.0, b.0) {
            return Err(Clash);
        }
        let (same, old_apart) = (self.same, self.apart);
        let mut apart = old_apart;
        rows::extend(&mut apart, &same, a.0, same[b.0 as usize]);
        rows::extend(&mut apart, &same, b.0, same[a.0 as usize]);
        self.apart = apart;
        Ok(())
    }

    /// Some partition meets what was assumed. It does nothing.
    pub fn has_partition(&self)
        ensures { (group : ℕ → ℕ) × Meets self.now group }
    {
        let _ = &self.names;
    }
}
