ghost use Rattle.std.specs.Prelude.{◌≡◌, ℕ, ◌<◌, ◌≤◌, ◌↔◌, ◌⊎◌, true, false, length};
ghost use Rattle.std.specs.Bool.{OnTrue, OnFalse};
ghost use Rattle.std.specs.Result.{OnOk, OnErr};
ghost use Rattle.plank_order.specs.Rows.{relates};
ghost use Rattle.plank_order.specs.Orders.{Meets, HasOneOrder, HasTwoOrders};

use crate::clashes::Clash;
use crate::rows;
use std::marker::Model;

/// Terms of one `Preorder`, at most.
pub const TERMS_LIMIT: u32 = 24;

/// The number of a key term, from 0.
#[derive(Clone, Copy, Debug, PartialEq, Eq, PartialOrd, Ord)]
pub struct Term(pub u32);

/// What is known of the order of at most 24 key terms. It is copied, and no call takes memory.
///
/// Contracts see the known facts. An order of the terms in which any two are comparable is a rank
/// for each term, and `Meets` says that the facts hold of the ranks.
///
/// The facts are kept closed: each that follows from others is there, found as an assumption is
/// made by a pass over the rows of bits, as Ibaraki and Katoh (1983) keep a transitive closure.
#[derive(Clone, Copy, Debug, PartialEq, Eq)]
pub struct Preorder {
    at_most: [u32; 24],
    less: [u32; 24],
    terms: u32,
}

impl Model for Preorder {
    ghost use Rattle.plank_order.specs.Orders.{OrderFacts, AreClosed};

    ghost Value = { OrderFacts };

    ghost view = { λ s. record { terms = s.terms; at_most = s.at_most; less = s.less } };

    ghost invariant = { λ s.
        AreClosed (record { terms = s.terms; at_most = s.at_most; less = s.less }) };

    ghost inverse = { λ k. record { at_most = k.at_most; less = k.less; terms = k.terms } };
}

impl Preorder {
    /// Nothing is known of so many terms, which are numbered from 0.
    pub fn new(terms: u32) -> Preorder
        requires { terms ≤ 24 }
        ensures terms { result.terms ≡ terms }
        ensures nothing { (rank : ℕ → ℕ) → Meets result rank }
    {
        let mut at_most = [0; 24];
        rows::make_diagonal(&mut at_most);
        Preorder {
            at_most,
            less: [0; 24],
            terms,
        }
    }

    /// The number of terms.
    pub fn terms(&self) -> u32
        ensures { result ≡ self.now.terms }
    {
        self.terms
    }

    /// Whether a is less than b in every order that meets what was assumed.
    pub fn less(&self, a: Term, b: Term) -> bool
        requires first { a.0 < self.now.terms }
        requires second { b.0 < self.now.terms }
        ensures every { OnTrue result ((rank : ℕ → ℕ) → Meets self.now rank → rank a.0 < rank b.0) }
        ensures fails { OnFalse result ((rank : ℕ → ℕ) ×
            Meets self.now rank × (rank b.0 ≤ rank a.0)) }
    {
        rows::relates(&self.less, a.0, b.0)
    }

    /// Whether a is at most b in every order that meets what was assumed.
    pub fn at_most(&self, a: Term, b: Term) -> bool
        requires first { a.0 < self.now.terms }
        requires second { b.0 < self.now.terms }
        ensures every { OnTrue result ((rank : ℕ → ℕ) → Meets self.now rank → rank a.0 ≤ rank b.0) }
        ensures fails { OnFalse result ((rank : ℕ → ℕ) ×
            Meets self.now rank × (rank b.0 < rank a.0)) }
    {
        rows::relates(&self.at_most, a.0, b.0)
    }

    /// Assumes that a is less than b. Where no order meets that with what was assumed, it is a
    /// Clash, and nothing changes.
    pub fn assume_less(&mut self, a: Term, b: Term) -> Result<(), Clash>
        requires first { a.0 < self.old.terms }
        requires second { b.0 < self.old.terms }
        ensures terms { self.new.terms ≡ self.old.terms }
        ensures orders { OnOk result ((rank : ℕ → ℕ) →
            Meets self.new rank ↔ (Meets self.old rank × (rank a.0 < rank b.0))) }
        ensures some { OnOk result ((rank : ℕ → ℕ) × Meets self.new rank) }
        ensures clash { OnErr result ((rank : ℕ → ℕ) → Meets self.old rank → rank b.0 ≤ rank a.0) }
        ensures unchanged { OnErr result (self.new ≡ self.old) }
    {
        if rows::relates(&self.at_most, b.0, a.0) {
            return Err(Clash);
        }
        let (old_at_most, mut less) = (self.at_most, self.less);
        let mut at_most = old_at_most;
        let above = at_most[b.0 as usize];
        rows::extend(&mut less, &old_at_most, a.0, above);
        rows::extend(&mut at_most, &old_at_most, a.0, above);
        self.at_most = at_most;
        self.less = less;
        Ok(())
    }

    /// Assumes that a is at most b. Where no order meets that with what was assumed, it is a
    /// Clash, and nothing changes.
    pub fn assume_at_most(&mut self, a: Term, b: Term) -> Result<(), Clash>
        requires first { a.0 < self.old.terms }
        requires second { b.0 < self.old.terms }
        ensures terms { self.new.terms ≡ self.old.terms }
        ensures orders { OnOk result ((rank : ℕ → ℕ) →
            Meets self.new rank ↔ (Meets self.old rank × (rank a.0 ≤ rank b.0))) }
        ensures some { OnOk result ((rank : ℕ → ℕ) × Meets self.new rank) }
        ensures clash { OnErr result ((rank : ℕ → ℕ) → Meets self.old rank → rank b.0 < rank a.0) }
        ensures unchanged { OnErr result (self.new ≡ self.old) }
    {
        if rows::relates(&self.less, b.0, a.0) {
            return Err(Clash);
        }
        let (old_at_most, old_less) = (self.at_most, self.less);
        let (mut at_most, mut less) = (old_at_most, old_less);
        let (at_least_b, above_b) = (old_at_most[b.0 as usize], old_less[b.0 as usize]);
        rows::extend(&mut less, &old_at_most, a.0, above_b);
        rows::extend(&mut less, &old_less, a.0, at_least_b);
        rows::extend(&mut at_most, &old_at_most, a.0, at_least_b);
        self.at_most = at_most;
        self.less = less;
        Ok(())
    }

    /// Whether exactly one order of the terms, in which any two are comparable, meets what was
    /// assumed.
    pub fn is_total(&self) -> bool
        ensures one { OnTrue result (HasOneOrder self.now) }
        ensures two { OnFalse result (HasTwoOrders self.now) }
    {
        for a in 0..self.terms {
            if !is_placed(&self.at_most, &self.less, a, self.terms) {
                return false;
            }
        }
        true
    }

    /// Some order meets what was assumed. It does nothing.
    pub fn has_order(&self)
        ensures { (rank : ℕ → ℕ) × Meets self.now rank }
    {
        let _ = &self.terms;
    }
}

// Whether each term is known to be at least a, or less than a.
fn is_placed(at_most: &[u32], less: &[u32], a: u32, terms: u32) -> bool
    requires at_most { length at_most.now ≡ 24 }
    requires less { length less.now ≡ 24 }
    requires terms { terms ≤ 24 }
    requires term { a < terms }
    ensures all { OnTrue result ((b : ℕ) → b < terms →
        (relates at_most.now a b ≡ true) ⊎ (relates less.now b a ≡ true)) }
    ensures some { OnFalse result ((b : ℕ) × (b < terms) ×
        (relates at_most.now a b ≡ false) × (relates less.now b a ≡ false)) }
{
    for b in 0..terms {
        if !rows::relates(at_most, a, b) && !rows::relates(less, b, a) {
            return false;
        }
    }
    true
}
