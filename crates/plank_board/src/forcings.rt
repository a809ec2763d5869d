ghost use Rattle.std.specs.Prelude.{◌≡◌, ℕ, ◌+◌, ◌*◌, ◌<◌, ◌↔◌, Bool, length, IsTrue, IfOk};
ghost use Rattle.plank_bits.specs.Words.{has, IsWithin};
ghost use Rattle.plank_bits.specs.Forced.{IsMonotone, IsBounded};
ghost use Rattle.plank_board.specs.Stills.{IsClosing};

use plank_base::OutOfMemory;
use plank_bits::{MarkWords, Steps};
use std::alloc::Global;
use std::marker::Sync;
use std::sync::ledger::Ledger;

/// Methods that force marks where other marks are set: more marks force more, and only marks of the words
/// are forced. So there are least marks that force nothing else.
pub trait Forcing: Sync {
    /// How many methods there are.
    ghost method_count: { Self → ℕ };

    /// How many words of 64 marks there are.
    ghost word_count: { Self → ℕ };

    /// That a method forces a mark, where these marks are set.
    ghost forces: { Self → ℕ → (ℕ → Bool) → ℕ → Type 0 };

    /// That a method asks nothing more at these marks: what a run shows that finds no other mark there. It may say
    /// more than that it forces none.
    ghost still: { Self → ℕ → (ℕ → Bool) → Type 0 };

    /// More marks force more.
    ghost monotone: { (f : Self) → IsMonotone (forces f) (method_count f) };

    /// Only marks of the words are forced.
    ghost bounded: { (f : Self) → IsBounded (forces f) (method_count f) (64 * word_count f) };

    /// What is still forces no other mark.
    ghost closing: { (f : Self) → IsClosing (forces f) (still f) (method_count f) };

    /// The number of methods, which are numbered from 0.
    fn methods(&self) -> u32
        ensures { result ≡ method_count self.now };

    /// The number of words of 64 marks.
    fn words(&self) -> u32
        ensures { result ≡ word_count self.now };

    /// What a method forces at the marks. It is one step, also where memory is refused.
    fn force<L: Ledger>(
        &self,
        alloc: Global,
        m: u32,
        marks: &MarkWords,
        steps: &mut Steps<L>,
    ) -> Result<MarkWords, OutOfMemory>
        requires method { m < method_count self.now }
        requires marks { length marks.now ≡ word_count self.now }
        ensures words { IfOk result (λ found. length found ≡ word_count self.now) }
        ensures found { IfOk result (λ found. (k : ℕ) → IsTrue (has found k) ↔
            forces self.now m (has marks.now) k) }
        ensures still { IfOk result (λ found. IsWithin (has found) (has marks.now) → still self.now m (has marks.now)) }
        ensures step { steps.new ≡ steps.old + 1 };

    /// Whether a run of the method is quick: such methods are run before others. A hint.
    fn is_quick(&self, m: u32) -> bool;

    /// Whether the method may force more where a mark of the word is new. A hint.
    fn is_woken(&self, m: u32, word: u32) -> bool;
}
