// A forcing to which memory is refused at one of its calls.
ghost use Rattle.std.specs.Prelude.{◌≡◌, ◌≤◌, ◌<◌};

use plank_base::OutOfMemory;
use plank_bits::{MarkWords, Steps};
use plank_board::Forcing;
use std::alloc::Global;
use std::sync::atomic::{AtomicU64, Ordering};
use std::sync::ledger::Ledger;

// The forcing, but at the call of this number, from 1.
#[derive(Drop)]
pub(crate) struct Failing<'a, F: Forcing> {
    pub(crate) forcing: &'a F,
    pub(crate) refused: u64,
    pub(crate) calls: AtomicU64,
}

impl<'a, F: Forcing> Forcing for Failing<'a, F> {
    ghost method_count = { λ f. F.method_count f.forcing.now };

    ghost word_count = { λ f. F.word_count f.forcing.now };

    ghost forces = { λ f. F.forces f.forcing.now };

    ghost still = { λ f. F.still f.forcing.now };

    ghost monotone = { λ f. F.monotone f.forcing.now };

    ghost bounded = { λ f. F.bounded f.forcing.now };

    ghost closing = { λ f. F.closing f.forcing.now };

    fn methods(&self) -> u32 {
        self.forcing.methods()
    }

    fn words(&self) -> u32 {
        self.forcing.words()
    }

    fn force<L: Ledger>(
        &self,
        alloc: Global,
        m: u32,
        marks: &MarkWords,
        steps: &mut Steps<L>,
    ) -> Result<MarkWords, OutOfMemory> {
        if self.calls.fetch_add(1, Ordering::SeqCst) == self.refused.wrapping_sub(1) {
            steps.tick();
            return Err(OutOfMemory);
        }
        self.forcing.force(alloc, m, marks, steps)
    }

    fn is_quick(&self, m: u32) -> bool {
        self.forcing.is_quick(m)
    }

    fn is_woken(&self, m: u32, word: u32) -> bool {
        self.forcing.is_woken(m, word)
    }
}
