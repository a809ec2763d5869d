// Forcings that take their time.
ghost use Rattle.std.specs.Prelude.{◌≡◌, ◌<◌, ◌≤◌};

use plank_base::OutOfMemory;
use plank_bits::{MarkWords, Steps};
use plank_board::Forcing;
use std::alloc::Global;
use std::sync::atomic::{AtomicU64, Ordering};
use std::sync::ledger::Ledger;

/// A forcing that reads all words of marks so many times before it answers, and counts its runs.
#[derive(Drop)]
pub(crate) struct Slow<'a, F: Forcing> {
    pub(crate) forcing: &'a F,
    pub(crate) passes: u32,
    pub(crate) runs: AtomicU64,
    // What was read, so that it is read.
    pub(crate) read: AtomicU64,
}

impl<'a, F: Forcing> Slow<'a, F> {
    pub(crate) fn new(forcing: &'a F, passes: u32) -> Slow<'a, F>
        ensures { result.forcing.now ≡ forcing.now }
    {
        Slow {
            forcing,
            passes,
            runs: AtomicU64::new(0),
            read: AtomicU64::new(0),
        }
    }
}

/// Reads all words, each with what was read before.
pub(crate) fn read_all(marks: &MarkWords, state: u64) -> u64 {
    let mut state = state;
    for i in 0..marks.len() {
        state = state
            .wrapping_mul(6_364_136_223_846_793_005)
            .wrapping_add(marks.word(i));
    }
    state
}

pub(crate) fn read_many(marks: &MarkWords, passes: u32) -> u64 {
    let mut state = 1;
    for _ in 0..passes {
        state = read_all(marks, state);
    }
    state
}

impl<'a, F: Forcing> Forcing for Slow<'a, F> {
    ghost method_count = { λ f. F.method_count f.forcing.now };

    ghost word_count = { λ f. F.word_count f.forcing.now };

    ghost forces = { λ f. F.forces f.forcing.now };

    ghost still = { λ f. F.still f.forcing.now };

    ghost monotone = { λ f. F.monotone f.forcing.now };

    ghost bounded = { λ f. F.bounded f.forcing.now };

    ghost closing = { λ f. F.closing f.forcing.now };

    fn methods(&self) -> u32 {
        self.forcing.methods()
    }

    fn words(&self) -> u32 {
        self.forcing.words()
    }

    fn force<L: Ledger>(
        &self,
        alloc: Global,
        m: u32,
        marks: &MarkWords,
        steps: &mut Steps<L>,
    ) -> Result<MarkWords, OutOfMemory> {
        self.runs.fetch_add(1, Ordering::SeqCst);
        self.read
            .store(read_many(marks, self.passes), Ordering::SeqCst);
        self.forcing.force(alloc, m, marks, steps)
    }

    fn is_quick(&self, m: u32) -> bool {
        self.forcing.is_quick(m)
    }

    fn is_woken(&self, m: u32, word: u32) -> bool {
        self.forcing.is_woken(m, word)
    }
}
