// Crews: of one forcing and any number of workers.
ghost use Rattle.std.specs.Prelude.{◌≡◌, ◌<◌, ◌≤◌, length, IfOk, OnOk};

use crate::failing::Failing;
use crate::shapes::{random, staircase};
use plank_base::OutOfMemory;
use plank_bits::{MarkWords, Steps};
use plank_board::Forcing;
use plank_crew::crew;
use plank_io::{Gate, OpenGate};
use std::alloc::Global;
use std::marker::Brand;
use std::process::Abort;
use std::sync::atomic::{AtomicU64, Ordering};
use std::sync::ledger::{Blank, Ledger};
use std::test::Fail;

// Holds one worker at its first turn until the other has come to a turn.
#[derive(Drop)]
struct Held {
    worker: u32,
    until: u64,
    // The greatest turns of the worker that is held and of the other.
    own: AtomicU64,
    other: AtomicU64,
    came: AtomicU64,
}

impl Held {
    fn new(worker: u32, until: u64) -> Held {
        Held {
            worker,
            until,
            own: AtomicU64::new(0),
            other: AtomicU64::new(0),
            came: AtomicU64::new(0),
        }
    }

    fn wait(&self) {
        for _ in 0..2_000_000_000 {
            if self.other.load(Ordering::SeqCst) >= self.until {
                self.came.store(1, Ordering::SeqCst);
                return;
            }
        }
    }
}

impl Gate for Held {
    fn pass(&self, worker: u32, turn: u64) {
        if worker != self.worker {
            self.other.fetch_max(turn, Ordering::SeqCst);
            return;
        }
        self.own.fetch_max(turn, Ordering::SeqCst);
        if turn == 1 {
            self.wait();
        }
    }
}

#[test]
fn a_worker_that_is_held_goes_on_with_what_the_other_found(rt: HostRuntime) -> Result<(), Fail> {
    let table = staircase(rt.alloc())?;
    let gate = Held::new(2, 40);
    let marks = crew(&rt, rt.alloc(), &table, 2, &gate)?;
    assert_eq!(rt; gate.came.load(Ordering::SeqCst), 1);
    let turns = gate.own.load(Ordering::SeqCst);
    assert!(rt; turns < 40, "{turns} turns");
    assert_eq!(rt; marks.word(0), u64::MAX);
    Ok(())
}

#[test]
fn the_first_worker_begins_when_the_second_has_begun(rt: HostRuntime) -> Result<(), Fail> {
    let table = staircase(rt.alloc())?;
    let gate = Held::new(1, 1);
    let marks = crew(&rt, rt.alloc(), &table, 2, &gate)?;
    assert_eq!(rt; gate.came.load(Ordering::SeqCst), 1);
    assert_eq!(rt; marks.word(0), u64::MAX);
    Ok(())
}

// Runs every method at the marks so far.
fn round<F: Forcing, L: Ledger>(
    alloc: Global,
    forcing: &F,
    marks: &mut MarkWords,
    steps: &mut Steps<L>,
) -> Result<(), OutOfMemory>
    requires { length marks.old ≡ F.word_count forcing.now }
    ensures { OnOk result (length marks.new ≡ F.word_count forcing.now) }
{
    for m in 0..forcing.methods() {
        let found = forcing.force(alloc, m, marks, steps)?;
        marks.union_with(&found);
    }
    Ok(())
}

// The marks of as many rounds as there may be marks.
fn rounds<F: Forcing, L: Ledger>(
    alloc: Global,
    forcing: &F,
    steps: &mut Steps<L>,
) -> Result<MarkWords, OutOfMemory>
    ensures { IfOk result (λ marks. length marks ≡ F.word_count forcing.now) }
{
    let mut marks = MarkWords::new(alloc, forcing.words())?;
    for _turn in 0..256 {
        round(alloc, forcing, &mut marks, steps)?;
    }
    Ok(marks)
}

fn rounds_counted<F: Forcing, L: Ledger>(
    alloc: Global,
    forcing: &F,
    blank: Blank,
) -> Result<MarkWords, OutOfMemory>
    requires name { blank.name ≡ L.name }
    requires parts { blank.parts ≡ L.parts }
    requires some { 0 < blank.parts }
    ensures { IfOk result (λ marks. length marks ≡ F.word_count forcing.now) }
{
    let mut steps = Steps::<L>::new(blank);
    rounds(alloc, forcing, &mut steps)
}

fn rounds_of<F: Forcing>(alloc: Global, forcing: &F) -> Result<MarkWords, OutOfMemory>
    ensures { IfOk result (λ marks. length marks ≡ F.word_count forcing.now) }
{
    rounds_counted::<F, Brand>(alloc, forcing, Blank::new(1))
}

// Both are the same marks.
fn assert_same(rt: &impl Abort, found: &MarkWords, wanted: &MarkWords)
    requires { length found.now ≡ length wanted.now }
{
    for i in 0..found.len() {
        assert_eq!(rt; found.word(i), wanted.word(i), "word {i}");
    }
}

#[test]
fn a_crew_of_any_number_finds_the_marks_of_rounds(rt: HostRuntime) -> Result<(), Fail> {
    for seed in 1..4 {
        let table = random(rt.alloc(), seed)?;
        let wanted = rounds_of(rt.alloc(), &table)?;
        for workers in [1, 2, 3, 64] {
            let found = crew(&rt, rt.alloc(), &table, workers, &OpenGate)?;
            assert_same(&rt, &found, &wanted);
        }
    }
    Ok(())
}

#[test]
fn want_of_memory_of_a_worker_is_the_crews(rt: HostRuntime) -> Result<(), Fail> {
    let table = random(rt.alloc(), 4)?;
    let wanted = rounds_of(rt.alloc(), &table)?;
    for refused in 1..1000 {
        let failing = Failing {
            forcing: &table,
            refused,
            calls: AtomicU64::new(0),
        };
        let answer = crew(&rt, rt.alloc(), &failing, 3, &OpenGate);
        let calls = failing.calls.load(Ordering::SeqCst);
        match answer {
            Err(OutOfMemory) => assert!(rt; refused <= calls, "at {refused} of {calls}"),
            Ok(found) => {
                assert!(rt; calls < refused, "at {refused} of {calls}");
                assert_same(&rt, &found, &wanted);
                return Ok(());
            }
        }
    }
    panic!(rt; "each of 999 calls was refused")
}
