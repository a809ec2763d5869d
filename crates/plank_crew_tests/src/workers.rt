// One worker at a board.
ghost use Rattle.std.specs.Prelude.{◌≡◌, ◌+◌, ◌<◌, ◌≤◌, length, IfOk};
ghost use Rattle.plank_crew.specs.Names.{IsNameOf};

use crate::failing::Failing;
use crate::shapes::{relay, staircase};
use plank_base::OutOfMemory;
use plank_bits::{MarkWords, Steps};
use plank_board::{Board, Forcing, Named};
use plank_crew::work;
use plank_io::OpenGate;
use std::alloc::Global;
use std::marker::Brand;
use std::sync::atomic::AtomicU64;
use std::sync::ledger::{Blank, Ledger};
use std::test::Fail;

// Whether the only worker left, and the marks on the board then. Where there are two methods and one word
// it made at most 194 runs.
fn work_alone<N: Named, F: Forcing, L: Ledger>(
    alloc: Global,
    forcing: &F,
    steps: &mut Steps<L>,
) -> Result<(bool, MarkWords), OutOfMemory>
    requires name { IsNameOf N.methods N.words N.forces N.still (F.method_count forcing.now) (F.word_count forcing.now) (F.forces forcing.now) (F.still forcing.now) }
    requires methods { 0 < N.methods }
    ensures words { IfOk result (λ r. length r.1 ≡ N.words) }
    ensures steps { N.methods ≡ 2 → N.words ≡ 1 → steps.new ≤ steps.old + 194 }
{
    let (board, mut seat) = Board::<N>::new(alloc, forcing, 1)?;
    let done = work(alloc, forcing, &board, &mut seat, 1, &OpenGate, steps);
    Ok((done.is_ok(), board.close(seat)))
}

fn work_counted<N: Named, F: Forcing, L: Ledger>(
    alloc: Global,
    forcing: &F,
    blank: Blank,
) -> Result<(bool, MarkWords), OutOfMemory>
    requires name { IsNameOf N.methods N.words N.forces N.still (F.method_count forcing.now) (F.word_count forcing.now) (F.forces forcing.now) (F.still forcing.now) }
    requires methods { 0 < N.methods }
    requires blank { (blank.name ≡ L.name) × (blank.parts ≡ L.parts) × (0 < blank.parts) }
    ensures { IfOk result (λ r. length r.1 ≡ N.words) }
{
    let mut steps = Steps::<L>::new(blank);
    work_alone::<N, F, L>(alloc, forcing, &mut steps)
}

fn work_named<N: Named, F: Forcing>(
    alloc: Global,
    forcing: &F,
) -> Result<(bool, MarkWords), OutOfMemory>
    requires name { IsNameOf N.methods N.words N.forces N.still (F.method_count forcing.now) (F.word_count forcing.now) (F.forces forcing.now) (F.still forcing.now) }
    requires methods { 0 < N.methods }
    ensures { IfOk result (λ r. length r.1 ≡ N.words) }
{
    work_counted::<N, F, Brand>(alloc, forcing, Blank::new(1))
}

fn work_of<F: Forcing>(alloc: Global, forcing: &F) -> Result<(bool, MarkWords), OutOfMemory>
    requires { 0 < F.method_count forcing.now }
    ensures { IfOk result (λ r. length r.1 ≡ F.word_count forcing.now) }
{
    work_named::<Brand, F>(alloc, forcing)
}

#[test]
fn a_worker_alone_finds_all(rt: HostRuntime) -> Result<(), Fail> {
    let (left, marks) = work_of(rt.alloc(), &relay(rt.alloc())?)?;
    assert!(rt; left);
    assert_eq!(rt; marks.word(0), 3);
    Ok(())
}

#[test]
fn what_a_worker_posted_stays_where_memory_is_refused(rt: HostRuntime) -> Result<(), Fail> {
    let table = staircase(rt.alloc())?;
    let mut posted: u64 = 0;
    for refused in 1..66 {
        let failing = Failing {
            forcing: &table,
            refused,
            calls: AtomicU64::new(0),
        };
        let (left, marks) = work_of(rt.alloc(), &failing)?;
        assert!(rt; !left, "at {refused}");
        assert_eq!(rt; marks.word(0), posted, "at {refused}");
        posted = posted << 1 | 1;
    }
    let (left, marks) = work_of(rt.alloc(), &table)?;
    assert!(rt; left);
    assert_eq!(rt; marks.word(0), u64::MAX);
    Ok(())
}
