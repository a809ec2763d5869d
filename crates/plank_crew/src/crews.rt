//! A crew: a worker for each seat, each in a thread of its own.
ghost use Rattle.std.specs.Prelude.{◌≡◌, ◌*◌, ◌<◌, ◌≤◌, All, length, IfOk};
ghost use Rattle.plank_bits.specs.Words.{has};
ghost use Rattle.plank_bits.specs.Forced.{IsLeast};
ghost use Rattle.plank_crew.specs.Names.{IsNameOf};
ghost use Rattle.plank_board.specs.Seats.{IsSeatOfOne};
ghost use Rattle.plank_board.specs.Stills.{AreStill};
ghost use Rattle.plank_crew.specs.Desks.{HasLeft};

use crate::desks::{Desk, join_desks, make_desks};
use crate::workers::work;
use plank_base::OutOfMemory;
use plank_bits::{MarkWords, Steps};
use plank_board::{Board, Forcing, Named};
use plank_io::Gate;
use std::alloc::Global;
use std::marker::Brand;
use std::sync::ledger::{Blank, Ledger};
use std::thread;
use std::thread::Threads;

// One worker, whose steps are counted by the ledger of the blank.
fn work_counted<N: Named, F: Forcing, G: Gate, L: Ledger>(
    alloc: Global,
    forcing: &F,
    board: &Board<N>,
    gate: &G,
    desk: &mut Desk<N>,
    blank: Blank,
)
    requires name { IsNameOf N.methods N.words N.forces N.still (F.method_count forcing.now) (F.word_count forcing.now) (F.forces forcing.now) (F.still forcing.now) }
    requires some { 0 < N.methods }
    requires desk { IsSeatOfOne board.now.table desk.old.seat }
    requires blank { (blank.name ≡ L.name) × (blank.parts ≡ L.parts) × (0 < blank.parts) }
    ensures seat { IsSeatOfOne board.now.table desk.new.seat }
    ensures left { HasLeft desk.new.left desk.new.seat }
{
    let mut steps = Steps::<L>::new(blank);
    let worker = desk.worker;
    let done = work(
        alloc,
        forcing,
        board,
        &mut desk.seat,
        worker,
        gate,
        &mut steps,
    );
    desk.left = done.is_ok();
}

// One worker.
fn work_at<N: Named, F: Forcing, G: Gate>(
    alloc: Global,
    forcing: &F,
    board: &Board<N>,
    gate: &G,
    desk: &mut Desk<N>,
)
    requires name { IsNameOf N.methods N.words N.forces N.still (F.method_count forcing.now) (F.word_count forcing.now) (F.forces forcing.now) (F.still forcing.now) }
    requires some { 0 < N.methods }
    requires desk { IsSeatOfOne board.now.table desk.old.seat }
    ensures { IsSeatOfOne board.now.table desk.new.seat × HasLeft desk.new.left desk.new.seat }
{
    work_counted::<N, F, G, Brand>(alloc, forcing, board, gate, desk, Blank::new(1));
}

// All workers, each in a thread.
fn work_all<N: Named, R: Threads + Sync, F: Forcing, G: Gate>(
    rt: &R,
    alloc: Global,
    forcing: &F,
    board: &Board<N>,
    gate: &G,
    desks: &mut [Desk<N>],
)
    requires name { IsNameOf N.methods N.words N.forces N.still (F.method_count forcing.now) (F.word_count forcing.now) (F.forces forcing.now) (F.still forcing.now) }
    requires some { 0 < N.methods }
    requires desks { All (λ d. IsSeatOfOne board.now.table d.seat) desks.old }
    ensures { All (λ d. IsSeatOfOne board.now.table d.seat × HasLeft d.left d.seat) desks.new }
{
    thread::for_each_mut(
        rt,
        desks,
        64,
        &|_place: usize, desk: &mut Desk<N>|
            requires name { IsNameOf N.methods N.words N.forces N.still (F.method_count forcing.now) (F.word_count forcing.now) (F.forces forcing.now) (F.still forcing.now) }
            requires some { 0 < N.methods }
            requires desk { IsSeatOfOne board.now.table desk.old.seat }
            ensures { IsSeatOfOne board.entry.now.table desk.new.seat × HasLeft desk.new.left desk.new.seat }
        { work_at(alloc, forcing, board, gate, desk) },
    );
}

// The crew of a forcing that has a name.
fn crew_named<N: Named, R: Threads + Sync, F: Forcing, G: Gate>(
    rt: &R,
    alloc: Global,
    forcing: &F,
    workers: u32,
    gate: &G,
) -> Result<MarkWords, OutOfMemory>
    requires name { IsNameOf N.methods N.words N.forces N.still (F.method_count forcing.now) (F.word_count forcing.now) (F.forces forcing.now) (F.still forcing.now) }
    requires some { 0 < N.methods }
    requires workers { (0 < workers) × (workers ≤ 64) }
    ensures words { IfOk result (λ marks. length marks ≡ N.words) }
    ensures least { IfOk result (λ marks. IsLeast N.forces N.methods (has marks)) }
    ensures still { IfOk result (λ marks. AreStill N.still N.methods (has marks)) }
{
    let (board, seat) = Board::<N>::new(alloc, forcing, workers)?;
    let mut desks = make_desks(alloc, &board, seat, workers)?;
    work_all(rt, alloc, forcing, &board, gate, desks.as_mut_slice());
    let first = desks.pop().unwrap();
    let all = join_desks(&board, first, desks);
    if all.left {
        Ok(board.close(all.seat))
    } else {
        Err(OutOfMemory)
    }
}

/// The least closed marks of a forcing, found by so many workers on one board, each in a thread of its own
/// where a thread can be had. Every method is still there. Want of memory of one worker is the crew's.
pub fn crew<R: Threads + Sync, F: Forcing, G: Gate>(
    rt: &R,
    alloc: Global,
    forcing: &F,
    workers: u32,
    gate: &G,
) -> Result<MarkWords, OutOfMemory>
    requires methods { 0 < F.method_count forcing.now }
    requires workers { (0 < workers) × (workers ≤ 64) }
    ensures words { IfOk result (λ marks. length marks ≡ F.word_count forcing.now) }
    ensures least { IfOk result (λ marks. IsLeast (F.forces forcing.now) (F.method_count forcing.now) (has marks)) }
    ensures still { IfOk result (λ marks. AreStill (F.still forcing.now) (F.method_count forcing.now) (has marks)) }
{
    crew_named::<Brand, R, F, G>(rt, alloc, forcing, workers, gate)
}
