// Two threads at one board.
ghost use Rattle.std.specs.Prelude.{◌≡◌, ◌<◌, length, IfOk};
ghost use Rattle.plank_board.specs.Seats.{IsSeatOfOne};
ghost use Rattle.plank_crew.specs.Names.{IsNameOf};

use crate::seats::{post, sit};
use crate::shapes::pair;
use plank_base::OutOfMemory;
use plank_bits::{MarkWords, Steps};
use plank_board::{Board, Forcing, Named, Posted, Seat};
use std::alloc::Global;
use std::marker::Brand;
use std::sync::ledger::{Blank, Ledger};
use std::test::Fail;
use std::thread;
use std::thread::Threads;

// Looks, and posts what the method forces there.
fn post_counted<N: Named, F: Forcing, L: Ledger>(
    alloc: Global,
    forcing: &F,
    board: &Board<N>,
    seat: Seat<N>,
    m: u32,
    blank: Blank,
) -> Result<(Seat<N>, Posted), OutOfMemory>
    requires name { IsNameOf N.methods N.words N.forces N.still (F.method_count forcing.now) (F.word_count forcing.now) (F.forces forcing.now) (F.still forcing.now) }
    requires method { m < N.methods }
    requires seat { IsSeatOfOne board.now.table seat }
    requires blank { (blank.name ≡ L.name) × (blank.parts ≡ L.parts) × (0 < blank.parts) }
    ensures { IfOk result (λ r. IsSeatOfOne board.now.table r.0) }
{
    let mut steps = Steps::<L>::new(blank);
    let mut player = sit(alloc, board, seat, forcing.words())?;
    let posted = post(alloc, forcing, board, &mut player, m, &mut steps)?;
    Ok((player.seat, posted))
}

fn post_own<N: Named, F: Forcing>(
    alloc: Global,
    forcing: &F,
    board: &Board<N>,
    seat: Seat<N>,
    m: u32,
) -> Result<(Seat<N>, Posted), OutOfMemory>
    requires name { IsNameOf N.methods N.words N.forces N.still (F.method_count forcing.now) (F.word_count forcing.now) (F.forces forcing.now) (F.still forcing.now) }
    requires method { m < N.methods }
    requires seat { IsSeatOfOne board.now.table seat }
    ensures { IfOk result (λ r. IsSeatOfOne board.now.table r.0) }
{
    post_counted::<N, F, Brand>(alloc, forcing, board, seat, m, Blank::new(1))
}

// What two threads leave, and what each was told.
fn post_both<N: Named, R: Threads + Sync, F: Forcing>(
    rt: &R,
    alloc: Global,
    forcing: &F,
) -> Result<(MarkWords, Posted, Posted), OutOfMemory>
    requires name { IsNameOf N.methods N.words N.forces N.still (F.method_count forcing.now) (F.word_count forcing.now) (F.forces forcing.now) (F.still forcing.now) }
    requires methods { 1 < N.methods }
    ensures { IfOk result (λ r. length r.0 ≡ N.words) }
{
    let (board, mut seat) = Board::<N>::new(alloc, forcing, 2)?;
    let other = board.split(alloc, &mut seat)?;
    let shared = &board;
    let (one, two) = thread::join(
        rt,
        || -> Result<(Seat<N>, Posted), OutOfMemory>
            requires name { IsNameOf N.methods N.words N.forces N.still (F.method_count forcing.now) (F.word_count forcing.now) (F.forces forcing.now) (F.still forcing.now) }
            requires methods { 1 < N.methods }
            requires seat { IsSeatOfOne shared.now.table seat }
        { post_own(alloc, forcing, shared, seat, 0) },
        || -> Result<(Seat<N>, Posted), OutOfMemory>
            requires name { IsNameOf N.methods N.words N.forces N.still (F.method_count forcing.now) (F.word_count forcing.now) (F.forces forcing.now) (F.still forcing.now) }
            requires methods { 1 < N.methods }
            requires seat { IsSeatOfOne shared.now.table other }
        { post_own(alloc, forcing, shared, other, 1) },
    );
    let (Ok((mut seat, first)), Ok((other, second))) = (one, two) else {
        return Err(OutOfMemory);
    };
    board.join(&mut seat, other);
    Ok((board.close(seat), first, second))
}

fn posts_of<R: Threads + Sync, F: Forcing>(
    rt: &R,
    alloc: Global,
    forcing: &F,
) -> Result<(MarkWords, Posted, Posted), OutOfMemory>
    requires { 1 < F.method_count forcing.now }
    ensures { IfOk result (λ r. length r.0 ≡ F.word_count forcing.now) }
{
    post_both::<Brand, R, F>(rt, alloc, forcing)
}

#[test]
fn posts_of_two_threads_are_both_there(rt: HostRuntime) -> Result<(), Fail> {
    let (marks, first, second) = posts_of(&rt, rt.alloc(), &pair(rt.alloc())?)?;
    assert_eq!(rt; first, Posted::Grown);
    assert_eq!(rt; second, Posted::Grown);
    assert_eq!(rt; marks.word(0), 3);
    Ok(())
}
