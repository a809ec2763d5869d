//! The desks of a crew's workers: a seat each.
ghost use Rattle.std.specs.Prelude.{◌≡◌, ◌+◌, ◌<◌, All, length, vec_len, IfOk};
ghost use Rattle.plank_board.specs.Seats.{IsSeatOfOne};
ghost use Rattle.plank_crew.specs.Desks.{HasLeft};

use plank_base::OutOfMemory;
use plank_board::{Board, Named, Seat};
use std::alloc::Global;

/// The desk of a worker: its seat, its number, and whether it left.
#[derive(Drop)]
pub(crate) struct Desk<N: Named> {
    pub(crate) seat: Seat<N>,
    pub(crate) worker: u32,
    pub(crate) left: bool,
}

// Splits the seat among so many workers.
pub(crate) fn make_desks<N: Named>(
    alloc: Global,
    board: &Board<N>,
    seat: Seat<N>,
    workers: u32,
) -> Result<Vec<Desk<N>>, OutOfMemory>
    requires board { seat.table ≡ board.now.table }
    requires parts { seat.view.parts ≡ workers }
    requires some { 0 < workers }
    ensures many { IfOk result (λ desks. vec_len desks ≡ workers) }
    ensures seats { IfOk result (λ desks. All (λ d. IsSeatOfOne board.now.table d.seat) desks.items) }
{
    let mut seat = seat;
    let mut desks = Vec::new(alloc);
    for worker in 1..workers {
        let part = board.split(alloc, &mut seat)?;
        desks.push(Desk {
            seat: part,
            worker,
            left: false,
        })?;
    }
    desks.push(Desk {
        seat,
        worker: workers,
        left: false,
    })?;
    Ok(desks)
}

// Joins all seats to that of the first desk, which is left where all are.
pub(crate) fn join_desks<N: Named>(board: &Board<N>, first: Desk<N>, desks: Vec<Desk<N>>) -> Desk<N>
    requires first { IsSeatOfOne board.now.table first.seat × HasLeft first.left first.seat }
    requires seats { All (λ d. IsSeatOfOne board.now.table d.seat × HasLeft d.left d.seat) desks.items }
    ensures board { result.seat.table ≡ board.now.table }
    ensures parts { result.seat.view.parts ≡ 1 + vec_len desks }
    ensures left { HasLeft result.left result.seat }
{
    let mut desks = desks;
    let mut all = first;
    while let Some(desk) = desks.pop() {
        board.join(&mut all.seat, desk.seat);
        all.left = all.left && desk.left;
    }
    all
}
