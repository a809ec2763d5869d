//! One worker.
ghost use Rattle.std.specs.Prelude.{◌≡◌, ◌+◌, ◌*◌, ◌<◌, ◌≤◌, IfOk};
ghost use Rattle.plank_bits.specs.Words.{has, IsWithin};
ghost use Rattle.plank_crew.specs.Names.{IsNameOf};

use crate::rounds::next_method;
use crate::turns::{Turns, choose};
use plank_base::OutOfMemory;
use plank_bits::{MarkWords, Steps};
use plank_board::{Board, Forcing, Named, Seat};
use plank_io::Gate;
use std::alloc::Global;
use std::sync::ledger::Ledger;

// Where a worker begins, of which the first begins at 0. Workers with numbers that follow one another begin
// far apart, by the golden section of the round, so that none runs behind another.
fn first_method(worker: u32, methods: u32) -> u32
    requires { 0 < methods }
    ensures { result < methods }
{
    let part = worker.wrapping_sub(1).wrapping_mul(0x9e37_79b9) as u64;
    let place = part.wrapping_mul(methods as u64) >> 32;
    (place % (methods as u64)) as u32
}

/// Runs methods at the seat's looks and posts what they force, until all is quiet and the seat leaves. The
/// first run comes before the first question; after it, only methods are run that the seat has not noted to
/// be settled at the epoch of its look, going round from the worker's own: quick ones that new marks may wake,
/// then others that they may wake, then all.
///
/// A step is one run. Where memory is refused, the seat has seen all that it posted, and so it is on the
/// board.
pub fn work<N: Named, F: Forcing, G: Gate, L: Ledger>(
    alloc: Global,
    forcing: &F,
    board: &Board<N>,
    seat: &mut Seat<N>,
    worker: u32,
    gate: &G,
    steps: &mut Steps<L>,
) -> Result<(), OutOfMemory>
    requires name { IsNameOf N.methods N.words N.forces N.still (F.method_count forcing.now) (F.word_count forcing.now) (F.forces forcing.now) (F.still forcing.now) }
    requires some { 0 < N.methods }
    requires board { seat.old.table ≡ board.now.table }
    ensures seat { (seat.new.table ≡ seat.old.table) × (seat.new.view.parts ≡ seat.old.view.parts) }
    ensures left { IfOk result (λ _. seat.new.view.raised < seat.new.view.left) }
    ensures kept { IsWithin (has seat.old.view.marks) (has seat.new.view.marks) }
    ensures once { IfOk result (λ _. steps.old < steps.new) }
    ensures steps { steps.new ≤ steps.old + (N.methods * (64 * N.words + 1) + 64 * N.words) }
{
    let mut look = MarkWords::new(alloc, forcing.words())?;
    board.look(seat, &mut look);
    let methods = forcing.methods();
    let first = first_method(worker, methods);
    let mut turns = Turns::new(alloc, forcing, first)?;
    let mut m = turns.first_quick(first, methods);
    let mut turn: u64 = 0;
    loop {
        turn = turn.saturating_add(1);
        gate.pass(worker, turn);
        turns.begin(m);
        let found = forcing.force(alloc, m, &look, steps)?;
        board.post(seat, m, &found);
        match next_method(board, seat, &mut look, methods, m) {
            Some(next) => {
                turns.note_look(forcing, &look, m);
                turns.note_settled(seat, methods);
                m = choose(seat, &turns, methods, next);
            }
            None => return Ok(()),
        }
    }
}
