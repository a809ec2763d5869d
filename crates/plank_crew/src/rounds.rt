//! Going round the methods: which one is run next.
ghost use Rattle.std.specs.Prelude.{◌≡◌, ℕ, ◌+◌, ◌<◌, ◌≤◌, IfSome, IfNone, length, slice_index};
ghost use Rattle.plank_board.specs.Events.{IsWhole};
ghost use Rattle.plank_board.specs.Seats.{Sits};
ghost use Rattle.plank_board.specs.Calls.{StaysSeated};
ghost use Rattle.plank_crew.specs.Turns.{HasLooked, SeesMore, IsBehind};

use plank_bits::MarkWords;
use plank_board::{Board, Named, Quiet, Seat};

// The first method of a stretch that the seat has not noted to be settled at the epoch of its look.
fn first_behind<N: Named>(seat: &Seat<N>, from: u32, until: u32) -> Option<u32>
    requires { until ≤ N.methods }
    ensures behind { IfSome result (λ m. (m < until) × IsBehind seat.now.view m) }
    ensures none { IfNone result ((m : ℕ) → from ≤ m → m < until → seat.now.view.epoch < slice_index seat.now.view.noted m) }
{
    for m in from..until {
        if seat.is_behind(m) {
            return Some(m);
        }
    }
    None
}

// The next method after m, going round, that the seat has not noted to be settled.
fn next_behind<N: Named>(seat: &Seat<N>, methods: u32, m: u32) -> Option<u32>
    requires methods { methods ≡ N.methods }
    requires method { m < methods }
    ensures behind { IfSome result (λ n. (n < N.methods) × IsBehind seat.now.view n) }
    ensures none { IfNone result ((n : ℕ) → n < N.methods → seat.now.view.epoch < slice_index seat.now.view.noted n) }
{
    match first_behind(seat, m + 1, methods) {
        Some(next) => Some(next),
        None => first_behind(seat, 0, m + 1),
    }
}

// Asks, and looks again, until all is quiet and the seat has left, or some method is behind: the next
// one after m.
pub(crate) fn next_method<N: Named>(
    board: &Board<N>,
    seat: &mut Seat<N>,
    look: &mut MarkWords,
    methods: u32,
    m: u32,
) -> Option<u32>
    requires board { seat.old.table ≡ board.now.table }
    requires sits { Sits N.methods N.words N.forces seat.old.view }
    requires whole { IsWhole N.words seat.old.view }
    requires size { length look.old ≡ N.words }
    requires methods { methods ≡ N.methods }
    requires method { m < methods }
    ensures seat { StaysSeated N.methods N.words N.forces seat.old seat.new }
    ensures more { SeesMore N.methods seat.old.view seat.new.view }
    ensures left { IfNone result (seat.new.view.raised < seat.new.view.left) }
    ensures next { IfSome result (λ n. (n < N.methods) × IsBehind seat.new.view n) }
    ensures looked { IfSome result (λ _. HasLooked N.words look.new seat.new.view) }
{
    loop {
        if let Quiet::All(_) = board.quiet(seat) {
            return None;
        }
        board.look(seat, look);
        if let Some(next) = next_behind(seat, methods, m) {
            return Some(next);
        }
    }
}
