//! Whether all is quiet: every settled word, and then the epoch.
ghost use Rattle.std.specs.Prelude.{◌≡◌, ◌+◌, ◌<◌, ◌≤◌, ◌^◌, ℕ, length, slice_index, IfSome, IfNone};
ghost use Rattle.plank_board.specs.Events.{IsWhole};
ghost use Rattle.plank_board.specs.Plays.{IsReady};
ghost use Rattle.plank_board.specs.Calls.{StaysSeated, KeepsLook, IsQuiet};
ghost use Rattle.plank_board.specs.Loops.{AreNoted};

use crate::answers::Quiet;
use crate::boards::Board;
use crate::names::Named;
use crate::seats::Seat;
use crate::table::Place;

// The first method that is not settled at the epoch.
fn first_behind(noted: &[u64], epoch: u64) -> Option<u32>
    requires { length noted.now < 2 ^ 32 }
    ensures behind { IfSome result (λ m. (m < length noted.now) × (slice_index noted.now m ≤ epoch)) }
    ensures before { IfSome result (λ m. (j : ℕ) → j < m → epoch < slice_index noted.now j) }
    ensures none { IfNone result ((j : ℕ) → j < length noted.now → epoch < slice_index noted.now j) }
{
    for m in 0..noted.len() {
        if noted[m] <= epoch {
            return Some(m as u32);
        }
    }
    None
}

impl<N: Named> Board<N> {
    // Loads every settled word.
    fn note_all(&self, place: &mut Place, noted: &mut [u64])
        requires ready { IsReady N.methods N.words N.forces self.now.table place.old }
        requires noted { noted.old ≡ place.old.me.0.noted }
        ensures ready { IsReady N.methods N.words N.forces self.now.table place.new }
        ensures loaded { AreNoted N.methods N.words N.forces place.old.me.0 place.new.me.0 N.methods }
        ensures noted { noted.new ≡ place.new.me.0.noted }
        ensures few { length noted.new < 2 ^ 32 }
    {
        for m in 0..self.methods {
            noted[m as usize] = self.note(place, m);
        }
    }

    /// Loads every settled word and then the epoch. Where every method is settled at the epoch of the
    /// seat's look, and that is still the epoch, the seat leaves there.
    pub fn quiet(&self, seat: &mut Seat<N>) -> Quiet
        requires board { seat.old.table ≡ self.now.table }
        requires look { IsWhole N.words seat.old.view }
        ensures seat { StaysSeated N.methods N.words N.forces seat.old seat.new }
        ensures told { IsQuiet result N.methods seat.old.view seat.new.view }
        ensures look { KeepsLook seat.old.view seat.new.view }
        ensures marks { seat.new.view.marks ≡ seat.old.view.marks }
        ensures noted { (m : ℕ) → m < N.methods → slice_index seat.old.view.noted m ≤ slice_index seat.new.view.noted m }
        ensures epoch { (seat.old.view.found ≤ seat.new.view.found) × (seat.new.view.raised ≤ seat.new.view.found) }
    {
        self.note_all(&mut seat.place, seat.noted.as_mut_slice());
        match first_behind(seat.noted.as_slice(), seat.epoch) {
            Some(m) => {
                self.ask(&mut seat.place);
                Quiet::Still(m)
            }
            None => {
                let now = self.leave(&mut seat.place);
                if now == seat.epoch {
                    Quiet::All(now)
                } else {
                    Quiet::Moved(now)
                }
            }
        }
    }
}
