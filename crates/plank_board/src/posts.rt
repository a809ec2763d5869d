//! Posts: what a method forces at the seat's look.
ghost use Rattle.std.specs.Prelude.{◌≡◌, ◌+◌, ◌<◌, ◌≤◌, ◌↔◌, ℕ, false, length, slice_index, IsTrue};
ghost use Rattle.plank_bits.specs.Words.{has, IsWithin};
ghost use Rattle.plank_board.specs.Events.{IsWhole};
ghost use Rattle.plank_board.specs.declared.views.View.{View};
ghost use Rattle.plank_board.specs.declared.answers.Posted.TheVariants.{Settled};
ghost use Rattle.plank_board.specs.Plays.{IsReady};
ghost use Rattle.plank_board.specs.Calls.{StaysSeated, KeepsLook, IsPosted};
ghost use Rattle.plank_board.specs.Loops.{AreSet};

use crate::answers::Posted;
use crate::boards::Board;
use crate::names::Named;
use crate::seats::Seat;
use crate::table::Place;
use plank_bits::MarkWords;

impl<N: Named> Board<N> {
    // Sets the marks of one word, where some are beyond the look, and says whether the seat is in growth.
    fn set_word(
        &self,
        place: &mut Place,
        look: &MarkWords,
        m: u32,
        found: &MarkWords,
        i: u32,
        grows: bool,
    ) -> bool
        requires ready { IsReady N.methods N.words N.forces self.now.table place.old }
        requires places { (m < N.methods) × (i < N.words) × (length found.now ≡ N.words) }
        requires look { (look.now ≡ place.old.me.0.look) × IsWhole N.words place.old.me.0 }
        requires forced { (k : ℕ) → IsTrue (has found.now k) → N.forces m (has look.now) k }
        requires grows { grows ≡ place.old.me.0.grows }
        ensures ready { IsReady N.methods N.words N.forces self.now.table place.new }
        ensures more { (before : View) → AreSet N.methods N.words N.forces found.now before place.old.me.0 i →
            AreSet N.methods N.words N.forces found.now before place.new.me.0 (i + 1) }
        ensures grows { result ≡ place.new.me.0.grows }
    {
        let bits = found.word(i);
        if bits & !look.word(i) == 0 {
            return grows;
        }
        let before = self.set_marks(place, m, i, bits);
        grows || before | bits != before
    }

    // Sets the marks that are beyond the look, and says whether one was clear.
    fn set_all(&self, place: &mut Place, look: &MarkWords, m: u32, found: &MarkWords) -> bool
        requires ready { IsReady N.methods N.words N.forces self.now.table place.old }
        requires places { (m < N.methods) × (length found.now ≡ N.words) }
        requires look { (look.now ≡ place.old.me.0.look) × IsWhole N.words place.old.me.0 }
        requires forced { (k : ℕ) → IsTrue (has found.now k) → N.forces m (has look.now) k }
        requires idle { place.old.me.0.grows ≡ false }
        ensures ready { IsReady N.methods N.words N.forces self.now.table place.new }
        ensures set { AreSet N.methods N.words N.forces found.now place.old.me.0 place.new.me.0 N.words }
        ensures grows { result ≡ place.new.me.0.grows }
    {
        let mut grows = false;
        for i in 0..self.words {
            grows = self.set_word(place, look, m, found, i, grows);
        }
        grows
    }

    /// Sets what the method m forces at the seat's look. Where that is within the look, it raises the
    /// method's settled word instead; where it set a mark that was clear, it raises the epoch.
    pub fn post(&self, seat: &mut Seat<N>, m: u32, found: &MarkWords) -> Posted
        requires board { seat.old.table ≡ self.now.table }
        requires look { IsWhole N.words seat.old.view }
        requires method { m < N.methods }
        requires words { length found.now ≡ N.words }
        requires forced { (k : ℕ) → IsTrue (has found.now k) ↔ N.forces m (has seat.old.view.look) k }
        requires still { IsWithin (has found.now) (has seat.old.view.look) → N.still m (has seat.old.view.look) }
        ensures seat { StaysSeated N.methods N.words N.forces seat.old seat.new }
        ensures settled { (result ≡ Settled) ↔ IsWithin (has found.now) (has seat.old.view.look) }
        ensures told { IsPosted result m found.now seat.old.view seat.new.view }
        ensures seen { IsWithin (has found.now) (has seat.new.view.marks) }
        ensures kept { IsWithin (has seat.old.view.marks) (has seat.new.view.marks) }
        ensures noted { (q : ℕ) → q < N.methods → slice_index seat.old.view.noted q ≤ slice_index seat.new.view.noted q }
        ensures look { KeepsLook seat.old.view seat.new.view }
    {
        if found.subset(&seat.look) {
            let next = self.settled_at(seat.epoch);
            let before = self.settle(&mut seat.place, m, next);
            seat.noted[m as usize] = before.max(next);
            Posted::Settled
        } else if self.set_all(&mut seat.place, &seat.look, m, found) {
            self.raise(&mut seat.place);
            Posted::Grown
        } else {
            Posted::Known
        }
    }
}
