//! Looks: the epoch, and then every word of marks.
ghost use Rattle.std.specs.Prelude.{◌≡◌, ◌+◌, ◌<◌, ◌≤◌, length};
ghost use Rattle.plank_bits.specs.Words.{has, IsWithin};
ghost use Rattle.plank_board.specs.Rule.{AreForced};
ghost use Rattle.plank_board.specs.Plays.{IsReady};
ghost use Rattle.plank_board.specs.Calls.{StaysSeated, IsLook, KeepsBesideLook};
ghost use Rattle.plank_board.specs.Loops.{AreLoaded};

use crate::boards::Board;
use crate::names::Named;
use crate::seats::Seat;
use crate::table::Place;
use plank_bits::MarkWords;

impl<N: Named> Board<N> {
    // Loads every word of marks into both.
    fn load_all(&self, place: &mut Place, look: &mut MarkWords, into: &mut MarkWords)
        requires ready { IsReady N.methods N.words N.forces self.now.table place.old }
        requires look { look.old ≡ place.old.me.0.look }
        requires into { length into.old ≡ N.words }
        ensures ready { IsReady N.methods N.words N.forces self.now.table place.new }
        ensures loaded { AreLoaded N.methods N.words N.forces place.old.me.0 place.new.me.0 N.words }
        ensures look { look.new ≡ place.new.me.0.look }
        ensures into { into.new ≡ place.new.me.0.look }
    {
        for i in 0..self.words {
            let word = self.load_mark(place, i);
            look.put_word(i, word);
            into.put_word(i, word);
        }
    }

    /// Loads the epoch and then every word of marks, which `into` has then. They are the seat's look.
    pub fn look(&self, seat: &mut Seat<N>, into: &mut MarkWords)
        requires board { seat.old.table ≡ self.now.table }
        requires words { length into.old ≡ N.words }
        ensures seat { StaysSeated N.methods N.words N.forces seat.old seat.new }
        ensures look { into.new ≡ seat.new.view.look }
        ensures seen { into.new ≡ seat.new.view.marks }
        ensures loaded { IsLook N.words seat.old.view seat.new.view }
        ensures least { AreForced N.methods N.words N.forces (has into.new) }
        ensures kept { IsWithin (has seat.old.view.marks) (has into.new) }
        ensures epoch { (seat.old.view.epoch ≤ seat.new.view.epoch) × (seat.old.view.found ≤ seat.new.view.epoch) × (seat.old.view.raised ≤ seat.new.view.epoch) }
        ensures beside { KeepsBesideLook seat.old.view seat.new.view }
    {
        seat.epoch = self.begin(&mut seat.place);
        self.load_all(&mut seat.place, &mut seat.look, into);
    }
}
