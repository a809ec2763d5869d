//! The events of a board, one for each operation on a word.
ghost use Rattle.std.specs.Prelude.{◌≡◌, ◌+◌, ◌*◌, ◌<◌, ◌≤◌};
ghost use Rattle.plank_board.specs.Events.{May};
ghost use Rattle.plank_board.specs.Events.{begins, loads, sets, raises, notes, settles, asks, leaves};
ghost use Rattle.plank_board.specs.Plays.{IsReady, IsMade};

use crate::boards::Board;
use crate::names::Named;
use crate::table::{Asks, Begins, Leaves, Loads, Notes, Place, Raises, Sets, Settles};

impl<N: Named> Board<N> {
    // The number of the word of marks.
    fn mark_place(&self, i: u32) -> usize
        ensures { result ≡ N.methods + 1 + i }
    {
        self.methods as usize + 1 + i as usize
    }

    // Loads the epoch, to begin a look.
    pub(crate) fn begin(&self, place: &mut Place) -> u64
        requires { IsReady N.methods N.words N.forces self.now.table place.old }
        ensures at { place.new.table_id ≡ place.old.table_id }
        ensures made { IsMade N.methods N.words N.forces begins place.old.me result place.new.me }
    {
        self.table.shared.load::<Begins<N>>(place, 0)
    }

    // Loads a word of marks.
    pub(crate) fn load_mark(&self, place: &mut Place, i: u32) -> u64
        requires ready { IsReady N.methods N.words N.forces self.now.table place.old }
        requires word { i < N.words }
        ensures at { place.new.table_id ≡ place.old.table_id }
        ensures made { IsMade N.methods N.words N.forces (loads i) place.old.me result place.new.me }
    {
        self.table
            .shared
            .load::<Loads<N>>(place, self.mark_place(i))
    }

    // Sets bits of a word of marks, which the method m forces.
    pub(crate) fn set_marks(&self, place: &mut Place, m: u32, i: u32, bits: u64) -> u64
        requires ready { IsReady N.methods N.words N.forces self.now.table place.old }
        requires may { May N.methods N.words N.forces N.still place.old.me.0 (sets m i bits) }
        ensures at { place.new.table_id ≡ place.old.table_id }
        ensures made { IsMade N.methods N.words N.forces (sets m i bits) place.old.me result place.new.me }
    {
        let _method = m;
        self.table
            .shared
            .fetch_or::<Sets<N>>(place, self.mark_place(i), bits)
    }

    // Raises the epoch.
    pub(crate) fn raise(&self, place: &mut Place) -> u64
        requires ready { IsReady N.methods N.words N.forces self.now.table place.old }
        requires may { May N.methods N.words N.forces N.still place.old.me.0 raises }
        ensures at { place.new.table_id ≡ place.old.table_id }
        ensures made { IsMade N.methods N.words N.forces raises place.old.me result place.new.me }
    {
        self.table.shared.fetch_add::<Raises<N>>(place, 0, 1)
    }

    // Loads the settled word of a method.
    pub(crate) fn note(&self, place: &mut Place, m: u32) -> u64
        requires ready { IsReady N.methods N.words N.forces self.now.table place.old }
        requires method { m < N.methods }
        ensures at { place.new.table_id ≡ place.old.table_id }
        ensures made { IsMade N.methods N.words N.forces (notes m) place.old.me result place.new.me }
    {
        self.table.shared.load::<Notes<N>>(place, m as usize + 1)
    }

    // The settled word of a method that is settled at the epoch.
    pub(crate) fn settled_at(&self, epoch: u64) -> u64
        requires { epoch ≤ 64 * N.words }
        ensures { result ≡ epoch + 1 }
    {
        let words = self.words as u64;
        prove!(words <= 0xffff_ffff);
        epoch + 1
    }

    // Raises the settled word of a method, if it is lower.
    pub(crate) fn settle(&self, place: &mut Place, m: u32, next: u64) -> u64
        requires ready { IsReady N.methods N.words N.forces self.now.table place.old }
        requires may { May N.methods N.words N.forces N.still place.old.me.0 (settles m) }
        requires next { next ≡ place.old.me.0.epoch + 1 }
        ensures at { place.new.table_id ≡ place.old.table_id }
        ensures made { IsMade N.methods N.words N.forces (settles m) place.old.me result place.new.me }
    {
        self.table
            .shared
            .fetch_max::<Settles<N>>(place, m as usize + 1, next)
    }

    // Loads the epoch, where some method was not settled.
    pub(crate) fn ask(&self, place: &mut Place) -> u64
        requires { IsReady N.methods N.words N.forces self.now.table place.old }
        ensures at { place.new.table_id ≡ place.old.table_id }
        ensures made { IsMade N.methods N.words N.forces asks place.old.me result place.new.me }
    {
        self.table.shared.load::<Asks<N>>(place, 0)
    }

    // Loads the epoch, where all methods were settled, and leaves there if it is still the look's.
    pub(crate) fn leave(&self, place: &mut Place) -> u64
        requires ready { IsReady N.methods N.words N.forces self.now.table place.old }
        requires may { May N.methods N.words N.forces N.still place.old.me.0 leaves }
        ensures at { place.new.table_id ≡ place.old.table_id }
        ensures made { IsMade N.methods N.words N.forces leaves place.old.me result place.new.me }
    {
        self.table.shared.load::<Leaves<N>>(place, 0)
    }
}
