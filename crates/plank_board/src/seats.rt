ghost use Rattle.std.specs.Prelude.{◌≡◌, ◌+◌, ◌<◌, ◌↔◌, IsTrue, length, slice_index};

use crate::names::Named;
use crate::table::Place;
use plank_bits::MarkWords;
use std::marker::{Model, PhantomData};

/// A seat at a board, for one worker at a time: what its holder has seen there.
///
/// Contracts see which board it is of, and its view.
#[derive(Drop)]
pub struct Seat<N: Named> {
    pub(crate) place: Place,
    pub(crate) epoch: u64,
    pub(crate) look: MarkWords,
    pub(crate) noted: Vec<u64>,
    pub(crate) of: PhantomData<N>,
}

impl<N: Named> Model for Seat<N> {
    ghost use Rattle.plank_board.specs.Seats.{Seated, IsIdle};

    ghost Value = { Seated };

    ghost view = { λ s. record { table = s.place.table_id; view = s.place.me.0 } };

    ghost invariant = { λ s. IsIdle N.methods N.words N.forces s.place.me s.epoch s.look s.noted.items };
}

impl<N: Named> Seat<N> {
    /// Whether the seat has not noted, at the epoch of its look or later, that the method forces nothing
    /// new.
    pub fn is_behind(&self, m: u32) -> bool
        requires { m < N.methods }
        ensures { IsTrue result ↔ slice_index self.now.view.noted m < self.now.view.epoch + 1 }
    {
        self.noted[m as usize] <= self.epoch
    }
}
