//! The table of words under the rule, and what each of its events tells.
ghost use Rattle.plank_board.specs.Events.{newcomer, kept_part, given_part, joined, spent};
ghost use Rattle.plank_board.specs.Plays.{Holds, begin_told, ask_told, leave_told, raise_told, load_told, set_told, note_told, settle_told};

use crate::names::Named;
use crate::views::View;
use atomic_table::{Join, Play, Split, Table, TableRule};
use std::alloc::Global;
use std::marker::PhantomData;

/// The rule of a board, under the name of its forcing.
pub struct Law<N> {
    of: PhantomData<N>,
}

impl<N: Named> TableRule<(), View, u64> for Law<N> {
    ghost holds = { Holds N.methods N.words N.forces N.still };

    ghost first = { newcomer N.methods N.words };
}

pub type Words<N> = Table<(), View, u64, Law<N>, Global>;

/// A seat of the table.
pub type Place = atomic_table::Seat<(), View>;

pub struct Begins<N> {
    of: PhantomData<N>,
}

impl<N: Named> Play<(), View> for Begins<N> {
    ghost then = { begin_told N.methods N.words N.forces };
}

pub struct Loads<N> {
    of: PhantomData<N>,
}

impl<N: Named> Play<(), View> for Loads<N> {
    ghost then = { load_told N.methods N.words N.forces };
}

pub struct Sets<N> {
    of: PhantomData<N>,
}

impl<N: Named> Play<(), View> for Sets<N> {
    ghost then = { set_told N.methods N.words N.forces };
}

pub struct Raises<N> {
    of: PhantomData<N>,
}

impl<N: Named> Play<(), View> for Raises<N> {
    ghost then = { raise_told N.methods N.words N.forces };
}

pub struct Notes<N> {
    of: PhantomData<N>,
}

impl<N: Named> Play<(), View> for Notes<N> {
    ghost then = { note_told N.methods N.words N.forces };
}

pub struct Settles<N> {
    of: PhantomData<N>,
}

impl<N: Named> Play<(), View> for Settles<N> {
    ghost then = { settle_told N.methods N.words N.forces };
}

pub struct Asks<N> {
    of: PhantomData<N>,
}

impl<N: Named> Play<(), View> for Asks<N> {
    ghost then = { ask_told N.methods N.words N.forces };
}

pub struct Leaves<N> {
    of: PhantomData<N>,
}

impl<N: Named> Play<(), View> for Leaves<N> {
    ghost then = { leave_told N.methods N.words N.forces };
}

/// How a seat is cut in two.
pub struct Splits;

impl Split<View> for Splits {
    ghost left = { kept_part };

    ghost right = { given_part };
}

/// How a seat takes another in.
pub struct Joins;

impl Join<View> for Joins {
    ghost both = { joined };

    ghost spent = { spent };
}
