ghost use Rattle.std.specs.Prelude.{◌≡◌, ◌≤◌, Some, None, if◌then◌else◌};
ghost use Rattle.plank_pic.specs.declared.parts.Part.{Part};
ghost use Rattle.plank_pic.specs.Pictures.{place};
ghost use Rattle.plank_pic.specs.Steps.{written};
ghost use Rattle.plank_pic.specs.Blocks.{change_of};
ghost use Rattle.plank_pic.specs.TestedSteps.{left_of, settled, left_of_name, left_of_both, left_of_pick, stepped};
ghost use Rattle.plank_walk.specs.Settles.{Settles};
ghost use Rattle.plank_step.specs.Turns.{change_over};
ghost use Rattle.plank_step.specs.Sources.{sources, settled_as};

use crate::footprints::{footprint_of, moved_along, set_left, stop_left, visit_left};
use crate::mixing::{Mixed, chain_left, is_published, pick_left, stop_flag_left};
use crate::renaming::{named_as, origin};
use crate::turns::{Origin, TakesTurn, writes_of};
use crate::writes::written_name;
use plank_pic::{KeyName, Part, Place};
use plank_prog::{Header, Write};
use plank_walk::Reader;

// The visit bit of a name after the writes, or none where it is free.
fn visit_after<S: Reader, T: TakesTurn>(
    before: &S,
    turn: &T,
    writes: &[Write],
    key: KeyName,
    name: u8,
    log: &mut S::Log,
) -> Result<Option<bool>, usize>
    requires { (S.frame before.now).names ≤ 16 }
    ensures { Settles (λ full. written (S.frame before.now) (S.picture before.now full) (change_over (T.turn turn.now) writes.now) (Part.Visits key name)) (S.known before.now) result }
{
    let mixed = Mixed {
        before,
        turn,
        writes,
    };
    let at = written_name(turn, writes);
    let footprint = footprint_of(before, &mixed, key, at, log)?;
    let moved = moved_along(before, &mixed, key, at, &footprint, log)?;
    visit_left(before, &mixed, key, name, (moved, &footprint), log)
}

// The visit bit of a stop node after the writes, or none where it is free.
fn stop_after<S: Reader, T: TakesTurn>(
    before: &S,
    turn: &T,
    writes: &[Write],
    key: KeyName,
    slot: u8,
    log: &mut S::Log,
) -> Result<Option<bool>, usize>
    requires { (S.frame before.now).names ≤ 16 }
    ensures { Settles (λ full. written (S.frame before.now) (S.picture before.now full) (change_over (T.turn turn.now) writes.now) (Part.StopVisited key slot)) (S.known before.now) result }
{
    let mixed = Mixed {
        before,
        turn,
        writes,
    };
    let at = written_name(turn, writes);
    let footprint = footprint_of(before, &mixed, key, at, log)?;
    let moved = moved_along(before, &mixed, key, at, &footprint, log)?;
    stop_left(before, key, at, slot, (moved, &footprint), log)
}

// The set bit of a key after the writes, or none where it is free.
fn set_after<S: Reader, T: TakesTurn>(
    before: &S,
    turn: &T,
    writes: &[Write],
    key: KeyName,
    log: &mut S::Log,
) -> Result<Option<bool>, usize>
    requires { (S.frame before.now).names ≤ 16 }
    ensures { Settles (λ full. written (S.frame before.now) (S.picture before.now full) (change_over (T.turn turn.now) writes.now) (Part.InSet key)) (S.known before.now) result }
{
    let mixed = Mixed {
        before,
        turn,
        writes,
    };
    let at = written_name(turn, writes);
    let footprint = footprint_of(before, &mixed, key, at, log)?;
    let moved = moved_along(before, &mixed, key, at, &footprint, log)?;
    set_left(before, key, moved, log)
}

// What writes leave of a part, or none where it is free.
fn written<S: Reader, T: TakesTurn>(
    before: &S,
    turn: &T,
    writes: &[Write],
    part: Part,
    log: &mut S::Log,
) -> Result<Option<bool>, usize>
    requires { (S.frame before.now).names ≤ 16 }
    ensures { Settles (λ full. written (S.frame before.now) (S.picture before.now full) (change_over (T.turn turn.now) writes.now) part) (S.known before.now) result }
{
    let at = written_name(turn, writes);
    match part {
        Part::Shared { name } => Ok(Some(
            before.says(part, log)? || is_published(before, turn, writes, name, log)?,
        )),
        Part::Mine { name } => Ok(Some(
            before.says(part, log)? && !is_published(before, turn, writes, name, log)?,
        )),
        Part::Visits { key, name } => visit_after(before, turn, writes, key, name, log),
        Part::InSet { key } => set_after(before, turn, writes, key, log),
        Part::StopVisited { key, slot } => stop_after(before, turn, writes, key, slot, log),
        Part::StopFlag { key, slot, flag } => stop_flag_left(before, at, key, slot, flag, log),
        Part::Chain { from, to } => chain_left(before, at, from, to, log),
        Part::Picks {
            key,
            from,
            to,
            slot,
        } => pick_left(before, at, (key, from, to, slot), log),
        Part::Spent => Ok(None),
        _ => {
            let mixed = Mixed {
                before,
                turn,
                writes,
            };
            Ok(Some(mixed.says(part, log)?))
        }
    }
}

/// What a turn's write leaves of a part, or what is there without one; none where it is free.
pub fn left<S: Reader, T: TakesTurn>(
    before: &S,
    turn: &T,
    part: Part,
    log: &mut S::Log,
) -> Result<Option<bool>, usize>
    requires { (S.frame before.now).names ≤ 16 }
    ensures { Settles (λ full. left_of (S.frame before.now) (S.picture before.now full) (change_of (T.turn turn.now)) part) (S.known before.now) result }
{
    let writes = writes_of(turn);
    match writes {
        [] => Ok(Some(before.says(part, log)?)),
        [_, ..] => written(before, turn, writes, part, log),
    }
}

/// The picture between the write and the names of after, of the parts that the write determines: a
/// reader over a reader. Its other parts are what is left of them, or no.
pub struct Settled<'a, S: Reader, T: TakesTurn> {
    pub before: &'a S,
    pub turn: &'a T,
    pub ghost few: { (S.frame before.now).names ≤ 16 },
}

impl<'a, S: Reader, T: TakesTurn> Drop for Settled<'a, S, T> {
    fn drop(self) {
        let Settled { before: _, turn: _ } = self;
    }
}

impl<'a, S: Reader, T: TakesTurn> Reader for Settled<'a, S, T> {
    ghost use Rattle.plank_pic.specs.Blocks.{change_of};
    ghost use Rattle.plank_pic.specs.TestedSteps.{settled};

    ghost frame = { λ m. S.frame m.before.now };

    ghost picture = { λ m full. settled (S.frame m.before.now) (S.picture m.before.now full) (change_of (T.turn m.turn.now)) };

    ghost known = { λ m. S.known m.before.now };

    type Log = S::Log;

    fn header(&self) -> &Header {
        self.before.header()
    }

    fn names(&self) -> u8 {
        self.before.names()
    }

    fn pointers(&self) -> u8 {
        self.before.pointers()
    }

    fn root(&self) -> Option<u8> {
        self.before.root()
    }

    fn says(&self, part: Part, log: &mut S::Log) -> Result<bool, usize> {
        match left(self.before, self.turn, part, log)? {
            Some(value) => Ok(value),
            None => Ok(false),
        }
    }
}

// The visit bit of a name after the step, or none where it is free.
fn visit_stepped<S: Reader, T: TakesTurn>(
    before: &S,
    turn: &T,
    kept: bool,
    key: KeyName,
    name: u8,
    log: &mut S::Log,
) -> Result<Option<bool>, usize>
    requires { (S.frame before.now).names ≤ 16 }
    ensures { Settles (λ full. left_of_name (λ n. left_of (S.frame before.now) (S.picture before.now full) (change_of (T.turn turn.now)) (Part.Visits key n)) (sources (T.turn turn.now) kept name)) (S.known before.now) result }
{
    match origin(turn, kept, name) {
        Origin::Name(name) => left(before, turn, Part::Visits { key, name }, log),
        Origin::Null => Ok(Some(false)),
        Origin::Fresh => Ok(Some(false)),
    }
}

// A part of two names after the step, by where these come from.
macro_rules! left_of_both {
    ($from:expr, $to:expr, $left:ident, $right:ident => $left_of:expr, fresh: $fresh:expr) => {
        match $from {
            Origin::Name($left) => match $to {
                Origin::Name($right) => $left_of,
                Origin::Null => Ok(Some(false)),
                Origin::Fresh => Ok(Some(false)),
            },
            Origin::Null => match $to {
                Origin::Name(_) => Ok(Some(false)),
                Origin::Null => Ok(Some(false)),
                Origin::Fresh => Ok(Some(false)),
            },
            Origin::Fresh => match $to {
                Origin::Name(_) => Ok(Some(false)),
                Origin::Null => Ok(Some(false)),
                Origin::Fresh => Ok(Some($fresh)),
            },
        }
    };
}

// The chain bit of two names after the step, or none where it is free.
fn chain_stepped<S: Reader, T: TakesTurn>(
    before: &S,
    turn: &T,
    kept: bool,
    from: u8,
    to: u8,
    log: &mut S::Log,
) -> Result<Option<bool>, usize>
    requires { (S.frame before.now).names ≤ 16 }
    ensures { Settles (λ full. left_of_both (λ n m. left_of (S.frame before.now) (S.picture before.now full) (change_of (T.turn turn.now)) (Part.Chain n m)) (sources (T.turn turn.now) kept from) (sources (T.turn turn.now) kept to)) (S.known before.now) result }
{
    left_of_both!(origin(turn, kept, from), origin(turn, kept, to), from, to => left(before, turn, Part::Chain { from, to }, log), fresh: true)
}

// What is left of a pick where the chain's first pointer led outside, and none where it did not.
fn pick_of<S: Reader, T: TakesTurn>(
    before: &S,
    turn: &T,
    pick: (KeyName, u8, u8, u8),
    log: &mut S::Log,
) -> Result<Option<bool>, usize>
    requires { (S.frame before.now).names ≤ 16 }
    ensures { Settles (λ full. if settled (S.frame before.now) (S.picture before.now full) (change_of (T.turn turn.now)) (Part.Beyond (place pick.1 0)) then left_of (S.frame before.now) (S.picture before.now full) (change_of (T.turn turn.now)) (Part.Picks pick.0 pick.1 pick.2 pick.3) else None) (S.known before.now) result }
{
    let (key, from, to, slot) = pick;
    let at = Place {
        name: from,
        pointer: 0,
    };
    let between = Settled { before, turn };
    if between.says(Part::Beyond { at }, log)? {
        left(
            before,
            turn,
            Part::Picks {
                key,
                from,
                to,
                slot,
            },
            log,
        )
    } else {
        Ok(None)
    }
}

fn pick_stepped<S: Reader, T: TakesTurn>(
    before: &S,
    turn: &T,
    kept: bool,
    pick: (KeyName, u8, u8, u8),
    log: &mut S::Log,
) -> Result<Option<bool>, usize>
    requires { (S.frame before.now).names ≤ 16 }
    ensures { Settles (λ full. left_of_pick (settled (S.frame before.now) (S.picture before.now full) (change_of (T.turn turn.now))) (λ n m. left_of (S.frame before.now) (S.picture before.now full) (change_of (T.turn turn.now)) (Part.Picks pick.0 n m pick.3)) (sources (T.turn turn.now) kept pick.1) (sources (T.turn turn.now) kept pick.2)) (S.known before.now) result }
{
    let (key, from, to, slot) = pick;
    left_of_both!(origin(turn, kept, from), origin(turn, kept, to), from, to => pick_of(before, turn, (key, from, to, slot), log), fresh: false)
}

// A part that the write determines, after the step.
fn settled_stepped<S: Reader, T: TakesTurn>(
    before: &S,
    turn: &T,
    kept: bool,
    part: Part,
    log: &mut S::Log,
) -> Result<Option<bool>, usize>
    requires { (S.frame before.now).names ≤ 16 }
    ensures { Settles (λ full. Some (settled_as (S.frame before.now) (sources (T.turn turn.now) kept) (settled (S.frame before.now) (S.picture before.now full) (change_of (T.turn turn.now))) part)) (S.known before.now) result }
{
    let between = Settled { before, turn };
    Ok(Some(named_as(&between, turn, kept, part, log)?))
}

/// What a part is after a turn's whole step, or after its write alone where names are kept; none
/// where it is free. Whether the call is spent is said apart. With the rules of possible pictures
/// these are all tests of a step.
pub fn stepped<S: Reader, T: TakesTurn>(
    before: &S,
    turn: &T,
    kept: bool,
    part: Part,
    log: &mut S::Log,
) -> Result<Option<bool>, usize>
    requires { (S.frame before.now).names ≤ 16 }
    ensures { Settles (λ full. stepped (S.frame before.now) (change_of (T.turn turn.now)) (sources (T.turn turn.now) kept) (S.picture before.now full) part) (S.known before.now) result }
{
    match part {
        Part::Visits { key, name } => visit_stepped(before, turn, kept, key, name, log),
        Part::InSet { .. } | Part::StopFlag { .. } | Part::StopVisited { .. } => {
            left(before, turn, part, log)
        }
        Part::Spent => Ok(None),
        Part::Chain { from, to } => chain_stepped(before, turn, kept, from, to, log),
        Part::Picks {
            key,
            from,
            to,
            slot,
        } => pick_stepped(before, turn, kept, (key, from, to, slot), log),
        Part::Null { .. }
        | Part::Same { .. }
        | Part::Flag { .. }
        | Part::Shared { .. }
        | Part::Mine { .. }
        | Part::Locked { .. }
        | Part::LockMine { .. }
        | Part::LockOthers { .. }
        | Part::PointerNull { .. }
        | Part::Beyond { .. }
        | Part::Leads { .. }
        | Part::SameBeyond { .. }
        | Part::AtMost { .. } => settled_stepped(before, turn, kept, part, log),
    }
}
