ghost use Rattle.std.specs.Prelude.{◌≡◌, not, length, if◌then◌else◌};
ghost use Rattle.plank_pic.specs.declared.parts.Part.{Part};
ghost use Rattle.plank_pic.specs.Below.{some_below};
ghost use Rattle.plank_pic.specs.Pictures.{is_fast};
ghost use Rattle.plank_pic.specs.Steps.{mixed, is_beyond_still, is_published};
ghost use Rattle.plank_walk.specs.Settles.{Settles};
ghost use Rattle.plank_step.specs.Turns.{change_over, written_name, puts, chain_left, pick_left, stop_flag_left};

use crate::turns::TakesTurn;
use crate::writes::{put_flag, put_lock, put_pointer, written_name};
use plank_pic::{KeyName, Part, Place};
use plank_prog::{Header, Write};
use plank_walk::{Reader, is_fast, is_picked};

/// The picture before with the fields that writes of a turn put, all into one node: a reader over a
/// reader. Walks, chains and stop nodes are those of before.
#[derive_where(Clone, Copy)]
pub struct Mixed<'a, S, T> {
    pub before: &'a S,
    pub turn: &'a T,
    pub writes: &'a [Write],
}

impl<'a, S: Reader, T: TakesTurn> Reader for Mixed<'a, S, T> {
    ghost use Rattle.plank_pic.specs.Steps.{mixed};
    ghost use Rattle.plank_step.specs.Turns.{change_over};

    ghost frame = { λ m. S.frame m.before.now };

    ghost picture = { λ m full. mixed (S.picture m.before.now full) (change_over (T.turn m.turn.now) m.writes.now) };

    ghost known = { λ m. S.known m.before.now };

    type Log = S::Log;

    fn header(&self) -> &Header {
        self.before.header()
    }

    fn names(&self) -> u8 {
        self.before.names()
    }

    fn pointers(&self) -> u8 {
        self.before.pointers()
    }

    fn root(&self) -> Option<u8> {
        self.before.root()
    }

    fn says(&self, part: Part, log: &mut S::Log) -> Result<bool, usize> {
        says_mixed(self.before, self.turn, self.writes, part, log)
    }
}

// Whether a name is of the written node.
fn is_written<S: Reader, T: TakesTurn>(
    before: &S,
    turn: &T,
    writes: &[Write],
    name: u8,
    log: &mut S::Log,
) -> Result<bool, usize>
    ensures { Settles (λ full. S.picture before.now full (Part.Same name (written_name (T.turn turn.now) writes.now))) (S.known before.now) result }
{
    let right = written_name(turn, writes);
    before.says(Part::Same { left: name, right }, log)
}

// A part of a node whose fields are written.
fn says_mixed<S: Reader, T: TakesTurn>(
    before: &S,
    turn: &T,
    writes: &[Write],
    part: Part,
    log: &mut S::Log,
) -> Result<bool, usize>
    ensures { Settles (λ full. mixed (S.picture before.now full) (change_over (T.turn turn.now) writes.now) part) (S.known before.now) result }
{
    match part {
        Part::Flag { name, flag } => says_flag(before, turn, writes, name, flag, log),
        Part::PointerNull { at } => says_null(before, turn, writes, at, log),
        Part::Leads { at, to } => says_leads(before, turn, writes, at, to, log),
        Part::Beyond { at } => {
            Ok(is_beyond_still(before, turn, writes, at, log)? && before.says(part, log)?)
        }
        Part::SameBeyond { left, right } => Ok(
            is_beyond_still(before, turn, writes, left, log)?
                && is_beyond_still(before, turn, writes, right, log)?
                && before.says(part, log)?,
        ),
        Part::Locked { name } => says_locked(before, turn, writes, name, log),
        Part::LockMine { name } => says_lock_mine(before, turn, writes, name, log),
        Part::LockOthers { name } => says_lock_others(before, turn, writes, name, log),
        _ => before.says(part, log),
    }
}

// A part of the written node that has this value now, and is as before at other nodes.
fn says_written<S: Reader, T: TakesTurn>(
    before: &S,
    turn: &T,
    writes: &[Write],
    name: u8,
    put: (bool, Part),
    log: &mut S::Log,
) -> Result<bool, usize>
    ensures { Settles (λ full. if S.picture before.now full (Part.Same name (written_name (T.turn turn.now) writes.now)) then put.0 else S.picture before.now full put.1) (S.known before.now) result }
{
    let (value, part) = put;
    if is_written(before, turn, writes, name, log)? {
        return Ok(value);
    }
    before.says(part, log)
}

// A part of the written node that is now as another part was, and is as before at other nodes.
fn says_as<S: Reader, T: TakesTurn>(
    before: &S,
    turn: &T,
    writes: &[Write],
    name: u8,
    parts: (Part, Part),
    log: &mut S::Log,
) -> Result<bool, usize>
    ensures { Settles (λ full. if S.picture before.now full (Part.Same name (written_name (T.turn turn.now) writes.now)) then S.picture before.now full parts.0 else S.picture before.now full parts.1) (S.known before.now) result }
{
    let (now, part) = parts;
    if is_written(before, turn, writes, name, log)? {
        return before.says(now, log);
    }
    before.says(part, log)
}

#[tactic(auto, using(crate::proofs::Choices::same_choice))]
fn says_flag<S: Reader, T: TakesTurn>(
    before: &S,
    turn: &T,
    writes: &[Write],
    name: u8,
    flag: u8,
    log: &mut S::Log,
) -> Result<bool, usize>
    ensures { Settles (λ full. mixed (S.picture before.now full) (change_over (T.turn turn.now) writes.now) (Part.Flag name flag)) (S.known before.now) result }
{
    let part = Part::Flag { name, flag };
    match put_flag(writes, flag) {
        Some(value) => says_written(before, turn, writes, name, (value, part), log),
        None => before.says(part, log),
    }
}

#[tactic(auto, using(crate::proofs::Choices::same_choice))]
fn says_null<S: Reader, T: TakesTurn>(
    before: &S,
    turn: &T,
    writes: &[Write],
    at: Place,
    log: &mut S::Log,
) -> Result<bool, usize>
    ensures { Settles (λ full. mixed (S.picture before.now full) (change_over (T.turn turn.now) writes.now) (Part.PointerNull at)) (S.known before.now) result }
{
    let part = Part::PointerNull { at };
    match put_pointer(turn, writes, at.pointer) {
        Some(None) => says_written(before, turn, writes, at.name, (true, part), log),
        Some(Some(name)) => says_as(
            before,
            turn,
            writes,
            at.name,
            (Part::Null { name }, part),
            log,
        ),
        None => before.says(part, log),
    }
}

#[tactic(auto, using(crate::proofs::Choices::same_choice))]
fn says_leads<S: Reader, T: TakesTurn>(
    before: &S,
    turn: &T,
    writes: &[Write],
    at: Place,
    to: u8,
    log: &mut S::Log,
) -> Result<bool, usize>
    ensures { Settles (λ full. mixed (S.picture before.now full) (change_over (T.turn turn.now) writes.now) (Part.Leads at to)) (S.known before.now) result }
{
    let part = Part::Leads { at, to };
    match put_pointer(turn, writes, at.pointer) {
        Some(None) => says_written(before, turn, writes, at.name, (false, part), log),
        Some(Some(left)) => {
            let same = Part::Same { left, right: to };
            says_as(before, turn, writes, at.name, (same, part), log)
        }
        None => before.says(part, log),
    }
}

// Whether a pointer is not written, so that it may lead outside still.
#[tactic(auto, using(crate::proofs::Choices::same_choice))]
fn is_beyond_still<S: Reader, T: TakesTurn>(
    before: &S,
    turn: &T,
    writes: &[Write],
    at: Place,
    log: &mut S::Log,
) -> Result<bool, usize>
    ensures { Settles (λ full. is_beyond_still (S.picture before.now full) (change_over (T.turn turn.now) writes.now) at) (S.known before.now) result }
{
    match put_pointer(turn, writes, at.pointer) {
        Some(_) => {
            if is_written(before, turn, writes, at.name, log)? {
                Ok(false)
            } else {
                Ok(true)
            }
        }
        None => Ok(true),
    }
}

#[tactic(auto, using(crate::proofs::Choices::same_choice))]
fn says_locked<S: Reader, T: TakesTurn>(
    before: &S,
    turn: &T,
    writes: &[Write],
    name: u8,
    log: &mut S::Log,
) -> Result<bool, usize>
    ensures { Settles (λ full. mixed (S.picture before.now full) (change_over (T.turn turn.now) writes.now) (Part.Locked name)) (S.known before.now) result }
{
    let part = Part::Locked { name };
    match put_lock(writes) {
        Some(taken) => says_written(before, turn, writes, name, (taken, part), log),
        None => before.says(part, log),
    }
}

#[tactic(auto, using(crate::proofs::Choices::same_choice))]
fn says_lock_mine<S: Reader, T: TakesTurn>(
    before: &S,
    turn: &T,
    writes: &[Write],
    name: u8,
    log: &mut S::Log,
) -> Result<bool, usize>
    ensures { Settles (λ full. mixed (S.picture before.now full) (change_over (T.turn turn.now) writes.now) (Part.LockMine name)) (S.known before.now) result }
{
    let part = Part::LockMine { name };
    match put_lock(writes) {
        Some(taken) => {
            let mine = taken && turn.is_mine();
            says_written(before, turn, writes, name, (mine, part), log)
        }
        None => before.says(part, log),
    }
}

#[tactic(auto, using(crate::proofs::Choices::same_choice))]
fn says_lock_others<S: Reader, T: TakesTurn>(
    before: &S,
    turn: &T,
    writes: &[Write],
    name: u8,
    log: &mut S::Log,
) -> Result<bool, usize>
    ensures { Settles (λ full. mixed (S.picture before.now full) (change_over (T.turn turn.now) writes.now) (Part.LockOthers name)) (S.known before.now) result }
{
    let part = Part::LockOthers { name };
    match put_lock(writes) {
        Some(taken) => {
            let others = taken && !turn.is_mine();
            says_written(before, turn, writes, name, (others, part), log)
        }
        None => before.says(part, log),
    }
}

// Whether a write of a pointer field puts a name's node there.
fn puts<S: Reader, T: TakesTurn>(
    before: &S,
    turn: &T,
    writes: &[Write],
    pointer: u8,
    name: u8,
    log: &mut S::Log,
) -> Result<bool, usize>
    ensures { Settles (λ full. puts (S.picture before.now full) (change_over (T.turn turn.now) writes.now) name pointer) (S.known before.now) result }
{
    match put_pointer(turn, writes, pointer) {
        Some(Some(left)) => before.says(Part::Same { left, right: name }, log),
        Some(None) => Ok(false),
        None => Ok(false),
    }
}

#[tactic(auto, using(plank_pic::proofs::Below::none_below, plank_pic::proofs::Below::some_more))]
fn is_put<S: Reader, T: TakesTurn>(
    before: &S,
    turn: &T,
    writes: &[Write],
    name: u8,
    log: &mut S::Log,
) -> Result<bool, usize>
    ensures { Settles (λ full. some_below (puts (S.picture before.now full) (change_over (T.turn turn.now) writes.now) name) (length (S.frame before.now).header.pointers)) (S.known before.now) result }
{
    for pointer in 0..before.pointers() {
        if puts(before, turn, writes, pointer, name, log)? {
            return Ok(true);
        }
    }
    Ok(false)
}

/// Whether writes put a name's node into a pointer of another node, so that it is shared from now
/// on.
pub fn is_published<S: Reader, T: TakesTurn>(
    before: &S,
    turn: &T,
    writes: &[Write],
    name: u8,
    log: &mut S::Log,
) -> Result<bool, usize>
    ensures { Settles (λ full. is_published (S.frame before.now) (S.picture before.now full) (change_over (T.turn turn.now) writes.now) name) (S.known before.now) result }
{
    Ok(!is_written(before, turn, writes, name, log)? && is_put(before, turn, writes, name, log)?)
}

// Whether chains and their stop nodes stay at a write of a name: its node is not both shared and
// frozen.
fn chains_stay<S: Reader>(before: &S, at: u8, log: &mut S::Log) -> Result<bool, usize>
    ensures { Settles (λ full. not (is_fast (S.frame before.now).header (S.picture before.now full) at)) (S.known before.now) result }
{
    Ok(!is_fast(before, at, log)?)
}

/// The chain bit of two names after writes of the name `at`; none where it is free.
pub fn chain_left<S: Reader>(
    before: &S,
    at: u8,
    from: u8,
    to: u8,
    log: &mut S::Log,
) -> Result<Option<bool>, usize>
    ensures { Settles (λ full. chain_left (S.frame before.now) (S.picture before.now full) at from to) (S.known before.now) result }
{
    let same = Part::Same {
        left: from,
        right: to,
    };
    if before.says(same, log)? {
        return Ok(Some(true));
    }
    if before.says(Part::Chain { from, to }, log)? && chains_stay(before, at, log)? {
        return Ok(Some(true));
    }
    Ok(None)
}

/// Whether a chain has a stop node after writes of the name `at`; none where that is free.
pub fn pick_left<S: Reader>(
    before: &S,
    at: u8,
    pick: (KeyName, u8, u8, u8),
    log: &mut S::Log,
) -> Result<Option<bool>, usize>
    ensures { Settles (λ full. pick_left (S.frame before.now) (S.picture before.now full) at pick.0 pick.1 pick.2 pick.3) (S.known before.now) result }
{
    let (key, from, to, slot) = pick;
    if before.says(Part::Chain { from, to }, log)? && chains_stay(before, at, log)? {
        return Ok(Some(before.says(
            Part::Picks {
                key,
                from,
                to,
                slot,
            },
            log,
        )?));
    }
    Ok(None)
}

/// A flag of a stop node after writes of the name `at`; none where it is free.
pub fn stop_flag_left<S: Reader>(
    before: &S,
    at: u8,
    key: KeyName,
    slot: u8,
    flag: u8,
    log: &mut S::Log,
) -> Result<Option<bool>, usize>
    ensures { Settles (λ full. stop_flag_left (S.frame before.now) (S.picture before.now full) at key slot flag) (S.known before.now) result }
{
    if is_picked(before, key, slot, log)? && chains_stay(before, at, log)? {
        return Ok(Some(before.says(Part::StopFlag { key, slot, flag }, log)?));
    }
    Ok(None)
}
