ghost use Rattle.std.specs.Prelude.{◌≡◌, length, nat_lt};
ghost use Rattle.plank_pic.specs.Lawful.{lock_fits, place_fits, slot_count, term_fits, part_fits};

use crate::readers::Reader;
use plank_pic::{Part, Place, Term};

/// How many stop nodes a key may have.
pub fn slots<S: Reader>(source: &S) -> u8
    ensures { result ≡ slot_count (S.frame source.now) }
{
    if source.header().freeze.is_some() && source.pointers() == 1 {
        2
    } else {
        0
    }
}

fn flag_fits<S: Reader>(source: &S, flag: u8) -> bool
    ensures { result ≡ nat_lt flag (length (S.frame source.now).header.flags) }
{
    (flag as usize) < source.header().flags.len()
}

fn lock_fits<S: Reader>(source: &S, name: u8) -> bool
    ensures { result ≡ lock_fits (S.frame source.now) name }
{
    name < source.names() && source.header().has_lock
}

fn place_fits<S: Reader>(source: &S, at: Place) -> bool
    ensures { result ≡ place_fits (S.frame source.now) at }
{
    at.name < source.names() && at.pointer < source.pointers()
}

fn term_fits<S: Reader>(source: &S, term: Term) -> bool
    ensures { result ≡ term_fits (S.frame source.now) term }
{
    match term {
        Term::Node(name) => name < source.names(),
        Term::Min | Term::Max | Term::Walked(_) => true,
        Term::Stop { slot, .. } => slot < slots(source),
    }
}

/// Whether a part is one of the frame's.
pub fn part_fits<S: Reader>(source: &S, part: Part) -> bool
    ensures { result ≡ part_fits (S.frame source.now) part }
{
    match part {
        Part::Null { name }
        | Part::Shared { name }
        | Part::Mine { name }
        | Part::Visits { name, .. } => name < source.names(),
        Part::Locked { name } | Part::LockMine { name } | Part::LockOthers { name } => {
            lock_fits(source, name)
        }
        Part::Same { left, right } => left < source.names() && right < source.names(),
        Part::Chain { from, to } => from < source.names() && to < source.names(),
        Part::Flag { name, flag } => name < source.names() && flag_fits(source, flag),
        Part::PointerNull { at } | Part::Beyond { at } => place_fits(source, at),
        Part::Leads { at, to } => place_fits(source, at) && to < source.names(),
        Part::SameBeyond { left, right } => place_fits(source, left) && place_fits(source, right),
        Part::AtMost { left, right } => term_fits(source, left) && term_fits(source, right),
        Part::InSet { .. } | Part::Spent => true,
        Part::Picks { from, to, slot, .. } => {
            from < source.names() && to < source.names() && slot < slots(source)
        }
        Part::StopFlag { slot, flag, .. } => slot < slots(source) && flag_fits(source, flag),
        Part::StopVisited { slot, .. } => slot < slots(source),
    }
}
