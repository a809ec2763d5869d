ghost use Rattle.std.specs.Prelude.{◌≤◌, length};

use plank_pic::{Part, Place, Term};
use plank_prog::Header;

/// What a picture speaks of: a structure, so many names, and which of them is the root's.
#[derive(Clone, Copy)]
pub struct Shape<'a> {
    pub header: &'a Header,
    /// The names are the numbers below it.
    pub names: u8,
    /// The name of the root, if it has one.
    pub root: Option<u8>,
    pub ghost few_names: { names ≤ 16 },
    pub ghost few_pointers: { length header.now.pointers ≤ 2 },
    pub ghost few_flags: { length header.now.flags ≤ 32 },
}

impl<'a> Shape<'a> {
    ghost use Rattle.std.specs.Prelude.{◌≡◌, length, nat_lt};
    ghost use Rattle.plank_pic.specs.Lawful.{lock_fits, place_fits, slot_count, term_fits, part_fits};
    ghost use Rattle.plank_parts.specs.Shapes.{frame_of};

    // How many stop nodes a key may have.
    #[inline(always)]
    fn slots(&self) -> u8
        ensures { result ≡ slot_count (frame_of self.now) }
    {
        if self.header.freeze.is_some() && self.header.pointers.len() == 1 {
            2
        } else {
            0
        }
    }

    #[inline(always)]
    fn flag_fits(&self, flag: u8) -> bool
        ensures { result ≡ nat_lt flag (length (frame_of self.now).header.flags) }
    {
        (flag as usize) < self.header.flags.len()
    }

    #[inline(always)]
    fn lock_fits(&self, name: u8) -> bool
        ensures { result ≡ lock_fits (frame_of self.now) name }
    {
        name < self.names && self.header.has_lock
    }

    #[inline(always)]
    fn place_fits(&self, at: Place) -> bool
        ensures { result ≡ place_fits (frame_of self.now) at }
    {
        at.name < self.names && (at.pointer as usize) < self.header.pointers.len()
    }

    #[inline(always)]
    fn term_fits(&self, term: Term) -> bool
        ensures { result ≡ term_fits (frame_of self.now) term }
    {
        match term {
            Term::Node(name) => name < self.names,
            Term::Min | Term::Max | Term::Walked(_) => true,
            Term::Stop { slot, .. } => slot < self.slots(),
        }
    }

    /// Whether a part is one of the frame's.
    #[inline(always)]
    pub fn fits(&self, part: Part) -> bool
        ensures { result ≡ part_fits (frame_of self.now) part }
    {
        match part {
            Part::Null { name }
            | Part::Shared { name }
            | Part::Mine { name }
            | Part::Visits { name, .. } => name < self.names,
            Part::Locked { name } | Part::LockMine { name } | Part::LockOthers { name } => {
                self.lock_fits(name)
            }
            Part::Same { left, right } => left < self.names && right < self.names,
            Part::Chain { from, to } => from < self.names && to < self.names,
            Part::Flag { name, flag } => name < self.names && self.flag_fits(flag),
            Part::PointerNull { at } | Part::Beyond { at } => self.place_fits(at),
            Part::Leads { at, to } => self.place_fits(at) && to < self.names,
            Part::SameBeyond { left, right } => self.place_fits(left) && self.place_fits(right),
            Part::AtMost { left, right } => self.term_fits(left) && self.term_fits(right),
            Part::InSet { .. } | Part::Spent => true,
            Part::Picks { from, to, slot, .. } => {
                from < self.names && to < self.names && slot < self.slots()
            }
            Part::StopFlag { slot, flag, .. } => slot < self.slots() && self.flag_fits(flag),
            Part::StopVisited { slot, .. } => slot < self.slots(),
        }
    }
}
