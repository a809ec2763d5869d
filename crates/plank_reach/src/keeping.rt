ghost use Rattle.std.specs.Prelude.{◌≡◌, is_none};
ghost use Rattle.plank_reach.specs.Steps.{change_in, names_in};
ghost use Rattle.plank_reach.specs.Kept.{leaves_flag, leaves_pointer, leaves_lock, stays, both_stay, term_stays, is_kept};

use crate::stepping::Stepping;
use plank_parts::Keeps;
use plank_pic::{Part, Term};
use plank_step::{Origin, origin, put_flag, put_lock, put_pointer, writes_of};

impl<'a> Stepping<'a> {
    #[tactic(auto, using(crate::proofs::Written::nothing_put))]
    fn writes_nothing(&self) -> bool
        ensures { result ≡ is_none (change_in self.now) }
    {
        writes_of(&self.turn).len() == 0
    }

    #[tactic(auto, using(crate::proofs::Written::flag_put))]
    fn leaves_flag(&self, flag: u8) -> bool
        ensures { result ≡ leaves_flag (change_in self.now) flag }
    {
        put_flag(writes_of(&self.turn), flag).is_none()
    }

    #[tactic(auto, using(crate::proofs::Written::pointer_put))]
    fn leaves_pointer(&self, pointer: u8) -> bool
        ensures { result ≡ leaves_pointer (change_in self.now) pointer }
    {
        put_pointer(&self.turn, writes_of(&self.turn), pointer).is_none()
    }

    #[tactic(auto, using(crate::proofs::Written::lock_put))]
    fn leaves_lock(&self) -> bool
        ensures { result ≡ leaves_lock (change_in self.now) }
    {
        put_lock(writes_of(&self.turn)).is_none()
    }

    // Whether a name comes from itself.
    fn stays(&self, name: u8) -> bool
        ensures { result ≡ stays (names_in self.now) name }
    {
        match origin(&self.turn, self.kept, name) {
            Origin::Name(from) => from == name,
            Origin::Null | Origin::Fresh => false,
        }
    }

    fn both_stay(&self, left: u8, right: u8) -> bool
        ensures { result ≡ both_stay (names_in self.now) left right }
    {
        self.stays(left) && self.stays(right)
    }

    fn term_stays(&self, term: Term) -> bool
        ensures { result ≡ term_stays (names_in self.now) term }
    {
        match term {
            Term::Node(name) => self.stays(name),
            Term::Min | Term::Max | Term::Walked(_) | Term::Stop { .. } => true,
        }
    }

    /// Whether a part is kept, as can be read off the turn.
    pub fn keeps(&self, part: Part) -> bool
        ensures { result ≡ is_kept (change_in self.now) (names_in self.now) part }
    {
        match part {
            Part::Null { name } => self.stays(name),
            Part::Same { left, right } => self.both_stay(left, right),
            Part::Flag { name, flag } => self.stays(name) && self.leaves_flag(flag),
            Part::Shared { name } | Part::Mine { name } | Part::Visits { name, .. } => {
                self.stays(name) && self.writes_nothing()
            }
            Part::Locked { name } | Part::LockMine { name } | Part::LockOthers { name } => {
                self.stays(name) && self.leaves_lock()
            }
            Part::PointerNull { at } => self.stays(at.name) && self.leaves_pointer(at.pointer),
            Part::Leads { at, to } => {
                self.both_stay(at.name, to) && self.leaves_pointer(at.pointer)
            }
            Part::AtMost { left, right } => self.term_stays(left) && self.term_stays(right),
            Part::InSet { .. } | Part::StopFlag { .. } | Part::StopVisited { .. } => {
                self.writes_nothing()
            }
            Part::Chain { from, to } => self.both_stay(from, to) && self.writes_nothing(),
            Part::Beyond { .. } | Part::SameBeyond { .. } | Part::Picks { .. } | Part::Spent => {
                false
            }
        }
    }
}

/// Which parts the step of a situation keeps: all, where there is none.
#[derive(Clone, Copy)]
pub struct Keeping<'a> {
    pub step: Option<Stepping<'a>>,
}

impl<'a> Keeps for Keeping<'a> {
    ghost use Rattle.plank_reach.specs.Kept.{is_kept_by};

    ghost keeps = { λ k. is_kept_by k.step };

    fn keeps(&self, part: Part) -> bool {
        match &self.step {
            Some(step) => step.keeps(part),
            None => true,
        }
    }
}
