ghost use Rattle.std.specs.Prelude.{◌≡◌, ◌≤◌, length};
ghost use Rattle.plank_pic.specs.Outcomes.{outcome};
ghost use Rattle.plank_pic.specs.Steps.{mixed, movement};
ghost use Rattle.plank_pic.specs.Truths.{truth};
ghost use Rattle.plank_step.specs.Turns.{change_over, written_name};
ghost use Rattle.plank_whole.specs.Wholes.{frame_of, shown, chain_extends, stop_slot, leads_on, is_true_of};
ghost use Rattle.plank_walk.specs.Settles.{Settles};

use crate::wholes::Picture;
use plank_pic::{KeyName, Literal, Moved, Outcome, Part, Place};
use plank_prog::Write;
use plank_step::{Mixed, TakesTurn, footprint_of, moved_along, written_name};
use plank_truth::{Calls, truth};
use plank_walk::{Reader, is_fast, walk_from};

impl<'a> Picture<'a> {
    /// Whether a literal is true of a call.
    pub fn truth<C: Calls>(&self, caller: &C, literal: Literal) -> bool
        ensures { result ≡ truth (shown self.now) (C.caller caller.now) literal }
    {
        is_true(truth(self, caller, literal, &mut ()))
    }

    /// Where the walk of a key comes to from a named node.
    pub fn outcome(&self, name: u8, key: KeyName) -> Outcome
        ensures { result ≡ outcome (frame_of self.now) (shown self.now) key name }
    {
        match walk_from(self, key, name, &mut ()) {
            Ok(walk) => walk.end,
            Err(_) => Outcome::Cycles,
        }
    }

    /// How a key moves where a turn writes, all into one node.
    pub fn moved<T: TakesTurn>(&self, turn: &T, writes: &[Write], key: KeyName) -> Moved
        ensures { result ≡ movement (frame_of self.now) (shown self.now) (mixed (shown self.now) (change_over (T.turn turn.now) writes.now)) key (written_name (T.turn turn.now) writes.now) }
    {
        let mixed = Mixed {
            before: self,
            turn,
            writes,
        };
        let at = written_name(turn, writes);
        match footprint_of(self, &mixed, key, at, &mut ()) {
            Ok(footprint) => match moved_along(self, &mixed, key, at, &footprint, &mut ()) {
                Ok(moved) => moved,
                Err(_) => Moved::Apart,
            },
            Err(_) => Moved::Apart,
        }
    }

    /// Whether a chain to the one name is a chain to the next too.
    pub fn extends(&self, to: u8, next: u8) -> bool
        ensures { result ≡ chain_extends (frame_of self.now) (shown self.now) to next }
    {
        if self.pointers() != 1 {
            return false;
        }
        is_true(leads_on(self, to, next, &mut ()))
    }

    /// The slot of the stop node that a chain has for a key.
    pub fn stop(&self, key: KeyName, from: u8, to: u8) -> Option<u8>
        ensures { result ≡ stop_slot (shown self.now) key from to }
    {
        let (first, second) = (0, 1);
        if self.has(Part::Picks {
            key,
            from,
            to,
            slot: first,
        }) {
            return Some(first);
        }
        if self.has(Part::Picks {
            key,
            from,
            to,
            slot: second,
        }) {
            return Some(second);
        }
        None
    }
}

// Whether a shared frozen node leads to another.
fn leads_on<S: Reader>(source: &S, to: u8, next: u8, log: &mut S::Log) -> Result<bool, usize>
    ensures { Settles (λ full. leads_on (S.frame source.now) (S.picture source.now full) to next) (S.known source.now) result }
{
    let at = Place {
        name: to,
        pointer: 0,
    };
    Ok(is_fast(source, to, log)? && source.says(Part::Leads { at, to: next }, log)?)
}

/// The answer of a rule to a whole picture, which never needs anything.
pub(crate) fn is_true(answer: Result<bool, usize>) -> bool
    ensures { result ≡ is_true_of answer }
{
    match answer {
        Ok(value) => value,
        Err(_) => false,
    }
}
