// Whether a turn's step leads from one whole picture to another.
ghost use Rattle.std.specs.Prelude.{◌≡◌, ◌↔◌, ◌<◌, true};
ghost use Rattle.std.specs.Bool.{beq};
ghost use Rattle.plank_pic.specs.declared.parts.Part.{Part};
ghost use Rattle.plank_pic.specs.Steps.{agrees_with, spent_after, IsPictureStep};
ghost use Rattle.plank_pic.specs.Blocks.{change_of, source, runs, IsTurnStep, IsWriteStep};
ghost use Rattle.plank_pic.specs.TestedSteps.{stepped, ComesFromNames};
ghost use Rattle.plank_step.specs.Sources.{sources};
ghost use Rattle.plank_lawful.specs.Asked.{all_below};
ghost use Rattle.plank_whole.specs.Wholes.{frame_of, shown};
ghost use Rattle.plank_whole.specs.Stepping.{coded_agrees, is_writable};

use crate::answers::is_true;
use crate::wholes::Picture;
use plank_parts::{CODES, part_of};
use plank_pic::{KeyName, Part};
use plank_step::{TakesTurn, runs, stepped, writes_of, written_name};

// Whether a part that is determined is so; one that is free may be either.
fn agrees_with(determined: Option<bool>, so: bool) -> bool
    ensures { result ≡ agrees_with determined so }
{
    match determined {
        Some(value) => so == value,
        None => true,
    }
}

impl<'a> Picture<'a> {
    // What a step determines of a part.
    fn stepped<T: TakesTurn>(&self, turn: &T, kept: bool, part: Part) -> Option<bool>
        ensures { result ≡ stepped (frame_of self.now) (change_of (T.turn turn.now)) (sources (T.turn turn.now) kept) (shown self.now) part }
    {
        match stepped(self, turn, kept, part, &mut ()) {
            Ok(determined) => determined,
            Err(_) => None,
        }
    }

    // Whether the part of a code, if the frame has it, is after a step what the step determines of it.
    fn agrees<T: TakesTurn>(&self, turn: &T, kept: bool, after: &Picture<'_>, code: usize) -> bool
        requires { code < 8704 }
        ensures { result ≡ coded_agrees (frame_of self.now) (change_of (T.turn turn.now)) (sources (T.turn turn.now) kept) (shown self.now) (shown after.now) code }
    {
        let part = part_of(code);
        !self.shape.fits(part) || agrees_with(self.stepped(turn, kept, part), after.has(part))
    }

    // Whether each part is.
    #[tactic(auto, using(plank_lawful::proofs::Asked::all_of_none, plank_lawful::proofs::Asked::all_more))]
    fn all_agree<T: TakesTurn>(&self, turn: &T, kept: bool, after: &Picture<'_>) -> bool
        ensures { result ≡ all_below (coded_agrees (frame_of self.now) (change_of (T.turn turn.now)) (sources (T.turn turn.now) kept) (shown self.now) (shown after.now)) 8704 }
    {
        for code in 0..CODES {
            if !self.agrees(turn, kept, after, code) {
                return false;
            }
        }
        true
    }

    // Whether the own call is spent after a write as it is to be.
    fn is_spent_right(&self, after: &Picture<'_>, own: bool) -> bool
        ensures { result ≡ beq (shown after.now Part.Spent) (spent_after (shown self.now) (shown after.now) own) }
    {
        let key = KeyName::Own;
        let turned = self.has(Part::InSet { key }) != after.has(Part::InSet { key });
        after.has(Part::Spent) == (self.has(Part::Spent) || (own && turned))
    }

    // Whether the written name is not null, and the call is spent as it is to be.
    fn is_writable<T: TakesTurn>(&self, turn: &T, after: &Picture<'_>) -> bool
        ensures { result ≡ is_writable (change_of (T.turn turn.now)) (shown self.now) (shown after.now) }
    {
        let writes = writes_of(turn);
        match writes {
            [] => after.has(Part::Spent) == self.has(Part::Spent),
            [_, ..] => {
                let name = written_name(turn, writes);
                !self.has(Part::Null { name }) && self.is_spent_right(after, turn.is_mine())
            }
        }
    }

    // Whether a turn's action takes its exit and reads no field of null.
    fn runs<T: TakesTurn>(&self, turn: &T) -> bool
        ensures { result ≡ runs (frame_of self.now) (T.turn turn.now) (shown self.now) }
    {
        is_true(runs(self, turn, &mut ()))
    }

    // Whether its step, with the binds or without them, leads to another picture.
    fn leads_to<T: TakesTurn>(&self, turn: &T, kept: bool, after: &Picture<'_>) -> bool
        ensures { frame_of after.now ≡ frame_of self.now → ComesFromNames (frame_of self.now) (sources (T.turn turn.now) kept) →
            (result ≡ true) ↔ IsPictureStep (frame_of self.now) (change_of (T.turn turn.now)) (sources (T.turn turn.now) kept) (shown self.now) (shown after.now) }
    {
        if !self.is_writable(turn, after) {
            return false;
        }
        if !self.all_agree(turn, kept, after) {
            return false;
        }
        after.possible()
    }

    /// Whether a turn's step leads to another picture of the same frame. It is to speak of names of the
    /// picture alone.
    pub fn step_to<T: TakesTurn>(&self, turn: &T, after: &Picture<'_>) -> bool
        ensures { frame_of after.now ≡ frame_of self.now → ComesFromNames (frame_of self.now) (source (T.turn turn.now)) →
            (result ≡ true) ↔ IsTurnStep (frame_of self.now) (T.turn turn.now) (shown self.now) (shown after.now) }
    {
        if !self.runs(turn) {
            return false;
        }
        self.leads_to(turn, false, after)
    }

    /// Whether a turn's step does, with the binds of its block left out.
    pub fn write_to<T: TakesTurn>(&self, turn: &T, after: &Picture<'_>) -> bool
        ensures { frame_of after.now ≡ frame_of self.now →
            (result ≡ true) ↔ IsWriteStep (frame_of self.now) (T.turn turn.now) (shown self.now) (shown after.now) }
    {
        if !self.runs(turn) {
            return false;
        }
        self.leads_to(turn, true, after)
    }
}
