// What has been decided of the two pictures of a question, and whether what is asked of them is so.
ghost use Rattle.std.specs.Prelude.{◌≡◌, ◌≤◌, not, ◌&&◌, ◌||◌, false};
ghost use Rattle.std.specs.Bool.{beq};
ghost use Rattle.std.specs.Option.{option_map_or};
ghost use Rattle.plank_pic.specs.declared.parts.Part.{Part};
ghost use Rattle.plank_pic.specs.Lawful.{◌⇒◌, edge_is_ordered};
ghost use Rattle.plank_pic.specs.Steps.{spent_after};
ghost use Rattle.plank_walk.specs.Settles.{Settles};
ghost use Rattle.plank_step.specs.Turns.{change_over};
ghost use Rattle.plank_search.specs.Assignments.{value_at};
ghost use Rattle.plank_parts.specs.declared.sides.Side.{Side};
ghost use Rattle.plank_parts.specs.Numbers.{picture_of};
ghost use Rattle.plank_fact.specs.Writes.{becomes_shared};
ghost use Rattle.plank_query.specs.Situations.{frame, turn, turn_of_actor};
ghost use Rattle.plank_query.specs.Predicates.{holds};
ghost use Rattle.plank_query.specs.Goals.{goal_holds, picture_at, turn_comes_to_null, writes_so};
ghost use Rattle.plank_reach.specs.Steps.{change_in, writes_over, writes_rightly, is_left, written_so};
ghost use Rattle.plank_solve.specs.Asks.{ask_holds, step_ask_holds, goal_of};

use crate::asks::Ask;
use plank_lawful as lawful;
use plank_parts::{Numbering, Side, View};
use plank_pic::{KeyName, Part, Place};
use plank_prog::Write;
use plank_query::{Actor, Claim, Goal, Moment, Predicate, Situation};
use plank_reach::{
    Between, Stepping, enters_between, holds, is_apart, is_fit, moves, step_of, turn_comes_to_null,
    turns_wrongly,
};
use plank_search::{Reads, Values};
use plank_step::{TakesTurn, runs, stepped, writes_of, written_name};
use plank_walk::{Reader, edge_is_ordered};

/// What a search has decided so far of the pictures before and after a step.
#[derive(Clone, Copy)]
pub struct Views<'n, 's, 'v> {
    pub numbering: &'n Numbering<'s>,
    pub values: &'v Values,
    pub ghost few: { numbering.now.frame.names ≤ 16 },
}

// The reader of the picture of a side.
macro_rules! view {
    ($views:expr, $side:expr) => {
        View {
            numbering: $views.numbering,
            values: $views.values,
            side: $side,
        }
    };
}

impl<'n, 's, 'v> Views<'n, 's, 'v> {
    // Whether a claim is right of the picture of a side.
    fn is_right(
        self,
        situation: &Situation<'_>,
        side: Side,
        claim: Claim,
        reads: &mut Reads,
    ) -> Result<bool, usize>
        ensures { Settles (λ full. beq (holds self.entry.numbering.now.frame.header situation.now (picture_of self.entry.numbering.now side full) claim.predicate) claim.value) (value_at self.entry.values.now) result }
    {
        Ok(holds(&view!(self, side), situation, claim.predicate, reads)? == claim.value)
    }

    // ---- the step

    // Whether the call is spent after a write, of its own thread or of the other.
    fn spent_after(self, own: bool, reads: &mut Reads) -> Result<bool, usize>
        ensures { Settles (λ full. spent_after (picture_of self.entry.numbering.now Side.Before full) (picture_of self.entry.numbering.now Side.After full) own) (value_at self.entry.values.now) result }
    {
        let set = Part::InSet { key: KeyName::Own };
        let before = view!(self, Side::Before);
        if before.says(Part::Spent, reads)? {
            return Ok(true);
        }
        if !own {
            return Ok(false);
        }
        Ok(before.says(set, reads)? != view!(self, Side::After).says(set, reads)?)
    }

    fn is_spent_as_before(self, reads: &mut Reads) -> Result<bool, usize>
        ensures { Settles (λ full. beq (picture_of self.entry.numbering.now Side.After full Part.Spent) (picture_of self.entry.numbering.now Side.Before full Part.Spent)) (value_at self.entry.values.now) result }
    {
        let before = view!(self, Side::Before);
        Ok(view!(self, Side::After).says(Part::Spent, reads)? == before.says(Part::Spent, reads)?)
    }

    // Whether writes reach a node, and the call is spent as they say.
    fn writes_over(
        self,
        turn: &Actor<'_>,
        writes: &[Write],
        reads: &mut Reads,
    ) -> Result<bool, usize>
        ensures { Settles (λ full. writes_over (turn_of_actor turn.now) writes.now (picture_of self.entry.numbering.now Side.Before full) (picture_of self.entry.numbering.now Side.After full)) (value_at self.entry.values.now) result }
    {
        match writes {
            [] => self.is_spent_as_before(reads),
            [_, ..] => {
                let name = written_name(turn, writes);
                if view!(self, Side::Before).says(Part::Null { name }, reads)? {
                    return Ok(false);
                }
                let spent = view!(self, Side::After).says(Part::Spent, reads)?;
                Ok(spent == self.spent_after(turn.is_mine(), reads)?)
            }
        }
    }

    fn writes_rightly(self, step: &Stepping<'_>, reads: &mut Reads) -> Result<bool, usize>
        ensures { Settles (λ full. writes_rightly (change_in step.now) (picture_of self.entry.numbering.now Side.Before full) (picture_of self.entry.numbering.now Side.After full)) (value_at self.entry.values.now) result }
    {
        self.writes_over(&step.turn, writes_of(&step.turn), reads)
    }

    // Whether what the step leaves of a part is there after it.
    fn is_left(self, step: &Stepping<'_>, part: Part, reads: &mut Reads) -> Result<bool, usize>
        ensures { Settles (λ full. is_left self.entry.numbering.now.frame step.now (picture_of self.entry.numbering.now Side.Before full) (picture_of self.entry.numbering.now Side.After full) part) (value_at self.entry.values.now) result }
    {
        match stepped(
            &view!(self, Side::Before),
            &step.turn,
            step.kept,
            part,
            reads,
        )? {
            Some(value) => Ok(value == view!(self, Side::After).says(part, reads)?),
            None => Ok(true),
        }
    }

    // ---- goals

    // Whether a node becomes shared.
    fn becomes_shared(self, name: u8, reads: &mut Reads) -> Result<bool, usize>
        ensures { Settles (λ full. becomes_shared (picture_of self.entry.numbering.now Side.Before full) (picture_of self.entry.numbering.now Side.After full) name) (value_at self.entry.values.now) result }
    {
        let before = view!(self, Side::Before);
        Ok(
            !before.says(Part::Shared { name }, reads)?
                && view!(self, Side::After).says(Part::Shared { name }, reads)?,
        )
    }

    // Whether a node is that of a name, or becomes shared.
    fn is_touched(self, at: u8, name: u8, reads: &mut Reads) -> Result<bool, usize>
        ensures { Settles (λ full. picture_of self.entry.numbering.now Side.Before full (Part.Same name at) || becomes_shared (picture_of self.entry.numbering.now Side.Before full) (picture_of self.entry.numbering.now Side.After full) name) (value_at self.entry.values.now) result }
    {
        let same = Part::Same {
            left: name,
            right: at,
        };
        Ok(view!(self, Side::Before).says(same, reads)? || self.becomes_shared(name, reads)?)
    }

    // Whether a pointer of the written node, or of one that becomes shared, leads against its order.
    fn leads_against(self, written: u8, at: Place, to: u8, reads: &mut Reads) -> Result<bool, usize>
        ensures { Settles (λ full. (picture_of self.entry.numbering.now Side.Before full (Part.Same at.name written) || becomes_shared (picture_of self.entry.numbering.now Side.Before full) (picture_of self.entry.numbering.now Side.After full) at.name) && not (edge_is_ordered self.entry.numbering.now.frame (picture_of self.entry.numbering.now Side.After full) at to)) (value_at self.entry.values.now) result }
    {
        Ok(
            self.is_touched(written, at.name, reads)?
                && !edge_is_ordered(&view!(self, Side::After), at, to, reads)?,
        )
    }

    // Whether writes are as a goal on writes looks for.
    fn is_written_goal(
        self,
        turn: &Actor<'_>,
        writes: &[Write],
        goal: Goal,
        reads: &mut Reads,
    ) -> Result<bool, usize>
        ensures { Settles (λ full. goal_of self.entry.numbering.now.frame goal (picture_of self.entry.numbering.now Side.Before full) (picture_of self.entry.numbering.now Side.After full) (change_over (turn_of_actor turn.now) writes.now)) (value_at self.entry.values.now) result }
    {
        let before = view!(self, Side::Before);
        match goal {
            Goal::LeadsAgainst { name, pointer, to } => {
                let at = Place { name, pointer };
                self.leads_against(written_name(turn, writes), at, to, reads)
            }
            Goal::MovesApart => Ok(is_apart(moves(&before, turn, writes, reads)?)),
            Goal::TurnsWrongly(kind) => {
                let moved = moves(&before, turn, writes, reads)?;
                turns_wrongly(&before, kind, moved, reads)
            }
            Goal::EntersChain {
                from,
                to,
                above,
                below,
            } => {
                let chain = Between {
                    from,
                    to,
                    above,
                    below,
                };
                enters_between(&before, turn, writes, chain, reads)
            }
            Goal::Anything => Ok(false),
            Goal::Fails { .. } => Ok(false),
            Goal::ComesToNull => Ok(false),
        }
    }

    fn is_goal_over(
        self,
        turn: &Actor<'_>,
        writes: &[Write],
        goal: Goal,
        reads: &mut Reads,
    ) -> Result<bool, usize>
        ensures { Settles (λ full. written_so (turn_of_actor turn.now) writes.now (goal_of self.entry.numbering.now.frame goal (picture_of self.entry.numbering.now Side.Before full) (picture_of self.entry.numbering.now Side.After full))) (value_at self.entry.values.now) result }
    {
        match writes {
            [] => Ok(false),
            [_, ..] => self.is_written_goal(turn, writes, goal, reads),
        }
    }

    // Whether the situation writes as a goal on writes looks for.
    fn is_changed_so(
        self,
        situation: &Situation<'_>,
        goal: Goal,
        reads: &mut Reads,
    ) -> Result<bool, usize>
        ensures { Settles (λ full. writes_so situation.now (goal_of self.entry.numbering.now.frame goal (picture_of self.entry.numbering.now Side.Before full) (picture_of self.entry.numbering.now Side.After full))) (value_at self.entry.values.now) result }
    {
        match situation.actor() {
            Some(actor) => self.is_goal_over(&actor, writes_of(&actor), goal, reads),
            None => Ok(false),
        }
    }

    // Whether what is said of one of the pictures is false.
    fn fails(
        self,
        situation: &Situation<'_>,
        moment: Moment,
        predicate: Predicate,
        reads: &mut Reads,
    ) -> Result<bool, usize>
        ensures { Settles (λ full. not (holds self.entry.numbering.now.frame.header situation.now (picture_at moment (picture_of self.entry.numbering.now Side.Before full) (picture_of self.entry.numbering.now Side.After full)) predicate)) (value_at self.entry.values.now) result }
    {
        match moment {
            Moment::Before => {
                Ok(!holds(&view!(self, Side::Before), situation, predicate, reads)?)
            }
            Moment::After => Ok(!holds(&view!(self, Side::After), situation, predicate, reads)?),
        }
    }

    // Whether the turn's block comes to a read or a write of a field of null.
    fn comes_to_null(self, situation: &Situation<'_>, reads: &mut Reads) -> Result<bool, usize>
        ensures { Settles (λ full. option_map_or (λ s. turn_comes_to_null self.entry.numbering.now.frame s s.action (picture_of self.entry.numbering.now Side.Before full)) (turn situation.now) false) (value_at self.entry.values.now) result }
    {
        match situation.actor() {
            Some(actor) => turn_comes_to_null(&view!(self, Side::Before), &actor, reads),
            None => Ok(false),
        }
    }

    /// Whether the pictures have what a goal looks for.
    pub fn is_goal(
        self,
        situation: &Situation<'_>,
        goal: Goal,
        reads: &mut Reads,
    ) -> Result<bool, usize>
        requires { self.numbering.now.frame ≡ frame self.numbering.now.frame.header situation.now }
        ensures { Settles (λ full. goal_holds self.entry.numbering.now.frame.header situation.now (picture_of self.entry.numbering.now Side.Before full) (picture_of self.entry.numbering.now Side.After full) goal) (value_at self.entry.values.now) result }
    {
        match goal {
            Goal::Anything => Ok(true),
            Goal::Fails { moment, predicate } => self.fails(situation, moment, predicate, reads),
            Goal::ComesToNull => self.comes_to_null(situation, reads),
            Goal::LeadsAgainst { .. } => self.is_changed_so(situation, goal, reads),
            Goal::MovesApart => self.is_changed_so(situation, goal, reads),
            Goal::TurnsWrongly(_) => self.is_changed_so(situation, goal, reads),
            Goal::EntersChain { .. } => self.is_changed_so(situation, goal, reads),
        }
    }

    // ---- all that is asked

    // Whether the goal is reached, if its switch is on.
    fn reaches(
        self,
        situation: &Situation<'_>,
        number: usize,
        goal: Goal,
        reads: &mut Reads,
    ) -> Result<bool, usize>
        requires { self.numbering.now.frame ≡ frame self.numbering.now.frame.header situation.now }
        ensures { Settles (λ full. full number ⇒ goal_holds self.entry.numbering.now.frame.header situation.now (picture_of self.entry.numbering.now Side.Before full) (picture_of self.entry.numbering.now Side.After full) goal) (value_at self.entry.values.now) result }
    {
        match reads.read(self.values, number) {
            Some(true) => self.is_goal(situation, goal, reads),
            Some(false) => Ok(true),
            None => Err(number),
        }
    }

    // Whether what is asked of the step is so; nothing is asked where there is none.
    fn answer_step(
        self,
        situation: &Situation<'_>,
        ask: Ask,
        reads: &mut Reads,
    ) -> Result<bool, usize>
        ensures { Settles (λ full. step_ask_holds self.entry.numbering.now.frame situation.now (picture_of self.entry.numbering.now Side.Before full) (picture_of self.entry.numbering.now Side.After full) ask) (value_at self.entry.values.now) result }
    {
        let Some(step) = step_of(situation) else {
            return Ok(true);
        };
        match ask {
            Ask::Runs => runs(&view!(self, Side::Before), &step.turn, reads),
            Ask::Writes => self.writes_rightly(&step, reads),
            Ask::Left(part) => self.is_left(&step, part, reads),
            Ask::Stays(way) => self.is_staying(&step, way, reads),
            _ => Ok(true),
        }
    }

    /// Whether what is asked is so.
    pub fn answer(
        self,
        situation: &Situation<'_>,
        ask: Ask,
        reads: &mut Reads,
    ) -> Result<bool, usize>
        requires { self.numbering.now.frame ≡ frame self.numbering.now.frame.header situation.now }
        ensures { Settles (λ full. ask_holds self.entry.numbering.now.frame situation.now (picture_of self.entry.numbering.now Side.Before full) (picture_of self.entry.numbering.now Side.After full) full ask) (value_at self.entry.values.now) result }
    {
        match ask {
            Ask::Lawful(rule) => lawful::holds(&view!(self, Side::Before), rule, reads),
            Ask::Possible(rule) => lawful::holds(&view!(self, Side::After), rule, reads),
            Ask::Fits(name) => is_fit(&view!(self, Side::Before), situation, name, reads),
            Ask::Before(claim) => self.is_right(situation, Side::Before, claim, reads),
            Ask::After(claim) => self.is_right(situation, Side::After, claim, reads),
            Ask::Reaches { number, goal } => self.reaches(situation, number, goal, reads),
            Ask::Runs => self.answer_step(situation, ask, reads),
            Ask::Writes => self.answer_step(situation, ask, reads),
            Ask::Left(_) => self.answer_step(situation, ask, reads),
            Ask::Stays(_) => self.answer_step(situation, ask, reads),
        }
    }
}
