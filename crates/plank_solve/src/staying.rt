// Whether a visited node stays visited where the walks before and after a write meet again.
ghost use Rattle.std.specs.Bool.{beq};
ghost use Rattle.plank_pic.specs.declared.parts.Part.{Part};
ghost use Rattle.plank_pic.specs.Lawful.{◌⇒◌};
ghost use Rattle.plank_walk.specs.Settles.{Settles};
ghost use Rattle.plank_step.specs.Turns.{change_over};
ghost use Rattle.plank_stay.specs.Stays.{is_met, stays_at};
ghost use Rattle.plank_search.specs.Assignments.{value_at};
ghost use Rattle.plank_parts.specs.declared.sides.Side.{Side};
ghost use Rattle.plank_parts.specs.Numbers.{picture_of};
ghost use Rattle.plank_query.specs.Situations.{turn_of_actor};
ghost use Rattle.plank_solve.specs.Asks.{is_staying, stays_over};

use crate::views::Views;
use plank_parts::{Side, View};
use plank_pic::Part;
use plank_prog::Write;
use plank_query::Actor;
use plank_reach::Stepping;
use plank_search::Reads;
use plank_stay::{Way, is_met};
use plank_step::{Mixed, writes_of, written_name};
use plank_walk::Reader;

// The reader of the picture of a side.
macro_rules! view {
    ($views:expr, $side:expr) => {
        View {
            numbering: $views.numbering,
            values: $views.values,
            side: $side,
        }
    };
}

impl<'n, 's, 'v> Views<'n, 's, 'v> {
    // Whether a key visits a node as before.
    fn is_as_before(self, way: Way, reads: &mut Reads) -> Result<bool, usize>
        ensures { Settles (λ full. beq (picture_of self.entry.numbering.now Side.After full (Part.Visits way.key way.name)) (picture_of self.entry.numbering.now Side.Before full (Part.Visits way.key way.name))) (value_at self.entry.values.now) result }
    {
        let visits = Part::Visits {
            key: way.key,
            name: way.name,
        };
        let before = view!(self, Side::Before);
        Ok(view!(self, Side::After).says(visits, reads)? == before.says(visits, reads)?)
    }

    // Whether it visits it after the write, if the walks meet again.
    fn stays_met(
        self,
        turn: &Actor<'_>,
        writes: &[Write],
        at: u8,
        way: Way,
        reads: &mut Reads,
    ) -> Result<bool, usize>
        ensures { Settles (λ full. is_met self.entry.numbering.now.frame (picture_of self.entry.numbering.now Side.Before full) (change_over (turn_of_actor turn.now) writes.now) at way ⇒ picture_of self.entry.numbering.now Side.After full (Part.Visits way.key way.name)) (value_at self.entry.values.now) result }
    {
        let before = view!(self, Side::Before);
        let mixed = Mixed {
            before: &before,
            turn,
            writes,
        };
        let visits = Part::Visits {
            key: way.key,
            name: way.name,
        };
        Ok(!is_met(&mixed, at, way, reads)? || view!(self, Side::After).says(visits, reads)?)
    }

    // Whether a node stays visited, or as it was where the written node is not visited.
    fn stays_at(
        self,
        turn: &Actor<'_>,
        writes: &[Write],
        at: u8,
        way: Way,
        reads: &mut Reads,
    ) -> Result<bool, usize>
        ensures { Settles (λ full. stays_at self.entry.numbering.now.frame (picture_of self.entry.numbering.now Side.Before full) (picture_of self.entry.numbering.now Side.After full) (change_over (turn_of_actor turn.now) writes.now) at way) (value_at self.entry.values.now) result }
    {
        let visits = Part::Visits {
            key: way.key,
            name: at,
        };
        if view!(self, Side::Before).says(visits, reads)? {
            self.stays_met(turn, writes, at, way, reads)
        } else {
            self.is_as_before(way, reads)
        }
    }

    // The same of a turn's list of writes; nothing is asked where there is none.
    fn stays_over(
        self,
        turn: &Actor<'_>,
        writes: &[Write],
        way: Way,
        reads: &mut Reads,
    ) -> Result<bool, usize>
        ensures { Settles (λ full. stays_over self.entry.numbering.now.frame (turn_of_actor turn.now) writes.now (picture_of self.entry.numbering.now Side.Before full) (picture_of self.entry.numbering.now Side.After full) way) (value_at self.entry.values.now) result }
    {
        match writes {
            [] => Ok(true),
            [_, ..] => self.stays_at(turn, writes, written_name(turn, writes), way, reads),
        }
    }

    /// Whether a node stays visited in a step that keeps each name its node.
    pub(crate) fn is_staying(
        self,
        step: &Stepping<'_>,
        way: Way,
        reads: &mut Reads,
    ) -> Result<bool, usize>
        ensures { Settles (λ full. is_staying self.entry.numbering.now.frame step.now (picture_of self.entry.numbering.now Side.Before full) (picture_of self.entry.numbering.now Side.After full) way) (value_at self.entry.values.now) result }
    {
        if !step.kept {
            return Ok(true);
        }
        self.stays_over(&step.turn, writes_of(&step.turn), way, reads)
    }
}
