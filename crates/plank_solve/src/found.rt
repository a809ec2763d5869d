// Which goals are reached by what a search has found.
ghost use Rattle.std.specs.Prelude.{◌≡◌, ◌++◌, ◌||◌, ℕ, Bool, map, length, Some, IfOk};
ghost use Rattle.plank_search.specs.Assignments.{Agrees};
ghost use Rattle.plank_lawful.specs.Lists.{joined};
ghost use Rattle.plank_parts.specs.declared.sides.Side.{Side};
ghost use Rattle.plank_parts.specs.Numbers.{picture_of};
ghost use Rattle.plank_query.specs.Situations.{frame};
ghost use Rattle.plank_query.specs.Goals.{goal_holds};
ghost use Rattle.plank_solve.specs.Rulings.{IsWhole, was_reached, is_reached_under, reached_now, open_at, open_numbers};

use crate::views::Views;
use plank_base::OutOfMemory;
use plank_query::{Goal, Situation};
use plank_search::{Reads, Values};
use std::alloc::Global;

/// The values of a full assignment.
pub(crate) fn values_of(alloc: Global, found: &[bool]) -> Result<Values, OutOfMemory>
    ensures { IfOk result (λ values. values ≡ map Some found.now) }
{
    let mut given = Vec::with_capacity(alloc, found.len())?;
    for value in found {
        given.push(Some(*value))?;
    }
    Values::new(alloc, given.as_slice())
}

fn was_reached(reached: &[bool], number: usize) -> bool
    ensures { result ≡ was_reached reached.now number }
{
    match reached.get(number) {
        Some(was) => *was,
        None => false,
    }
}

impl<'n, 's, 'v> Views<'n, 's, 'v> {
    // Whether the pictures, of which all is decided, have what a goal looks for.
    fn has_goal(self, situation: &Situation<'_>, goal: Goal, reads: &mut Reads) -> bool
        requires framed { self.numbering.now.frame ≡ frame self.numbering.now.frame.header situation.now }
        requires whole { IsWhole self.values.now }
        ensures { (full : ℕ → Bool) → Agrees self.entry.values.now full →
            result ≡ goal_holds self.entry.numbering.now.frame.header situation.now (picture_of self.entry.numbering.now Side.Before full) (picture_of self.entry.numbering.now Side.After full) goal }
    {
        match self.is_goal(situation, goal, reads) {
            Ok(holds) => holds,
            Err(_) => false,
        }
    }

    // The same of the goal of a number, where there is one.
    fn has_goal_at(
        self,
        situation: &Situation<'_>,
        goals: &[Goal],
        number: usize,
        reads: &mut Reads,
    ) -> bool
        requires framed { self.numbering.now.frame ≡ frame self.numbering.now.frame.header situation.now }
        requires whole { IsWhole self.values.now }
        ensures { (full : ℕ → Bool) → Agrees self.entry.values.now full →
            result ≡ is_reached_under self.entry.numbering.now situation.now full goals.now number }
    {
        match goals.get(number) {
            Some(goal) => self.has_goal(situation, *goal, reads),
            None => false,
        }
    }

    // Whether the goal of a number was reached, or is by these pictures.
    fn is_reached_now(
        self,
        situation: &Situation<'_>,
        goals: &[Goal],
        reached: &[bool],
        number: usize,
        reads: &mut Reads,
    ) -> bool
        requires framed { self.numbering.now.frame ≡ frame self.numbering.now.frame.header situation.now }
        requires whole { IsWhole self.values.now }
        ensures { (full : ℕ → Bool) → Agrees self.entry.values.now full →
            result ≡ (was_reached reached.now number || is_reached_under self.entry.numbering.now situation.now full goals.now number) }
    {
        was_reached(reached, number) || self.has_goal_at(situation, goals, number, reads)
    }

    /// Which goals are reached: those that were, and those of which these pictures, of which all is
    /// decided, have what they look for.
    pub(crate) fn reached_now(
        self,
        alloc: Global,
        situation: &Situation<'_>,
        goals: &[Goal],
        reached: &[bool],
    ) -> Result<Vec<bool>, OutOfMemory>
        requires framed { self.numbering.now.frame ≡ frame self.numbering.now.frame.header situation.now }
        requires whole { IsWhole self.values.now }
        ensures { IfOk result (λ now. (full : ℕ → Bool) → Agrees self.entry.values.now full →
            now.items ≡ joined (reached_now self.entry.numbering.now situation.now full goals.now reached.now) (length reached.now)) }
    {
        let mut reads = Reads::new(alloc, 0)?;
        let mut now = Vec::with_capacity(alloc, reached.len())?;
        for number in 0..reached.len() {
            now.push(self.is_reached_now(situation, goals, reached, number, &mut reads))?;
        }
        Ok(now)
    }
}

// The number of the switch of a goal, if it is not reached.
fn push_open(
    first: usize,
    reached: &[bool],
    number: usize,
    left: &mut Vec<usize>,
) -> Result<(), OutOfMemory>
    ensures { IfOk result (λ _. left.new.items ≡ left.old.items ++ open_at first reached.now number) }
{
    match reached.get(number) {
        Some(false) => {
            left.push(first.checked_add(number).ok_or(OutOfMemory)?)?;
            Ok(())
        }
        Some(true) => Ok(()),
        None => Ok(()),
    }
}

/// The numbers of the switches of the goals that are not reached.
#[tactic(auto, using(plank_lawful::proofs::Joined::joined_none))]
pub(crate) fn open_numbers(
    alloc: Global,
    first: usize,
    reached: &[bool],
) -> Result<Vec<usize>, OutOfMemory>
    ensures { IfOk result (λ left. left.items ≡ open_numbers first reached.now) }
{
    let mut left = Vec::new(alloc);
    for number in 0..reached.len() {
        push_open(first, reached, number, &mut left)?;
    }
    Ok(left)
}
