// The obligations of writes: keep, order, footprint and change.
ghost use Rattle.std.specs.Prelude.{◌≡◌, ◌↔◌, ◌≤◌, IsTrue, IfOk};
ghost use Rattle.plank_pic.specs.declared.literals.Exit.{Exit};
ghost use Rattle.plank_fact.specs.Writes.{SomeWrite, KeepFails, OrderFails, FootprintFails, ChangeFails};
ghost use Rattle.plank_query.specs.Places.{IsOwnTurnAt};
ghost use Rattle.plank_query.specs.Situations.{names};
ghost use Rattle.plank_query.specs.declared.situations.Situation.{Situation};
ghost use Rattle.plank_goals.specs.Wrongs.{HoldsOne};
ghost use Rattle.plank_demand.specs.Places.{AtPoint};

use crate::here::Here;
use crate::reached::one_is_reached;
use crate::reads::written;
use plank_base::OutOfMemory;
use plank_goals::{keep_goals, order_goals};
use plank_prog::Program;
use plank_query::{Goal, Oracle, OwnTurn, Situation};
use std::alloc::Global;

// The turn's writes, where the binds set no variable.
fn write<'t>(turn: OwnTurn<'t>) -> Situation<'t>
    ensures is { result ≡ Situation.Write turn.entry }
    ensures few { names result ≤ 16 }
{
    Situation::Write(turn)
}

impl<'a, 'm, Q: Oracle> Here<'a, 'm, Q> {
    // Whether some write of the turn has what a goal looks for.
    fn write_reaches(
        &self,
        alloc: Global,
        turn: OwnTurn<'_>,
        goals: &[Goal],
    ) -> Result<bool, OutOfMemory>
        ensures { IfOk result (λ reached. AtPoint self.now.program.now self.now.marks.now self.now.at (λ O x.
            IsOwnTurnAt x Exit.Yes turn.entry → IsTrue reached ↔
            SomeWrite O x (λ c before after. HoldsOne O.header (Situation.Write turn.entry) before after goals.now))) }
    {
        if written(&turn).is_none() {
            return Ok(false);
        }
        let program: &Program = self.program;
        let claims = self.claims(alloc)?;
        one_is_reached(
            alloc,
            self.oracle,
            program,
            write(turn),
            claims.as_slice(),
            goals,
        )
    }

    /// Whether a write breaks a keep.
    pub(crate) fn keep_fails(&self, alloc: Global, turn: OwnTurn<'_>) -> Result<bool, OutOfMemory>
        ensures { IfOk result (λ fails. AtPoint self.now.program.now self.now.marks.now self.now.at (λ O x.
            IsOwnTurnAt x Exit.Yes turn.entry → IsTrue fails ↔ KeepFails O x)) }
    {
        let goals = keep_goals(alloc, self.program, turn.names())?;
        self.write_reaches(alloc, turn, goals.as_slice())
    }

    /// Whether a write leaves a pointer that leads against its order.
    pub(crate) fn order_fails(&self, alloc: Global, turn: OwnTurn<'_>) -> Result<bool, OutOfMemory>
        ensures { IfOk result (λ fails. AtPoint self.now.program.now self.now.marks.now self.now.at (λ O x.
            IsOwnTurnAt x Exit.Yes turn.entry → IsTrue fails ↔ OrderFails O x)) }
    {
        let goals = order_goals(alloc, self.program, turn.names())?;
        self.write_reaches(alloc, turn, goals.as_slice())
    }

    /// Whether a write takes the walk of some key elsewhere.
    pub(crate) fn footprint_fails(
        &self,
        alloc: Global,
        turn: OwnTurn<'_>,
    ) -> Result<bool, OutOfMemory>
        ensures { IfOk result (λ fails. AtPoint self.now.program.now self.now.marks.now self.now.at (λ O x.
            IsOwnTurnAt x Exit.Yes turn.entry → IsTrue fails ↔ FootprintFails O x)) }
    {
        let goals = [Goal::MovesApart];
        self.write_reaches(alloc, turn, &goals)
    }

    /// Whether a write changes the set as its method may not.
    pub(crate) fn change_fails(&self, alloc: Global, turn: OwnTurn<'_>) -> Result<bool, OutOfMemory>
        ensures { IfOk result (λ fails. AtPoint self.now.program.now self.now.marks.now self.now.at (λ O x.
            IsOwnTurnAt x Exit.Yes turn.entry → IsTrue fails ↔ ChangeFails O x)) }
    {
        let goals = [Goal::TurnsWrongly(self.kind())];
        self.write_reaches(alloc, turn, &goals)
    }
}
