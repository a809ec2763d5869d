// The obligations of what a block reads and of the node that it writes: null and target.
ghost use Rattle.std.specs.Prelude.{◌≡◌, ◌↔◌, ◌≤◌, ◌++◌, ◌∷◌, [], false, length, IsTrue, IfOk, OnOk, option_map};
ghost use Rattle.plank_pic.specs.declared.literals.Exit.{Exit};
ghost use Rattle.plank_pic.specs.Blocks.{change_of};
ghost use Rattle.plank_fact.specs.Obligations.{NullFails, TargetFails};
ghost use Rattle.plank_query.specs.Places.{IsOwnTurnAt};
ghost use Rattle.plank_query.specs.Situations.{turn_of_own, names};
ghost use Rattle.plank_query.specs.declared.situations.Situation.{Situation};
ghost use Rattle.plank_demand.specs.Places.{AtPoint};
ghost use Rattle.plank_demand.specs.Asked.{not_null, not_own, not_shared};

use crate::here::Here;
use crate::reached::{both_are_reached, one_is_reached};
use plank_base::OutOfMemory;
use plank_pic::Part;
use plank_prog::Program;
use plank_query::{Claim, Goal, Moment, Oracle, OwnTurn, Predicate, Situation};
use plank_step::{writes_of, written_name};
use std::alloc::Global;

/// The name of the node that a turn writes, where it writes one.
pub(crate) fn written(turn: &OwnTurn<'_>) -> Option<u8>
    ensures { result ≡ option_map (λ c. c.at) (change_of (turn_of_own turn.now)) }
{
    let writes = writes_of(turn);
    if writes.len() == 0 {
        None
    } else {
        Some(written_name(turn, writes))
    }
}

// Own pictures of the turn.
fn own<'t>(turn: OwnTurn<'t>) -> Situation<'t>
    ensures is { result ≡ Situation.Own turn.entry }
    ensures few { names result ≤ 16 }
{
    Situation::Own(turn)
}

// Adds that the name is not null.
fn add_there(claims: &mut Vec<Claim>, name: u8) -> Result<(), OutOfMemory>
    ensures { OnOk result (claims.new.items ≡ claims.old.items ++ not_null name ∷ []) }
{
    let claim = Claim {
        predicate: Predicate::Says(Part::Null { name }),
        value: false,
    };
    match claims.push(claim) {
        Ok(_) => Ok(()),
        Err(_) => Err(OutOfMemory),
    }
}

fn not_own(name: u8) -> Goal
    ensures { result ≡ not_own name }
{
    Goal::Fails {
        moment: Moment::Before,
        predicate: Predicate::IsOwned(name),
    }
}

fn not_shared(name: u8) -> Goal
    ensures { result ≡ not_shared name }
{
    Goal::Fails {
        moment: Moment::Before,
        predicate: Predicate::Says(Part::Shared { name }),
    }
}

impl<'a, 'm, Q: Oracle> Here<'a, 'm, Q> {
    /// Whether the block comes to a read or a write of a field of null.
    pub(crate) fn null_fails(&self, alloc: Global, turn: OwnTurn<'_>) -> Result<bool, OutOfMemory>
        ensures { IfOk result (λ fails. AtPoint self.now.program.now self.now.marks.now self.now.at (λ O x.
            IsOwnTurnAt x Exit.Yes turn.entry → IsTrue fails ↔ NullFails O x)) }
    {
        let program: &Program = self.program;
        let claims = self.claims(alloc)?;
        let goals = [Goal::ComesToNull];
        one_is_reached(
            alloc,
            self.oracle,
            program,
            own(turn),
            claims.as_slice(),
            &goals,
        )
    }

    // Whether the node of the name is not known to be the thread's own, and not known to be shared.
    fn is_unknown(&self, alloc: Global, turn: OwnTurn<'_>, name: u8) -> Result<bool, OutOfMemory>
        ensures { IfOk result (λ fails. AtPoint self.now.program.now self.now.marks.now self.now.at (λ O x.
            IsOwnTurnAt x Exit.Yes turn.entry →
            option_map (λ c. c.at) (change_of (turn_of_own turn.entry)) ≡ Some name → IsTrue fails ↔ TargetFails O x)) }
    {
        let program: &Program = self.program;
        let mut claims = self.claims(alloc)?;
        add_there(&mut claims, name)?;
        let goals = [not_own(name), not_shared(name)];
        both_are_reached(
            alloc,
            self.oracle,
            program,
            own(turn),
            claims.as_slice(),
            &goals,
        )
    }

    /// Whether it is not known whose node the block writes.
    pub(crate) fn target_fails(&self, alloc: Global, turn: OwnTurn<'_>) -> Result<bool, OutOfMemory>
        ensures { IfOk result (λ fails. AtPoint self.now.program.now self.now.marks.now self.now.at (λ O x.
            IsOwnTurnAt x Exit.Yes turn.entry → IsTrue fails ↔ TargetFails O x)) }
    {
        match written(&turn) {
            Some(name) => self.is_unknown(alloc, turn, name),
            None => Ok(false),
        }
    }
}
