// Which names name, after the steps of a location, what others named before.
ghost use Rattle.std.specs.Prelude.{◌≡◌, ◌*◌, ◌/◌, ◌%◌, ◌<◌, ◌≤◌, IfOk};
ghost use Rattle.plank_query.specs.Situations.{turn_of_own};
ghost use Rattle.plank_trans.specs.Carried.{move_goal, AreMoveGoals};

use plank_base::OutOfMemory;
use plank_query::{Goal, Moment, OwnTurn, Predicate};
use plank_step::source;
use std::alloc::Global;

// What is looked for of two names: a step in which the one does not name what the other did.
#[tactic(auto, using(crate::proofs::Origins::origin_so))]
fn move_goal(turn: &OwnTurn<'_>, from: u8, to: u8) -> Goal
    ensures { result ≡ move_goal (turn_of_own turn.now) from to }
{
    Goal::Fails {
        moment: Moment::Before,
        predicate: Predicate::NamedBefore {
            origin: source(turn, to),
            name: from,
        },
    }
}

// The same of all pairs of names.
pub(crate) fn move_goals(
    alloc: Global,
    turn: &OwnTurn<'_>,
    names: u32,
) -> Result<Vec<Goal>, OutOfMemory>
    requires some { 0 < names }
    requires few { names ≤ 16 }
    ensures { IfOk result (λ goals. AreMoveGoals (turn_of_own turn.now) names goals.items) }
{
    let mut goals = Vec::new(alloc);
    for pair in 0..names * names {
        let goal = move_goal(turn, (pair / names) as u8, (pair % names) as u8);
        match goals.push(goal) {
            Ok(_) => {}
            Err(_) => return Err(OutOfMemory),
        }
    }
    Ok(goals)
}
