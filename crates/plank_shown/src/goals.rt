// Questions that look for a picture in which a fact does not hold.
ghost use Rattle.std.specs.Prelude.{◌≡◌, map, IfOk};
ghost use Rattle.plank_shown.specs.Shown.{goal_of, goal_at};

use plank_base::OutOfMemory;
use plank_fact::{Fact, fact};
use plank_prog::Program;
use plank_query::{Goal, Moment, Predicate, Speaker};
use std::alloc::Global;

// The goal of a fact: a picture after the step does not show it.
fn goal_of(fact: Option<Fact>) -> Goal
    ensures { result ≡ goal_of fact }
{
    match fact {
        Some(Fact::Now(literal)) => Goal::Fails {
            moment: Moment::After,
            predicate: Predicate::IsTrue {
                of: Speaker::Own,
                literal,
            },
        },
        Some(Fact::Past(literal)) => Goal::Fails {
            moment: Moment::After,
            predicate: Predicate::IsWitnessed(literal),
        },
        None => Goal::Anything,
    }
}

// The goals of the facts of these numbers.
pub(crate) fn goals(
    alloc: Global,
    program: &Program,
    method: u32,
    numbers: &[u32],
) -> Result<Vec<Goal>, OutOfMemory>
    ensures { IfOk result (λ goals. goals.items ≡
        map (goal_at program.now.header program.now.methods method) numbers.now) }
{
    let mut goals = Vec::with_capacity(alloc, numbers.len())?;
    for number in numbers {
        goals.push(goal_of(fact(program, method, *number)))?;
    }
    Ok(goals)
}
