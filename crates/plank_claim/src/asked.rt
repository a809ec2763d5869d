ghost use Rattle.std.specs.Prelude.{◌≡◌, ◌≤◌, length, IfOk};
ghost use Rattle.plank_query.specs.Situations.{names};
ghost use Rattle.plank_claim.specs.Asked.{AreReached};

use plank_base::OutOfMemory;
use plank_prog::Program;
use plank_query::{Claim, Goal, Oracle, Question, Situation};
use std::alloc::Global;

/// Which of the goals are reached by pictures of the situation, where the claims are right of the picture
/// before the step, or of the one picture.
pub fn ask<'q, Q: Oracle>(
    alloc: Global,
    oracle: &Q,
    program: &'q Program,
    situation: Situation<'q>,
    claims: &'q [Claim],
    goals: &'q [Goal],
) -> Result<Vec<bool>, OutOfMemory>
    requires { names situation ≤ 16 }
    ensures count { IfOk result (λ answers. length answers.items ≡ length goals.now) }
    ensures exact { IfOk result (λ answers.
        AreReached program.now.header situation.entry claims.now goals.now answers.items) }
{
    let question = Question {
        header: &program.header,
        situation,
        before: claims,
        after: &[],
        goals,
    };
    let answers = oracle.reached(alloc, &question)?;
    Ok(answers)
}
