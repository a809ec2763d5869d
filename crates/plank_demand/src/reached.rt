// Questions of which one answer is wanted.
ghost use Rattle.std.specs.Prelude.{◌≡◌, ◌↔◌, ◌≤◌, true, length, slice_get, Some, Contains, IsTrue, IfOk};
ghost use Rattle.plank_query.specs.Situations.{names};
ghost use Rattle.plank_demand.specs.Asked.{IsOneReached, AreBothReached};

use plank_base::OutOfMemory;
use plank_claim::ask;
use plank_prog::Program;
use plank_query::{Claim, Goal, Oracle, Situation};
use std::alloc::Global;

fn one_is_true(answers: &[bool]) -> bool
    ensures { IsTrue result ↔ Contains answers.now true }
{
    answers.contains(&true)
}

fn both_are_true(answers: &[bool]) -> bool
    requires { length answers.now ≡ 2 }
    ensures { IsTrue result ↔ ((slice_get answers.now 0 ≡ Some true) × (slice_get answers.now 1 ≡ Some true)) }
{
    answers[0] && answers[1]
}

/// Whether one of the goals is reached by pictures of which the claims are right.
pub(crate) fn one_is_reached<'q, Q: Oracle>(
    alloc: Global,
    oracle: &Q,
    program: &'q Program,
    situation: Situation<'q>,
    claims: &'q [Claim],
    goals: &'q [Goal],
) -> Result<bool, OutOfMemory>
    requires { names situation ≤ 16 }
    ensures { IfOk result (λ reached. IsTrue reached ↔
        IsOneReached program.now.header situation.entry claims.now goals.now) }
{
    let answers = ask(alloc, oracle, program, situation, claims, goals)?;
    Ok(one_is_true(answers.as_slice()))
}

/// Whether each of two goals is.
pub(crate) fn both_are_reached<'q, Q: Oracle>(
    alloc: Global,
    oracle: &Q,
    program: &'q Program,
    situation: Situation<'q>,
    claims: &'q [Claim],
    goals: &'q [Goal; 2],
) -> Result<bool, OutOfMemory>
    requires { names situation ≤ 16 }
    ensures { IfOk result (λ reached. IsTrue reached ↔
        AreBothReached program.now.header situation.entry claims.now goals.now) }
{
    let answers = ask(alloc, oracle, program, situation, claims, goals)?;
    Ok(both_are_true(answers.as_slice()))
}
