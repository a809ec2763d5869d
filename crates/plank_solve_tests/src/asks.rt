//! Questions to the search.
ghost use Rattle.std.specs.Prelude.{◌≤◌};
ghost use Rattle.plank_query.specs.Situations.{names};

use plank_prog::Program;
use plank_query::{Claim, Goal, Oracle, Question, Situation};
use plank_solve::Solver;
use std::alloc::Global;

/// Which goals the search reaches in pictures of a situation of which the claims are right.
pub fn ask<'q>(
    alloc: Global,
    program: &'q Program,
    situation: Situation<'q>,
    before: &'q [Claim],
    after: &'q [Claim],
    goals: &'q [Goal],
) -> Option<Vec<bool>>
    requires { names situation ≤ 16 }
{
    let question = Question {
        header: &program.header,
        situation,
        before,
        after,
        goals,
    };
    Solver.reached(alloc, &question).ok()
}
