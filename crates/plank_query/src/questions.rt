ghost use Rattle.std.specs.Prelude.{◌≡◌, ◌≤◌, true, length, IfOk};
ghost use Rattle.plank_prog.specs.Headers.{is_lawful_header};
ghost use Rattle.plank_query.specs.Situations.{names};
ghost use Rattle.plank_query.specs.Questions.{AreAnswers};

use crate::goals::Goal;
use crate::predicates::Claim;
use crate::situations::Situation;
use plank_base::OutOfMemory;
use plank_prog::Header;
use std::alloc::Global;

/// A question: which goals are reached by pictures of a structure that are in the situation, and of which
/// the claims are right.
#[derive(Clone, Copy)]
pub struct Question<'a> {
    pub header: &'a Header,
    pub situation: Situation<'a>,
    /// What is claimed of the picture before the step, or of the one picture.
    pub before: &'a [Claim],
    /// What is claimed of the picture after it.
    pub after: &'a [Claim],
    pub goals: &'a [Goal],
}

/// Whoever answers questions about pictures.
pub trait Oracle {
    /// Of each goal, whether it is reached by some pictures that meet the question.
    fn reached(&self, alloc: Global, question: &Question<'_>) -> Result<Vec<bool>, OutOfMemory>
        requires header { is_lawful_header question.now.header.now ≡ true }
        requires names { names question.now.situation ≤ 16 }
        ensures count { IfOk result (λ answers. length answers.items ≡ length question.now.goals.now) }
        ensures exact { IfOk result (λ answers. AreAnswers question.now answers.items) };
}
