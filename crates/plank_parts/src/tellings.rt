ghost use Rattle.std.specs.Prelude.{◌≡◌, ℕ, Bool, true, List, Option};
ghost use Rattle.plank_walk.specs.Settles.{Settles};
ghost use Rattle.plank_search.specs.Assignments.{value_at};
ghost use Rattle.plank_search.specs.Answers.{Tells};
ghost use Rattle.plank_parts.specs.Tellings.{look_answer};

use plank_search::Look;

/// What the search is told of an answer: that it holds or fails, or which part is needed.
#[tactic(auto, using(crate::proofs::Telling::tells))]
pub fn look_of(answer: Result<bool, usize>) -> Look
    ensures same { result ≡ look_answer answer }
    ensures told { (meaning : (ℕ → Bool) → Bool) (values : List (Option Bool)) → Settles meaning (value_at values) answer → Tells (λ full. meaning full ≡ true) values result }
{
    match answer {
        Ok(true) => Look::Holds,
        Ok(false) => Look::Fails,
        Err(part) => Look::Needs(part),
    }
}
