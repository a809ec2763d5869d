ghost use Rattle.std.specs.Prelude.{◌≡◌, ℕ, ◌*◌, ◌<◌, ◌≤◌, ◌==◌, ◌&&◌, ◌||◌, nat_lt, true, length, IfOk};
ghost use Rattle.plank_base.specs.declared.limits.TheConstants.{MARK_WORDS_PER_LOCATION};
ghost use Rattle.plank_bits.specs.Words.{has};
ghost use Rattle.plank_prog.specs.Headers.{is_lawful_header};
ghost use Rattle.plank_query.specs.Situations.{names};
ghost use Rattle.plank_past.specs.Answered.{is_on, AreReached};

use plank_base::OutOfMemory;
use plank_fact::FactSet;
use plank_query::{Oracle, Question};
use std::alloc::Global;

// The set, with a number added if it is to be.
fn with_if(set: &FactSet, number: u32, added: bool) -> FactSet
    requires { number < 64 * MARK_WORDS_PER_LOCATION }
    ensures { (k : ℕ) → has result k ≡ (has set.now k || (added && (k == number))) }
{
    if added { set.with(number) } else { *set }
}

/// The numbers of the answers that are yes.
pub fn set_of(answers: &[bool]) -> FactSet
    requires { length answers.now ≤ 64 * MARK_WORDS_PER_LOCATION }
    ensures { (k : ℕ) → has result k ≡ is_on answers.now k }
{
    let mut set = FactSet::empty();
    for number in 0..answers.len() {
        set = with_if(&set, number as u32, answers[number]);
    }
    set
}

/// All numbers below a bound.
pub fn numbers_below(count: u32) -> FactSet
    requires { count ≤ 64 * MARK_WORDS_PER_LOCATION }
    ensures { (k : ℕ) → has result k ≡ nat_lt k count }
{
    let mut set = FactSet::empty();
    for number in 0..count {
        set = set.with(number);
    }
    set
}

/// The numbers of the goals that are reached.
pub fn reached<A: Oracle>(
    oracle: &A,
    alloc: Global,
    question: &Question<'_>,
) -> Result<FactSet, OutOfMemory>
    requires header { is_lawful_header question.now.header.now ≡ true }
    requires names { names question.now.situation ≤ 16 }
    requires few { length question.now.goals.now ≤ 64 * MARK_WORDS_PER_LOCATION }
    ensures { IfOk result (λ found. AreReached question.now (has found)) }
{
    let answers = oracle.reached(alloc, question)?;
    Ok(set_of(answers.as_slice()))
}
