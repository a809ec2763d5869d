// The facts that a question asks for, and what its answers say of them.
ghost use Rattle.std.specs.Prelude.{◌≡◌, ℕ, ◌*◌, ◌==◌, ◌&&◌, ◌||◌, ◌≤◌, ◌++◌, nat_lt, map, length, IfOk, OnOk};
ghost use Rattle.plank_base.specs.declared.limits.TheConstants.{MARK_WORDS_PER_LOCATION};
ghost use Rattle.plank_bits.specs.Words.{has};
ghost use Rattle.plank_pic.specs.Below.{some_below};
ghost use Rattle.plank_claim.specs.Claims.{listed, listed_below};
ghost use Rattle.plank_rely.specs.Candidates.{is_now, is_candidate, candidate, goal_of, goal_at, is_reached};

use plank_base::{MARK_WORDS_PER_LOCATION, OutOfMemory};
use plank_fact::{Fact, FactSet, fact};
use plank_prog::Program;
use plank_query::{Goal, Moment, Predicate, Speaker};
use std::alloc::Global;

// How many facts a table has room for.
const MARKS: u32 = 64 * MARK_WORDS_PER_LOCATION;

fn is_now(fact: Option<Fact>) -> bool
    ensures { result ≡ is_now fact }
{
    match fact {
        Some(Fact::Now(_)) => true,
        Some(Fact::Past(_)) => false,
        None => false,
    }
}

// The number, where its fact is wanted and says what is true now.
fn candidate(program: &Program, method: u32, wanted: &FactSet, number: u32) -> Option<u32>
    ensures { result ≡ candidate program.now.header program.now.methods method (has wanted.now) number }
{
    if wanted.has(number) && is_now(fact(program, method, number)) {
        Some(number)
    } else {
        None
    }
}

fn push(numbers: &mut Vec<u32>, number: Option<u32>) -> Result<(), OutOfMemory>
    ensures { OnOk result (numbers.new.items ≡ numbers.old.items ++ listed number) }
{
    match number {
        Some(number) => match numbers.push(number) {
            Ok(_) => Ok(()),
            Err(_) => Err(OutOfMemory),
        },
        None => Ok(()),
    }
}

// The numbers of the wanted facts of a method that say what is true now.
pub(crate) fn candidates(
    alloc: Global,
    program: &Program,
    method: u32,
    wanted: &FactSet,
) -> Result<Vec<u32>, OutOfMemory>
    ensures { IfOk result (λ numbers. numbers.items ≡ listed_below
        (candidate program.now.header program.now.methods method (has wanted.now)) (64 * MARK_WORDS_PER_LOCATION)) }
{
    let mut numbers = Vec::new(alloc);
    for number in 0..MARKS {
        push(&mut numbers, candidate(program, method, wanted, number))?;
    }
    Ok(numbers)
}

// The goal of a fact.
fn goal_of(fact: Option<Fact>) -> Goal
    ensures { result ≡ goal_of fact }
{
    match fact {
        Some(Fact::Now(literal)) => Goal::Fails {
            moment: Moment::After,
            predicate: Predicate::IsTrue {
                of: Speaker::Own,
                literal,
            },
        },
        Some(Fact::Past(_)) => Goal::Anything,
        None => Goal::Anything,
    }
}

// The goals of the facts of these numbers.
pub(crate) fn goals(
    alloc: Global,
    program: &Program,
    method: u32,
    numbers: &[u32],
) -> Result<Vec<Goal>, OutOfMemory>
    ensures { IfOk result (λ goals. goals.items ≡
        map (goal_at program.now.header program.now.methods method) numbers.now) }
{
    let mut goals = Vec::with_capacity(alloc, numbers.len())?;
    for number in numbers {
        goals.push(goal_of(fact(program, method, *number)))?;
    }
    Ok(goals)
}

// The set, with a number that is in the table added if it is to be.
fn with_number(set: &FactSet, number: u32, added: bool) -> FactSet
    ensures { (k : ℕ) → has result k ≡
        (has set.now k || (added && nat_lt number (64 * MARK_WORDS_PER_LOCATION) && (k == number))) }
{
    if number >= MARKS {
        return *set;
    }
    if added { set.with(number) } else { *set }
}

// Those of the numbers whose goals are reached.
pub(crate) fn reached(numbers: &[u32], answers: &[bool]) -> FactSet
    requires { length answers.now ≡ length numbers.now }
    ensures { (k : ℕ) → has result k ≡ some_below (is_reached numbers.now answers.now k) (length numbers.now) }
{
    let mut set = FactSet::empty();
    for i in 0..numbers.len() {
        set = with_number(&set, numbers[i], answers[i]);
    }
    set
}
