// Sets of facts of a method, by their numbers.
ghost use Rattle.std.specs.Prelude.{◌≡◌, ℕ, ◌+◌, ◌*◌, ◌^◌, ◌<◌, ◌≤◌, ◌==◌, ◌&&◌, ◌||◌, not, true, length, is_some};
ghost use Rattle.plank_base.specs.declared.limits.TheConstants.{MARK_WORDS_PER_LOCATION};
ghost use Rattle.plank_bits.specs.Words.{has};
ghost use Rattle.plank_pic.specs.Below.{some_below};
ghost use Rattle.plank_fact.specs.Tables.{fact_at};
ghost use Rattle.plank_method.specs.Marks.{facts_below, is_claimed, unmarked_below, is_put};

use plank_base::MARK_WORDS_PER_LOCATION;
use plank_bits::MarkWords;
use plank_fact::{FactSet, fact};
use plank_prog::Program;

// How many marks a location has.
const MARKS: u32 = 64 * MARK_WORDS_PER_LOCATION;

// The set, with a number added if it is to be.
fn with_if(set: &FactSet, number: u32, added: bool) -> FactSet
    requires { number < 64 * MARK_WORDS_PER_LOCATION }
    ensures { (k : ℕ) → has result k ≡ (has set.now k || (added && (k == number))) }
{
    if added { set.with(number) } else { *set }
}

// The numbers of all facts of a method.
pub(crate) fn facts_of(program: &Program, method: u32) -> FactSet
    ensures { (k : ℕ) → has result k ≡
        facts_below program.now.header program.now.methods method (64 * MARK_WORDS_PER_LOCATION) k }
{
    let mut set = FactSet::empty();
    for number in 0..MARKS {
        let there = fact(program, method, number).is_some();
        set = with_if(&set, number, there);
    }
    set
}

// Whether a number is of one of some facts, whose mark is not set.
fn is_claimed(facts: &FactSet, first: u32, marks: &MarkWords, number: u32) -> bool
    requires few { first < 2 ^ 24 }
    requires there { number < 64 * MARK_WORDS_PER_LOCATION }
    requires room { first + 64 * MARK_WORDS_PER_LOCATION ≤ 64 * length marks.now }
    ensures { result ≡ is_claimed (has facts.now) (has marks.now) first number }
{
    facts.has(number) && !marks.has(first + number)
}

// Those of some facts whose marks, from the first on, are not set.
pub(crate) fn unmarked(facts: &FactSet, first: u32, marks: &MarkWords) -> FactSet
    requires few { first < 2 ^ 24 }
    requires room { first + 64 * MARK_WORDS_PER_LOCATION ≤ 64 * length marks.now }
    ensures { (k : ℕ) → has result k ≡
        unmarked_below (has facts.now) (has marks.now) first (64 * MARK_WORDS_PER_LOCATION) k }
{
    let mut set = FactSet::empty();
    for number in 0..MARKS {
        let claimed = is_claimed(facts, first, marks, number);
        set = with_if(&set, number, claimed);
    }
    set
}

// Sets a mark, if it is to be set.
fn set_if(marks: &mut MarkWords, mark: u32, is_set: bool)
    requires { mark < 64 * length marks.old }
    ensures length { length marks.new ≡ length marks.old }
    ensures marks { (k : ℕ) → has marks.new k ≡ (has marks.old k || (is_set && (k == mark))) }
{
    if is_set {
        marks.set(mark);
    }
}

// Sets the marks of some facts, from the first on.
pub(crate) fn put(marks: &mut MarkWords, first: u32, facts: &FactSet)
    requires few { first < 2 ^ 24 }
    requires room { first + 64 * MARK_WORDS_PER_LOCATION ≤ 64 * length marks.old }
    ensures length { length marks.new ≡ length marks.old }
    ensures marks { (k : ℕ) → has marks.new k ≡
        (has marks.old k || some_below (is_put (has facts.now) first k) (64 * MARK_WORDS_PER_LOCATION)) }
{
    for number in 0..MARKS {
        let is_set = facts.has(number);
        set_if(marks, first + number, is_set);
    }
}
