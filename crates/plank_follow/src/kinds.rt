// Which facts of a table say what is true now, and which what was true.
ghost use Rattle.std.specs.Prelude.{◌≡◌, ℕ, ◌*◌, ◌<◌, ◌==◌, ◌&&◌, ◌||◌, true, slice_get, Some, IsTrue};
ghost use Rattle.plank_base.specs.declared.limits.TheConstants.{MARK_WORDS_PER_LOCATION};
ghost use Rattle.plank_bits.specs.Words.{has};
ghost use Rattle.plank_prog.specs.declared.methods.Method.{Method};
ghost use Rattle.plank_fact.specs.declared.facts.Fact.{Fact};
ghost use Rattle.plank_fact.specs.Tables.{IsNumbered};
ghost use Rattle.plank_pic.specs.declared.literals.Literal.{Literal};
ghost use Rattle.plank_follow.specs.Kinds.{is_of_kind, kind_below};

use plank_base::MARK_WORDS_PER_LOCATION;
use plank_fact::{Fact, FactSet, fact};
use plank_prog::Program;

// How many facts a table has room for.
pub(crate) const MARKS: u32 = 64 * MARK_WORDS_PER_LOCATION;

fn is_of_kind(past: bool, fact: Option<Fact>) -> bool
    ensures { result ≡ is_of_kind past fact }
{
    match fact {
        Some(Fact::Now(_)) => !past,
        Some(Fact::Past(_)) => past,
        None => false,
    }
}

/// The set, with a number added if it is to be.
pub fn with_if(set: &FactSet, number: u32, added: bool) -> FactSet
    requires { number < 64 * MARK_WORDS_PER_LOCATION }
    ensures { (k : ℕ) → has result k ≡ (has set.now k || (added && (k == number))) }
{
    if added { set.with(number) } else { *set }
}

/// The numbers of the facts of a method that say what was true at some moment; or, where `past` is false,
/// of those that say what is true now.
pub fn of_kind(program: &Program, method: u32, past: bool) -> FactSet
    ensures { (k : ℕ) → has result k ≡
        kind_below program.now.header program.now.methods method past (64 * MARK_WORDS_PER_LOCATION) k }
{
    let mut set = FactSet::empty();
    for number in 0..MARKS {
        let found = fact(program, method, number);
        if found.is_none() {
            return set;
        }
        set = with_if(&set, number, is_of_kind(past, found));
    }
    set
}

/// Whether one of the wanted facts of a method says what was true at some moment.
pub fn wants_past(program: &Program, method: u32, wanted: &FactSet) -> bool
    ensures { (m : Method) → slice_get program.now.methods method ≡ Some m → (n : ℕ) (L : Literal) →
        IsNumbered program.now.header m n (Fact.Past L) → has wanted.now n ≡ true → IsTrue result }
{
    let past = of_kind(program, method, true).meet(wanted);
    past.next_from(0).is_some()
}
