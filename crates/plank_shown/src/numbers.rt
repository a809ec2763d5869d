// Sets of numbers of facts, as lists and back.
ghost use Rattle.std.specs.Prelude.{◌≡◌, ℕ, ◌*◌, ◌==◌, ◌&&◌, ◌||◌, ◌≤◌, ◌++◌, nat_lt, length, IfOk, OnOk};
ghost use Rattle.plank_base.specs.declared.limits.TheConstants.{MARK_WORDS_PER_LOCATION};
ghost use Rattle.plank_bits.specs.Words.{has};
ghost use Rattle.plank_pic.specs.Below.{some_below};
ghost use Rattle.plank_claim.specs.Claims.{listed, listed_below};
ghost use Rattle.plank_shown.specs.Numbers.{picked, is_at};

use plank_base::{MARK_WORDS_PER_LOCATION, OutOfMemory};
use plank_fact::FactSet;
use std::alloc::Global;

// How many facts a table has room for.
const MARKS: u32 = 64 * MARK_WORDS_PER_LOCATION;

// The number, where it is in the set.
fn picked(set: &FactSet, number: u32) -> Option<u32>
    ensures { result ≡ picked (has set.now) number }
{
    if set.has(number) { Some(number) } else { None }
}

fn push(numbers: &mut Vec<u32>, number: Option<u32>) -> Result<(), OutOfMemory>
    ensures { OnOk result (numbers.new.items ≡ numbers.old.items ++ listed number) }
{
    match number {
        Some(number) => match numbers.push(number) {
            Ok(_) => Ok(()),
            Err(_) => Err(OutOfMemory),
        },
        None => Ok(()),
    }
}

/// The numbers of a set, in their order.
pub fn listed(alloc: Global, set: &FactSet) -> Result<Vec<u32>, OutOfMemory>
    ensures numbers { IfOk result (λ numbers. numbers.items ≡
        listed_below (picked (has set.now)) (64 * MARK_WORDS_PER_LOCATION)) }
    ensures few { IfOk result (λ numbers. length numbers.items ≤ 64 * MARK_WORDS_PER_LOCATION) }
{
    let mut numbers = Vec::new(alloc);
    for number in 0..MARKS {
        push(&mut numbers, picked(set, number))?;
    }
    Ok(numbers)
}

// The set, with a number that a table has room for added if it is to be.
fn with_number(set: &FactSet, number: u32, added: bool) -> FactSet
    ensures { (k : ℕ) → has result k ≡
        (has set.now k || (added && nat_lt number (64 * MARK_WORDS_PER_LOCATION) && (k == number))) }
{
    if number >= MARKS {
        return *set;
    }
    if added { set.with(number) } else { *set }
}

/// The set, with those of the numbers added whose places in the list are in another set.
pub fn spread(set: &FactSet, numbers: &[u32], places: &FactSet) -> FactSet
    requires { length numbers.now ≤ 64 * MARK_WORDS_PER_LOCATION }
    ensures { (k : ℕ) → has result k ≡
        (has set.now k || some_below (is_at numbers.now (has places.now) k) (length numbers.now)) }
{
    let mut all = *set;
    for place in 0..numbers.len() {
        all = with_number(&all, numbers[place], places.has(place as u32));
    }
    all
}
