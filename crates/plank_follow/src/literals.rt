// Lists of what facts say.
ghost use Rattle.std.specs.Prelude.{◌≡◌, ◌*◌, ◌++◌, map, IfOk, OnOk};
ghost use Rattle.plank_base.specs.declared.limits.TheConstants.{MARK_WORDS_PER_LOCATION};
ghost use Rattle.plank_bits.specs.Words.{has};
ghost use Rattle.plank_claim.specs.Claims.{listed, listed_below};
ghost use Rattle.plank_follow.specs.Literals.{now_of, past_of, literal_of, now_at, kept_lasting, lasting_at, literal_at};

use crate::kinds::MARKS;
use plank_base::OutOfMemory;
use plank_fact::{Fact, FactSet, fact};
use plank_past::is_lasting;
use plank_pic::Literal;
use plank_prog::Program;
use std::alloc::Global;

// What the fact says, where it says what is true now.
fn now_of(fact: Option<Fact>) -> Option<Literal>
    ensures { result ≡ now_of fact }
{
    match fact {
        Some(Fact::Now(literal)) => Some(literal),
        Some(Fact::Past(_)) => None,
        None => None,
    }
}

// What it says, where it says what was true at some moment.
pub(crate) fn past_of(fact: Option<Fact>) -> Option<Literal>
    ensures { result ≡ past_of fact }
{
    match fact {
        Some(Fact::Past(literal)) => Some(literal),
        Some(Fact::Now(_)) => None,
        None => None,
    }
}

// What is true now by the fact of a number, where it is in the set.
fn now_at(program: &Program, method: u32, set: &FactSet, number: u32) -> Option<Literal>
    ensures { result ≡ now_at program.now.header program.now.methods method (has set.now) number }
{
    if set.has(number) {
        now_of(fact(program, method, number))
    } else {
        None
    }
}

// The literal, where it never changes.
fn kept_lasting(literal: Option<Literal>) -> Option<Literal>
    ensures { result ≡ kept_lasting literal }
{
    match literal {
        Some(literal) => {
            if is_lasting(&literal) {
                Some(literal)
            } else {
                None
            }
        }
        None => None,
    }
}

fn push(literals: &mut Vec<Literal>, literal: Option<Literal>) -> Result<(), OutOfMemory>
    ensures { OnOk result (literals.new.items ≡ literals.old.items ++ listed literal) }
{
    match literal {
        Some(literal) => match literals.push(literal) {
            Ok(_) => Ok(()),
            Err(_) => Err(OutOfMemory),
        },
        None => Ok(()),
    }
}

/// What the facts of a set say that say what is true now.
pub(crate) fn presents(
    alloc: Global,
    program: &Program,
    method: u32,
    set: &FactSet,
) -> Result<Vec<Literal>, OutOfMemory>
    ensures { IfOk result (λ literals. literals.items ≡ listed_below
        (now_at program.now.header program.now.methods method (has set.now)) (64 * MARK_WORDS_PER_LOCATION)) }
{
    let mut literals = Vec::new(alloc);
    for number in 0..MARKS {
        push(&mut literals, now_at(program, method, set, number))?;
    }
    Ok(literals)
}

/// Those of them that never change.
pub(crate) fn lasting(
    alloc: Global,
    program: &Program,
    method: u32,
    set: &FactSet,
) -> Result<Vec<Literal>, OutOfMemory>
    ensures { IfOk result (λ literals. literals.items ≡ listed_below
        (lasting_at program.now.header program.now.methods method (has set.now)) (64 * MARK_WORDS_PER_LOCATION)) }
{
    let mut literals = Vec::new(alloc);
    for number in 0..MARKS {
        let present = now_at(program, method, set, number);
        push(&mut literals, kept_lasting(present))?;
    }
    Ok(literals)
}

fn literal_of(fact: Option<Fact>) -> Literal
    ensures { result ≡ literal_of fact }
{
    match fact {
        Some(Fact::Now(literal)) => literal,
        Some(Fact::Past(literal)) => literal,
        None => Literal::InSet,
    }
}

/// What the facts of these numbers say, now or of an earlier moment.
pub(crate) fn literals(
    alloc: Global,
    program: &Program,
    method: u32,
    numbers: &[u32],
) -> Result<Vec<Literal>, OutOfMemory>
    ensures { IfOk result (λ literals. literals.items ≡
        map (literal_at program.now.header program.now.methods method) numbers.now) }
{
    let mut literals = Vec::with_capacity(alloc, numbers.len())?;
    for number in numbers {
        literals.push(literal_of(fact(program, method, *number)))?;
    }
    Ok(literals)
}
