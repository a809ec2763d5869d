// All that the rule of hindsight may take, in one list, so that one question tells where nothing follows.
ghost use Rattle.std.specs.Prelude.{◌≡◌, ℕ, ◌*◌, ◌++◌, ◌∷◌, [], true, slice_get, Some, IfOk, OnOk};
ghost use Rattle.plank_base.specs.declared.limits.TheConstants.{MARK_WORDS_PER_LOCATION};
ghost use Rattle.plank_bits.specs.Words.{has};
ghost use Rattle.plank_prog.specs.declared.methods.Method.{Method};
ghost use Rattle.plank_pic.specs.declared.literals.Literal.{Literal};
ghost use Rattle.plank_fact.specs.declared.facts.Fact.{Fact};
ghost use Rattle.plank_fact.specs.Tables.{IsNumbered};
ghost use Rattle.plank_follow.specs.Together.{AreAmong, IsWitnessedIn, AreTogether};

use crate::kinds::MARKS;
use crate::literals::past_of;
use plank_base::OutOfMemory;
use plank_fact::{FactSet, fact};
use plank_past::past_name;
use plank_pic::Literal;
use plank_prog::Program;
use std::alloc::Global;

fn add(all: &mut Vec<Literal>, literal: Literal) -> Result<(), OutOfMemory>
    ensures { OnOk result (all.new.items ≡ all.old.items ++ literal ∷ []) }
{
    match all.push(literal) {
        Ok(_) => Ok(()),
        Err(_) => Err(OutOfMemory),
    }
}

fn add_all(all: &mut Vec<Literal>, literals: &[Literal]) -> Result<(), OutOfMemory>
    ensures { OnOk result (all.new.items ≡ all.old.items ++ literals.now) }
{
    match all.extend_from_slice(literals) {
        Ok(_) => Ok(()),
        Err(_) => Err(OutOfMemory),
    }
}

// Adds what a past fact says, and that its node is shared.
fn add_witness(all: &mut Vec<Literal>, past: Literal) -> Result<(), OutOfMemory>
    ensures grows { OnOk result (AreAmong all.old.items all.new.items) }
    ensures said { OnOk result (IsWitnessedIn all.new.items past) }
{
    add(all, past)?;
    match past_name(&past) {
        Some(name) => {
            add(all, Literal::Shared { name })?;
            Ok(())
        }
        None => Ok(()),
    }
}

// The same of the fact of a number, where it is known and past.
fn add_number(
    all: &mut Vec<Literal>,
    program: &Program,
    method: u32,
    known: &FactSet,
    number: u32,
) -> Result<(), OutOfMemory>
    ensures grows { OnOk result (AreAmong all.old.items all.new.items) }
    ensures said { OnOk result ((m : Method) → slice_get program.now.methods method ≡ Some m → (P : Literal) →
        IsNumbered program.now.header m number (Fact.Past P) → has known.now number ≡ true →
        IsWitnessedIn all.new.items P) }
{
    if !known.has(number) {
        return Ok(());
    }
    match past_of(fact(program, method, number)) {
        Some(past) => {
            add_witness(all, past)?;
            Ok(())
        }
        None => Ok(()),
    }
}

// What is true and lasts, and what is true, in one list.
fn true_now(
    alloc: Global,
    lasting: &[Literal],
    presents: &[Literal],
) -> Result<Vec<Literal>, OutOfMemory>
    ensures lasting { IfOk result (λ all. AreAmong lasting.now all.items) }
    ensures presents { IfOk result (λ all. AreAmong presents.now all.items) }
{
    let mut all = Vec::new(alloc);
    add_all(&mut all, lasting)?;
    add_all(&mut all, presents)?;
    Ok(all)
}

/// What is true and lasts, what is true, and what the known past facts say, with their nodes shared.
pub(crate) fn together(
    alloc: Global,
    program: &Program,
    method: u32,
    lasting: &[Literal],
    presents: &[Literal],
    known: &FactSet,
) -> Result<Vec<Literal>, OutOfMemory>
    ensures { IfOk result (λ all. (m : Method) → slice_get program.now.methods method ≡ Some m →
        AreTogether program.now.header m lasting.now presents.now (has known.now)
        (64 * MARK_WORDS_PER_LOCATION) all.items) }
{
    let mut all = true_now(alloc, lasting, presents)?;
    for number in 0..MARKS {
        add_number(&mut all, program, method, known, number)?;
    }
    Ok(all)
}
