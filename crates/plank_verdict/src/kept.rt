// What an effect keeps of the facts that are claimed at its location.
ghost use Rattle.std.specs.Prelude.{◌≡◌, ◌+◌, ◌*◌, ◌^◌, ◌<◌, ◌≤◌, ◌++◌, not, ◌&&◌, length, slice_get, OnOk, IfOk};
ghost use Rattle.std.specs.Option.{option_map_or, option_copied};
ghost use Rattle.plank_base.specs.declared.limits.TheConstants.{MARK_WORDS_PER_LOCATION};
ghost use Rattle.plank_bits.specs.Words.{has};
ghost use Rattle.plank_prog.specs.Methods.{location_count};
ghost use Rattle.plank_fact.specs.ReportedEffects.{is_kept, kept_from};
ghost use Rattle.plank_marks.specs.Marks.{mark_words};
ghost use Rattle.plank_verdict.specs.Kept.{table, listed_if, block_at, AreKept};

use plank_base::{MARK_WORDS_PER_LOCATION, OutOfMemory};
use plank_bits::MarkWords;
use plank_claim::Known;
use plank_fact::{Fact, fact};
use plank_marks::{At, first_mark};
use plank_prog::{Action, Block, Program};
use std::alloc::Global;

// How many marks a location has.
const MARKS: u32 = 64 * MARK_WORDS_PER_LOCATION;

// Whether an effect keeps the fact.
fn is_kept(block: &Block, fact: &Fact) -> bool
    ensures { result ≡ is_kept block.now fact.now }
{
    match fact {
        Fact::Now(literal) => Known::Named(block).passes(literal),
        Fact::Past(_) => false,
    }
}

// Adds a fact, where it is kept.
fn push_if(facts: &mut Vec<Fact>, kept: bool, fact: Fact) -> Result<(), OutOfMemory>
    ensures { OnOk result (facts.new.items ≡ facts.old.items ++ listed_if kept fact) }
{
    if !kept {
        return Ok(());
    }
    facts.push(fact)?;
    Ok(())
}

// The facts of a method, at a location that writes, from its first mark on.
#[derive(Clone, Copy)]
struct Kept<'a> {
    program: &'a Program,
    method: u32,
    block: &'a Block,
    first: u32,
    marks: &'a MarkWords,
}

impl<'a> Kept<'a> {
    // Whether the effect keeps the fact of this number.
    fn keeps(&self, number: u32, fact: &Fact) -> bool
        requires few { self.now.first < 2 ^ 24 }
        requires number { number < 64 * MARK_WORDS_PER_LOCATION }
        requires room { self.now.first + 64 * MARK_WORDS_PER_LOCATION ≤ 64 * length self.now.marks.now }
        ensures { result ≡ not (has self.now.marks.now (self.now.first + number))
            && is_kept self.now.block.now fact.now }
    {
        !self.marks.has(self.first + number) && is_kept(self.block, fact)
    }

    // All that it keeps.
    fn facts(&self, alloc: Global) -> Result<Vec<Fact>, OutOfMemory>
        requires few { self.now.first < 2 ^ 24 }
        requires room { self.now.first + 64 * MARK_WORDS_PER_LOCATION ≤ 64 * length self.now.marks.now }
        ensures { IfOk result (λ facts. facts.items ≡ kept_from (λ n. has self.now.marks.now (self.now.first + n))
            self.now.block.now 0 (table self.now.program.now.header self.now.program.now.methods self.now.method)) }
    {
        let mut facts = Vec::new(alloc);
        for number in 0..MARKS {
            match fact(self.program, self.method, number) {
                Some(fact) => push_if(&mut facts, self.keeps(number, &fact), fact)?,
                None => return Ok(facts),
            }
        }
        Ok(facts)
    }
}

// The block at a location, where there is one.
fn block_at(program: &Program, at: At) -> Option<&Block>
    ensures { option_copied result ≡ block_at program.now.methods at.method at.location }
{
    let method = program.methods.get(at.method as usize)?;
    let location = method.locations.get(at.location as usize)?;
    match &location.action {
        Action::Block(block) => Some(block),
        Action::Copy { .. } | Action::New { .. } | Action::Return(_) => None,
    }
}

/// What an effect at the location keeps of the facts that are claimed there, in the order of their numbers.
pub fn kept_facts(
    alloc: Global,
    program: &Program,
    marks: &MarkWords,
    at: At,
) -> Result<Vec<Fact>, OutOfMemory>
    requires method { at.method < length program.now.methods }
    requires location { at.location < option_map_or location_count (slice_get program.now.methods at.method) 0 }
    requires marks { length marks.now ≡ mark_words program.now.methods }
    ensures { IfOk result (λ facts. AreKept program.now marks.now at.method at.location facts.items) }
{
    let Some(block) = block_at(program, at) else {
        return Ok(Vec::new(alloc));
    };
    let kept = Kept {
        program,
        method: at.method,
        block,
        first: first_mark(program, at),
        marks,
    };
    kept.facts(alloc)
}
