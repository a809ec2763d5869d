ghost use Rattle.std.specs.Prelude.{◌≡◌, ◌↔◌, ◌+◌, ◌*◌, ◌^◌, ◌<◌, ◌≤◌, ◌++◌, not, length, slice_get, None, IsTrue, OnOk};
ghost use Rattle.std.specs.Option.{option_map_or};
ghost use Rattle.plank_base.specs.declared.limits.TheConstants.{MARK_WORDS_PER_LOCATION};
ghost use Rattle.plank_bits.specs.Words.{has};
ghost use Rattle.plank_prog.specs.declared.headers.Header.{Header};
ghost use Rattle.plank_prog.specs.Methods.{location_count};
ghost use Rattle.plank_fact.specs.Tables.{fact_at};
ghost use Rattle.plank_fact.specs.Outlines.{Point, IsClaimed};
ghost use Rattle.plank_fact.specs.Forced.{outline};
ghost use Rattle.plank_marks.specs.Marks.{mark_words};
ghost use Rattle.plank_claim.specs.Claims.{claim_of_literal, claim_of_fact, claim_at, listed, listed_below, usable_claim, Adds, AreUsable, AddsClaims};

use crate::known::Known;
use plank_base::{MARK_WORDS_PER_LOCATION, OutOfMemory};
use plank_bits::MarkWords;
use plank_fact::{Fact, fact, number};
use plank_marks::{At, first_mark};
use plank_pic::Literal;
use plank_prog::Program;
use plank_query::{Claim, Predicate, Speaker};

// How many marks a location has.
const MARKS: u32 = 64 * MARK_WORDS_PER_LOCATION;

// The claim of a literal, where it is meant.
fn claim_of_literal(speaker: Speaker, known: &Known<'_>, literal: Literal) -> Option<Claim>
    ensures { result ≡ claim_of_literal speaker known.now literal }
{
    if !known.passes(&literal) {
        return None;
    }
    Some(Claim {
        predicate: Predicate::IsTrue {
            of: speaker,
            literal,
        },
        value: true,
    })
}

fn claim_of_fact(speaker: Speaker, known: &Known<'_>, fact: Option<Fact>) -> Option<Claim>
    ensures { result ≡ claim_of_fact speaker known.now fact }
{
    match fact {
        Some(Fact::Now(literal)) => claim_of_literal(speaker, known, literal),
        Some(Fact::Past(_)) => None,
        None => None,
    }
}

// Adds a claim, where there is one.
fn push(claims: &mut Vec<Claim>, claim: Option<Claim>) -> Result<(), OutOfMemory>
    ensures { OnOk result (claims.new.items ≡ claims.old.items ++ listed claim) }
{
    match claim {
        Some(claim) => match claims.push(claim) {
            Ok(_) => Ok(()),
            Err(_) => Err(OutOfMemory),
        },
        None => Ok(()),
    }
}

// The claims of a location, from its first mark on.
#[derive(Clone, Copy)]
struct Marked<'a> {
    program: &'a Program,
    method: u32,
    first: u32,
    marks: &'a MarkWords,
}

impl<'a> Marked<'a> {
    // The claim of the fact of a number, if it is claimed.
    fn claim(&self, speaker: Speaker, known: &Known<'_>, number: u32) -> Option<Claim>
        requires few { self.now.first < 2 ^ 24 }
        requires number { number < 64 * MARK_WORDS_PER_LOCATION }
        requires room { self.now.first + 64 * MARK_WORDS_PER_LOCATION ≤ 64 * length self.now.marks.now }
        ensures { result ≡ claim_at self.now.program.now.header self.now.program.now.methods self.now.method
            (has self.now.marks.now) self.now.first speaker known.now number }
    {
        if self.marks.has(self.first + number) {
            return None;
        }
        claim_of_fact(speaker, known, fact(self.program, self.method, number))
    }

    // Whether the table has ended before this number, whose mark is not set.
    fn is_past(&self, number: u32) -> bool
        requires few { self.now.first < 2 ^ 24 }
        requires number { number < 64 * MARK_WORDS_PER_LOCATION }
        requires room { self.now.first + 64 * MARK_WORDS_PER_LOCATION ≤ 64 * length self.now.marks.now }
        ensures { IsTrue result →
            fact_at self.now.program.now.header self.now.program.now.methods self.now.method number ≡ None }
    {
        if self.marks.has(self.first + number) {
            return false;
        }
        fact(self.program, self.method, number).is_none()
    }

    // Adds all of them that are meant.
    fn add(
        &self,
        claims: &mut Vec<Claim>,
        speaker: Speaker,
        known: &Known<'_>,
    ) -> Result<(), OutOfMemory>
        requires few { self.now.first < 2 ^ 24 }
        requires room { self.now.first + 64 * MARK_WORDS_PER_LOCATION ≤ 64 * length self.now.marks.now }
        ensures { OnOk result (claims.new.items ≡ claims.old.items ++ listed_below
            (claim_at self.now.program.now.header self.now.program.now.methods self.now.method
            (has self.now.marks.now) self.now.first speaker known.now) (64 * MARK_WORDS_PER_LOCATION)) }
    {
        for number in 0..MARKS {
            if self.is_past(number) {
                return Ok(());
            }
            push(claims, self.claim(speaker, known, number))?;
        }
        Ok(())
    }
}

/// Adds what is claimed at a location, and meant, as claims that it is true of a call.
pub fn add_claims(
    claims: &mut Vec<Claim>,
    program: &Program,
    at: At,
    speaker: Speaker,
    known: &Known<'_>,
    marks: &MarkWords,
) -> Result<(), OutOfMemory>
    requires method { at.method < length program.now.methods }
    requires location { at.location < option_map_or location_count (slice_get program.now.methods at.method) 0 }
    requires marks { length marks.now ≡ mark_words program.now.methods }
    ensures { OnOk result (AddsClaims program.now marks.now at.method at.location speaker known.now
        claims.old.items claims.new.items) }
{
    let marked = Marked {
        program,
        method: at.method,
        first: first_mark(program, at),
        marks,
    };
    marked.add(claims, speaker, known)?;
    Ok(())
}

/// Adds that each of the first names is null, or its node shared or the own thread's.
pub fn add_usable(claims: &mut Vec<Claim>, names: u8) -> Result<(), OutOfMemory>
    ensures { OnOk result ((h : Header) → Adds h claims.old.items claims.new.items (AreUsable names)) }
{
    for name in 0..names {
        let claim = Claim {
            predicate: Predicate::IsUsable(name),
            value: true,
        };
        push(claims, Some(claim))?;
    }
    Ok(())
}

// Whether the mark of a number is not set, from the first mark of a location on.
fn is_clear(marks: &MarkWords, first: u32, number: u32) -> bool
    requires few { first < 2 ^ 24 }
    requires room { first + 64 * MARK_WORDS_PER_LOCATION ≤ 64 * length marks.now }
    ensures { number < 64 * MARK_WORDS_PER_LOCATION → result ≡ not (has marks.now (first + number)) }
{
    if number >= MARKS {
        return false;
    }
    !marks.has(first + number)
}

/// Whether a fact is claimed at a location: it is in the table, and its mark is not set.
pub fn is_claimed(program: &Program, at: At, fact: &Fact, marks: &MarkWords) -> bool
    requires method { at.method < length program.now.methods }
    requires location { at.location < option_map_or location_count (slice_get program.now.methods at.method) 0 }
    requires marks { length marks.now ≡ mark_words program.now.methods }
    ensures { (x : Point program.now.methods) → x.m ≡ at.method → x.l ≡ at.location →
        IsTrue result ↔ IsClaimed (outline program.now.header program.now.methods (has marks.now)) x fact.now }
{
    match number(program, at.method, fact) {
        Some(number) => is_clear(marks, first_mark(program, at), number),
        None => false,
    }
}
