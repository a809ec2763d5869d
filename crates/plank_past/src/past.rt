ghost use Rattle.std.specs.Prelude.{◌≡◌, ◌↔◌, ℕ, ◌*◌, ◌<◌, ◌≤◌, nat_lt, [], map, length, slice_get, Some, IsTrue, IfOk, IfSome, IsNone, Contains};
ghost use Rattle.std.specs.Option.{option_map_or};
ghost use Rattle.plank_base.specs.declared.limits.TheConstants.{MARK_WORDS_PER_LOCATION};
ghost use Rattle.plank_bits.specs.Words.{has};
ghost use Rattle.plank_prog.specs.declared.methods.Method.{Method};
ghost use Rattle.plank_prog.specs.Methods.{location_count};
ghost use Rattle.plank_pic.specs.declared.literals.Literal.{Literal};
ghost use Rattle.plank_fact.specs.Outlines.{Point};
ghost use Rattle.plank_fact.specs.Forced.{outline};
ghost use Rattle.plank_fact.specs.Hindsight.{IsHindsight};
ghost use Rattle.plank_marks.specs.Marks.{mark_words};
ghost use Rattle.plank_query.specs.declared.situations.Situation.{Situation};
ghost use Rattle.plank_query.specs.Situations.{names};
ghost use Rattle.plank_past.specs.Refuting.{refuting, IsRefutedAtOnce, IsRefutedBy, IsRefutedWithin, IsRefuted, ClaimsAtOnce, ClaimsBefore, ClaimsAfter, Grows, nothing};

use crate::adding::{add, add_given, add_true, own};
use crate::answered::{numbers_below, reached};
use crate::hinds::Hinds;
use crate::literals::may_be_now;
use plank_base::OutOfMemory;
use plank_bits::MarkWords;
use plank_claim::{Known, add_claims};
use plank_fact::{FactSet, Hind, Hindsight};
use plank_marks::{At, location_count};
use plank_pic::Literal;
use plank_prog::{Action, Block, Program};
use plank_query::{Claim, Goal, Moment, Oracle, Predicate, Question, SiteTurn, Situation, Speaker};
use std::alloc::Global;

/// Decides the rule of hindsight by questions about pictures.
#[derive_where(Clone, Copy)]
pub struct Past<'a, A> {
    pub oracle: &'a A,
}

// Uses of the rule at some marks, with a goal for each conclusion.
#[derive(Drop)]
struct Asked<'o, 'p, 'h, 'l, 'c, 'm, A> {
    oracle: &'o A,
    program: &'p Program,
    hinds: &'h Hinds<'l, 'c>,
    marks: &'m MarkWords,
    goals: &'p [Goal],
    ghost marks_fit: { length marks.now ≡ mark_words program.now.methods },
    ghost goals_fit: { goals.now ≡ map refuting hinds.now.conclusions.now },
    ghost few: { length goals.now ≤ 64 * MARK_WORDS_PER_LOCATION },
}

fn refuting(conclusion: Literal) -> Goal
    ensures { result ≡ refuting conclusion }
{
    Goal::Fails {
        moment: Moment::After,
        predicate: Predicate::IsWitnessed(conclusion),
    }
}

// A goal for each conclusion: that it is not true of a shared node.
fn goals_of(alloc: Global, conclusions: &[Literal]) -> Result<Vec<Goal>, OutOfMemory>
    ensures { IfOk result (λ goals. goals.items ≡ map refuting conclusions.now) }
{
    let mut goals = Vec::new(alloc);
    for conclusion in conclusions {
        match goals.push(refuting(*conclusion)) {
            Ok(_) => {}
            Err(_) => return Err(OutOfMemory),
        }
    }
    Ok(goals)
}

// Pictures with the names of a method; none where there is no such method.
#[tactic(auto, using(plank_fact::proofs::Limits::few_variables))]
fn names_of<'p>(program: &'p Program, method: u32) -> Option<Situation<'p>>
    ensures names { IfSome result (λ situation. (m : Method) → slice_get program.now.methods method ≡ Some m →
        situation ≡ Situation.Names (length m.variables)) }
    ensures few { IfSome result (λ situation. names situation ≤ 16) }
    ensures none { IsNone result → (m : Method) → slice_get program.now.methods method ≡ Some m → ⊥ }
{
    let method = program.methods.get(method as usize)?;
    Some(Situation::Names {
        variables: method.variables.len() as u8,
    })
}

// Does nothing: a byte is small.
fn fits_a_byte(number: u8)
    ensures { number < 256 }
{
    let _number = number;
}

// Pictures of an effect.
fn effect_of<'p>(turn: SiteTurn<'p>) -> Situation<'p>
    ensures is { result ≡ Situation.Effect turn.entry }
    ensures few { names result ≤ 16 }
{
    fits_a_byte(turn.others);
    Situation::Effect(turn)
}

// What is claimed of a picture in which all is true that the rule takes.
fn claims_at_once(alloc: Global, hinds: &Hinds<'_, '_>) -> Result<Vec<Claim>, OutOfMemory>
    ensures { IfOk result (λ claims. ClaimsAtOnce hinds.now claims.items) }
{
    let mut claims = Vec::new(alloc);
    add_true(&mut claims, hinds.lasting)?;
    add(&mut claims, Predicate::IsWitnessed(hinds.past), true)?;
    add_given(&mut claims, hinds.present)?;
    Ok(claims)
}

// What is claimed of the picture after the effect.
fn claims_after(alloc: Global, present: Literal) -> Result<Vec<Claim>, OutOfMemory>
    ensures { IfOk result (λ claims. ClaimsAfter present claims.items) }
{
    let mut claims = Vec::new(alloc);
    add(&mut claims, own(present), true)?;
    Ok(claims)
}

impl<'o, 'p, 'h, 'l, 'c, 'm, A: Oracle> Asked<'o, 'p, 'h, 'l, 'c, 'm, A> {
    // The conclusions that a picture of the method's names refutes.
    fn refuted_at_once(&self, alloc: Global) -> Result<FactSet, OutOfMemory>
        ensures { IfOk result (λ found. (m : Method) →
            slice_get self.now.program.now.methods self.now.hinds.now.method ≡ Some m →
            Grows self.now.hinds.now.conclusions.now
            (IsRefutedAtOnce self.now.program.now.header m self.now.hinds.now) nothing (has found)) }
    {
        let Some(situation) = names_of(self.program, self.hinds.method) else {
            return Ok(FactSet::empty());
        };
        let claims = claims_at_once(alloc, self.hinds)?;
        let after = Vec::new(alloc);
        let question = Question {
            header: &self.program.header,
            situation,
            before: claims.as_slice(),
            after: after.as_slice(),
            goals: self.goals,
        };
        reached(self.oracle, alloc, &question)
    }

    // What is claimed of the picture before an effect of a site.
    fn claims_before(
        &self,
        alloc: Global,
        present: Literal,
        site: At,
        block: &Block,
    ) -> Result<Vec<Claim>, OutOfMemory>
        requires method { site.method < length self.now.program.now.methods }
        requires location { site.location <
            option_map_or location_count (slice_get self.now.program.now.methods site.method) 0 }
        ensures { IfOk result (λ claims. (x : Point self.now.program.now.methods) → x.m ≡ site.method →
            x.l ≡ site.location →
            ClaimsBefore (outline self.now.program.now.header self.now.program.now.methods (has self.now.marks.now)) x
            block.now self.now.hinds.now present claims.items) }
    {
        let mut claims = Vec::new(alloc);
        add_claims(
            &mut claims,
            self.program,
            site,
            Speaker::Other,
            &Known::Read(block),
            self.marks,
        )?;
        add_true(&mut claims, self.hinds.lasting)?;
        add(&mut claims, Predicate::IsNodeShared(self.hinds.past), true)?;
        add(&mut claims, own(present), false)?;
        Ok(claims)
    }

    // The conclusions that an effect of a site refutes.
    fn refuted_by(&self, alloc: Global, present: Literal, site: At) -> Result<FactSet, OutOfMemory>
        requires method { site.method < length self.now.program.now.methods }
        requires location { site.location <
            option_map_or location_count (slice_get self.now.program.now.methods site.method) 0 }
        ensures { IfOk result (λ found. (m : Method) (x : Point self.now.program.now.methods) →
            slice_get self.now.program.now.methods self.now.hinds.now.method ≡ Some m → x.m ≡ site.method →
            x.l ≡ site.location → Grows self.now.hinds.now.conclusions.now
            (IsRefutedBy (outline self.now.program.now.header self.now.program.now.methods (has self.now.marks.now)) m
            self.now.hinds.now present x) nothing (has found)) }
    {
        let turn = match SiteTurn::at(self.program, self.hinds.method, site.method, site.location) {
            Some(turn) => turn,
            None => return Ok(FactSet::empty()),
        };
        let Action::Block(block) = turn.action else {
            return Ok(FactSet::empty());
        };
        let before = self.claims_before(alloc, present, site, block)?;
        let after = claims_after(alloc, present)?;
        let situation = effect_of(turn);
        let question = Question {
            header: &self.program.header,
            situation,
            before: before.as_slice(),
            after: after.as_slice(),
            goals: self.goals,
        };
        reached(self.oracle, alloc, &question)
    }

    // Those that are refuted already, and those that the site refutes.
    fn more(
        &self,
        alloc: Global,
        present: Literal,
        site: At,
        refuted: &FactSet,
    ) -> Result<FactSet, OutOfMemory>
        requires method { site.method < length self.now.program.now.methods }
        requires location { site.location <
            option_map_or location_count (slice_get self.now.program.now.methods site.method) 0 }
        ensures { IfOk result (λ found. (m : Method) (x : Point self.now.program.now.methods) →
            slice_get self.now.program.now.methods self.now.hinds.now.method ≡ Some m → x.m ≡ site.method →
            x.l ≡ site.location → Grows self.now.hinds.now.conclusions.now
            (IsRefutedBy (outline self.now.program.now.header self.now.program.now.methods (has self.now.marks.now)) m
            self.now.hinds.now present x) (has refuted.now) (has found)) }
    {
        if numbers_below(self.goals.len() as u32).subset(refuted) {
            return Ok(*refuted);
        }
        let found = self.refuted_by(alloc, present, site)?;
        Ok(refuted.union(&found))
    }

    // The same for all sites of a method.
    fn more_of_method(
        &self,
        alloc: Global,
        present: Literal,
        method: u32,
        refuted: &FactSet,
    ) -> Result<FactSet, OutOfMemory>
        requires { method < length self.now.program.now.methods }
        ensures { IfOk result (λ found. (m : Method) →
            slice_get self.now.program.now.methods self.now.hinds.now.method ≡ Some m →
            Grows self.now.hinds.now.conclusions.now
            (IsRefutedWithin (outline self.now.program.now.header self.now.program.now.methods (has self.now.marks.now)) m
            self.now.hinds.now present (λ k l. k ≡ method)) (has refuted.now) (has found)) }
    {
        let mut found = *refuted;
        for location in 0..location_count(self.program, method) {
            found = self.more(alloc, present, At { method, location }, &found)?;
        }
        Ok(found)
    }

    // The same for all sites.
    fn more_of_all(
        &self,
        alloc: Global,
        present: Literal,
        refuted: &FactSet,
    ) -> Result<FactSet, OutOfMemory>
        ensures { IfOk result (λ found. (m : Method) →
            slice_get self.now.program.now.methods self.now.hinds.now.method ≡ Some m →
            Grows self.now.hinds.now.conclusions.now
            (IsRefutedWithin (outline self.now.program.now.header self.now.program.now.methods (has self.now.marks.now)) m
            self.now.hinds.now present (λ k l. k < length self.now.program.now.methods)) (has refuted.now) (has found)) }
    {
        let mut found = *refuted;
        for method in 0..self.program.methods.len() as u32 {
            found = self.more_of_method(alloc, present, method, &found)?;
        }
        Ok(found)
    }

    // All conclusions that are refuted.
    fn refuted(&self, alloc: Global) -> Result<FactSet, OutOfMemory>
        ensures { IfOk result (λ found. (m : Method) →
            slice_get self.now.program.now.methods self.now.hinds.now.method ≡ Some m →
            Grows self.now.hinds.now.conclusions.now
            (IsRefuted (outline self.now.program.now.header self.now.program.now.methods (has self.now.marks.now)) m
            self.now.hinds.now) nothing (has found)) }
    {
        let at_once = self.refuted_at_once(alloc)?;
        match self.hinds.present {
            None => Ok(at_once),
            Some(present) => self.more_of_all(alloc, present, &at_once),
        }
    }
}

impl<'a, A: Oracle> Past<'a, A> {
    /// The conclusions that the rule gives, by their numbers in the list.
    pub fn hindsights(
        &self,
        alloc: Global,
        program: &Program,
        hinds: &Hinds<'_, '_>,
        marks: &MarkWords,
    ) -> Result<FactSet, OutOfMemory>
        requires marks { length marks.now ≡ mark_words program.now.methods }
        requires few { length hinds.now.conclusions.now ≤ 64 * MARK_WORDS_PER_LOCATION }
        ensures within { IfOk result (λ found. (k : ℕ) → IsTrue (has found k) → k < length hinds.now.conclusions.now) }
        ensures exact { IfOk result (λ found. (m : Method) →
            slice_get program.now.methods hinds.now.method ≡ Some m → (k : ℕ) (conclusion : Literal) →
            slice_get hinds.now.conclusions.now k ≡ Some conclusion → (IsTrue (has found k) ↔
            IsHindsight (outline program.now.header program.now.methods (has marks.now)) m
            (λ L. Contains hinds.now.lasting.now L) hinds.now.past hinds.now.present conclusion)) }
    {
        if !may_be_now(&hinds.past, hinds.present) {
            return Ok(FactSet::empty());
        }
        let goals = goals_of(alloc, hinds.conclusions)?;
        let asked = Asked {
            oracle: self.oracle,
            program,
            hinds,
            marks,
            goals: goals.as_slice(),
        };
        let refuted = asked.refuted(alloc)?;
        Ok(numbers_below(hinds.conclusions.len() as u32).minus(&refuted))
    }
}

impl<'a, A: Oracle> Hindsight for Past<'a, A> {
    fn hindsight(
        &self,
        alloc: Global,
        program: &Program,
        hind: &Hind,
        marks: &MarkWords,
    ) -> Result<bool, OutOfMemory> {
        let hinds = Hinds {
            method: hind.method,
            past: hind.past,
            present: hind.present,
            lasting: hind.lasting,
            conclusions: &[hind.conclusion],
        };
        let found = self.hindsights(alloc, program, &hinds, marks)?;
        Ok(found.has(0))
    }
}
