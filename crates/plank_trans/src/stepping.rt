ghost use Rattle.std.specs.Prelude.{◌≡◌, ℕ, ◌<◌, ◌≤◌, [], length, slice_get, Some, true, IfOk};
ghost use Rattle.std.specs.Option.{option_map_or};
ghost use Rattle.plank_bits.specs.Words.{has};
ghost use Rattle.plank_prog.specs.declared.methods.Method.{Method};
ghost use Rattle.plank_prog.specs.Methods.{location_count};
ghost use Rattle.plank_pic.specs.declared.literals.Literal.{Literal};
ghost use Rattle.plank_fact.specs.declared.facts.Fact.{Fact};
ghost use Rattle.plank_fact.specs.Tables.{name_count, IsNumbered};
ghost use Rattle.plank_fact.specs.Outlines.{Point};
ghost use Rattle.plank_fact.specs.After.{IsAfter};
ghost use Rattle.plank_marks.specs.Marks.{mark_words};
ghost use Rattle.plank_query.specs.declared.predicates.Speaker.{Speaker};
ghost use Rattle.plank_query.specs.declared.situations.Situation.{Situation};
ghost use Rattle.plank_shown.specs.Shown.{IsOfCall};
ghost use Rattle.plank_claim.specs.declared.known.Known.{Known};
ghost use Rattle.plank_claim.specs.Claims.{AddsClaims};
ghost use Rattle.plank_method.specs.Deciding.{outline_of, IsExact};
ghost use Rattle.plank_trans.specs.Turns.{IsTurnOf};
ghost use Rattle.plank_trans.specs.Carried.{AreMoves, AreEnough};

use crate::carrying::Carrying;
use crate::keeping::Keeping;
use crate::moves::move_goals;
use plank_base::OutOfMemory;
use plank_bits::MarkWords;
use plank_claim::{Known, add_claims};
use plank_fact::FactSet;
use plank_follow::{Following, wants_past};
use plank_marks::{At, location_count};
use plank_past::reached;
use plank_pic::Exit;
use plank_prog::Program;
use plank_query::{Claim, Oracle, OwnTurn, Question, Situation, Speaker};
use plank_shown::Arrivals;
use std::alloc::Global;

// The steps of a location by an exit, from pictures of which the claims are right.
#[derive(Drop)]
struct Stepped<'a, Q> {
    oracle: &'a Q,
    program: &'a Program,
    at: At,
    turn: OwnTurn<'a>,
    claims: &'a [Claim],
    marks: &'a MarkWords,
    ghost method_is: { at.method < length program.now.methods },
    ghost location_is: { at.location <
        option_map_or location_count (slice_get program.now.methods at.method) 0 },
    ghost marks_fit: { length marks.now ≡ mark_words program.now.methods },
    ghost own: { (m : Method) → slice_get program.now.methods at.method ≡ Some m → IsOfCall (Situation.Step turn) m },
    ghost claims_are: { AddsClaims program.now marks.now at.method at.location Speaker.Own Known.All [] claims.now },
}

// What is claimed at a location.
fn claims_at(
    alloc: Global,
    program: &Program,
    at: At,
    marks: &MarkWords,
) -> Result<Vec<Claim>, OutOfMemory>
    requires method { at.method < length program.now.methods }
    requires location { at.location < option_map_or location_count (slice_get program.now.methods at.method) 0 }
    requires marks { length marks.now ≡ mark_words program.now.methods }
    ensures { IfOk result (λ claims. AddsClaims program.now marks.now at.method at.location Speaker.Own Known.All []
        claims.items) }
{
    let mut claims = Vec::new(alloc);
    add_claims(&mut claims, program, at, Speaker::Own, &Known::All, marks)?;
    Ok(claims)
}

impl<'a, Q: Oracle> Stepped<'a, Q> {
    // The pairs of names, as numbers, of which the one does not in each step name what the other did.
    fn moved(&self, alloc: Global, names: u32) -> Result<FactSet, OutOfMemory>
        requires some { 0 < names }
        requires few { names ≤ 16 }
        ensures { IfOk result (λ moved. (x : Point self.now.program.now.methods) →
            IsTurnOf x self.now.at.method self.now.at.location self.now.turn →
            AreMoves (outline_of self.now.program.now self.now.marks.now) x self.now.turn.exit names (has moved)) }
    {
        let goals = move_goals(alloc, &self.turn, names)?;
        let after = Vec::new(alloc);
        let question = Question {
            header: &self.program.header,
            situation: Situation::Step(self.turn),
            before: self.claims,
            after: after.as_slice(),
            goals: goals.as_slice(),
        };
        reached(self.oracle, alloc, &question)
    }

    // Past facts that are carried along: all, or each that is wanted.
    fn carried(&self, alloc: Global, wanted: &FactSet) -> Result<FactSet, OutOfMemory>
        ensures { IfOk result (λ carried. (x : Point self.now.program.now.methods) →
            IsTurnOf x self.now.at.method self.now.at.location self.now.turn →
            AreEnough (outline_of self.now.program.now self.now.marks.now) x self.now.turn.exit (has wanted.now)
            (has carried)) }
    {
        let names = u32::from(self.turn.variables) + 1;
        let keeping = Keeping {
            program: self.program,
            at: self.at,
            turn: self.turn,
            marks: self.marks,
            names,
        };
        let kept = keeping.kept();
        let open = wanted.minus(&kept);
        if !wants_past(self.program, self.at.method, &open) {
            return Ok(kept);
        }
        let moved = self.moved(alloc, names)?;
        let carrying = Carrying {
            program: self.program,
            at: self.at,
            turn: self.turn,
            marks: self.marks,
            names,
            moved: &moved,
        };
        Ok(carrying.carried())
    }

    // Those of the wanted facts that a call has after each step.
    fn known(&self, alloc: Global, wanted: &FactSet) -> Result<FactSet, OutOfMemory>
        ensures { IfOk result (λ known. (x : Point self.now.program.now.methods) →
            IsTurnOf x self.now.at.method self.now.at.location self.now.turn →
            IsExact self.now.program.now.header x.method (has wanted.now) (has known)
            (IsAfter (outline_of self.now.program.now self.now.marks.now) x self.now.turn.exit)) }
    {
        let carried = self.carried(alloc, wanted)?;
        let arrivals = Arrivals {
            oracle: self.oracle,
            program: self.program,
            method: self.at.method,
            situation: Situation::Step(self.turn),
            claims: self.claims,
        };
        let following = Following {
            arrivals,
            marks: self.marks,
        };
        following.known(alloc, &carried, wanted)
    }
}

/// Which of the wanted facts a call has after each step of a location by an exit. It says nothing of a
/// location that is not there.
pub fn after<Q: Oracle>(
    alloc: Global,
    oracle: &Q,
    program: &Program,
    step: (At, Exit),
    wanted: &FactSet,
    marks: &MarkWords,
) -> Result<FactSet, OutOfMemory>
    requires { length marks.now ≡ mark_words program.now.methods }
    ensures { IfOk result (λ known. (x : Point program.now.methods) → x.m ≡ step.0.method → x.l ≡ step.0.location →
        IsExact program.now.header x.method (has wanted.now) (has known)
        (IsAfter (outline_of program.now marks.now) x step.1)) }
{
    let (at, exit) = step;
    if at.method as usize >= program.methods.len()
        || at.location >= location_count(program, at.method)
    {
        return Ok(FactSet::empty());
    }
    let Some(turn) = OwnTurn::at(program, at.method, at.location, exit) else {
        return Ok(FactSet::empty());
    };
    let claims = claims_at(alloc, program, at, marks)?;
    let stepped = Stepped {
        oracle,
        program,
        at,
        turn,
        claims: claims.as_slice(),
        marks,
    };
    stepped.known(alloc, wanted)
}
