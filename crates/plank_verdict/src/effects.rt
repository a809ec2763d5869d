// The effects of a program.
ghost use Rattle.std.specs.Prelude.{◌≡◌, ◌↔◌, ◌+◌, ◌<◌, length, slice_get, IsTrue, IfOk, OnOk};
ghost use Rattle.std.specs.Option.{option_map_or};
ghost use Rattle.plank_prog.specs.Methods.{location_count};
ghost use Rattle.plank_pic.specs.declared.literals.Exit.{Exit};
ghost use Rattle.plank_fact.specs.Outlines.{Point};
ghost use Rattle.plank_marks.specs.Marks.{mark_words};
ghost use Rattle.plank_query.specs.Places.{IsOwnTurnAt};
ghost use Rattle.plank_judge.specs.Verdicts.{outline_of};
ghost use Rattle.plank_verdict.specs.Effects.{IsEffectAt, AreEffectsBefore, AreEffects, IsReached};

use crate::kept::kept_facts;
use plank_base::OutOfMemory;
use plank_bits::MarkWords;
use plank_claim::{Known, add_claims, ask};
use plank_judge::Effect;
use plank_marks::{At, location_count};
use plank_pic::Exit;
use plank_prog::Program;
use plank_query::{Goal, Oracle, OwnTurn, Situation, Speaker};
use sqlite_items::Items;
use std::alloc::Global;

// The locations of a program, at some marks.
#[derive(Drop)]
struct Locations<'a, Q: Oracle> {
    oracle: &'a Q,
    program: &'a Program,
    marks: &'a MarkWords,
}

fn first_of(answers: &[bool]) -> bool
    requires { length answers.now ≡ 1 }
    ensures { slice_get answers.now 0 ≡ Some result }
{
    answers[0]
}

impl<'a, Q: Oracle> Locations<'a, Q> {
    // Whether a call may come to the location.
    fn is_reached(&self, alloc: Global, at: At, turn: OwnTurn<'_>) -> Result<bool, OutOfMemory>
        requires method { at.method < length self.now.program.now.methods }
        requires location { at.location < option_map_or location_count
            (slice_get self.now.program.now.methods at.method) 0 }
        requires marks { length self.now.marks.now ≡ mark_words self.now.program.now.methods }
        ensures { IfOk result (λ reached. (x : Point self.now.program.now.methods) →
            x.m ≡ at.method → x.l ≡ at.location → IsOwnTurnAt x Exit.Yes turn.entry →
            IsTrue reached ↔ IsReached (outline_of self.now.program.now self.now.marks.now) x) }
    {
        let mut claims = Vec::new(alloc);
        add_claims(
            &mut claims,
            self.program,
            at,
            Speaker::Own,
            &Known::All,
            self.marks,
        )?;
        let situation = Situation::Own(turn);
        let goals = [Goal::Anything];
        let answers = ask(
            alloc,
            self.oracle,
            self.program,
            situation,
            claims.as_slice(),
            &goals,
        )?;
        Ok(first_of(answers.as_slice()))
    }

    // Whether the location is an effect.
    fn is_effect(&self, alloc: Global, at: At) -> Result<bool, OutOfMemory>
        requires method { at.method < length self.now.program.now.methods }
        requires location { at.location < option_map_or location_count
            (slice_get self.now.program.now.methods at.method) 0 }
        requires marks { length self.now.marks.now ≡ mark_words self.now.program.now.methods }
        ensures { IfOk result (λ effect. IsTrue effect ↔
            IsEffectAt (outline_of self.now.program.now self.now.marks.now) at.method at.location) }
    {
        match OwnTurn::at(self.program, at.method, at.location, Exit::Yes) {
            Some(turn) => {
                if !turn.action.is_site() {
                    return Ok(false);
                }
                let reached = self.is_reached(alloc, at, turn)?;
                Ok(reached)
            }
            None => Ok(false),
        }
    }

    // Adds the effect at a location, where it is one.
    fn add(&self, alloc: Global, effects: &mut Vec<Effect>, at: At) -> Result<(), OutOfMemory>
        requires method { at.method < length self.now.program.now.methods }
        requires location { at.location < option_map_or location_count
            (slice_get self.now.program.now.methods at.method) 0 }
        requires marks { length self.now.marks.now ≡ mark_words self.now.program.now.methods }
        requires so_far { AreEffectsBefore (outline_of self.now.program.now self.now.marks.now)
            at.method at.location effects.old.items }
        ensures { OnOk result (AreEffectsBefore (outline_of self.now.program.now self.now.marks.now)
            at.method (at.location + 1) effects.new.items) }
    {
        if !self.is_effect(alloc, at)? {
            return Ok(());
        }
        let facts = kept_facts(alloc, self.program, self.marks, at)?;
        effects.push(Effect {
            method: at.method,
            location: at.location,
            facts: Items::from_vec(facts),
        })?;
        Ok(())
    }

    // Adds the effects of a method.
    fn add_method(
        &self,
        alloc: Global,
        effects: &mut Vec<Effect>,
        method: u32,
    ) -> Result<(), OutOfMemory>
        requires method { method < length self.now.program.now.methods }
        requires marks { length self.now.marks.now ≡ mark_words self.now.program.now.methods }
        requires so_far { AreEffectsBefore (outline_of self.now.program.now self.now.marks.now)
            method 0 effects.old.items }
        ensures { OnOk result (AreEffectsBefore (outline_of self.now.program.now self.now.marks.now)
            (method + 1) 0 effects.new.items) }
    {
        for location in 0..location_count(self.program, method) {
            self.add(alloc, effects, At { method, location })?;
        }
        Ok(())
    }
}

/// The effects of a program at the marks, in the order of the text: locations that write, and that a call may
/// come to.
pub fn list_effects<Q: Oracle>(
    alloc: Global,
    oracle: &Q,
    program: &Program,
    marks: &MarkWords,
) -> Result<Items<Effect>, OutOfMemory>
    requires { length marks.now ≡ mark_words program.now.methods }
    ensures { IfOk result (AreEffects (outline_of program.now marks.now)) }
{
    let locations = Locations {
        oracle,
        program,
        marks,
    };
    let mut effects = Vec::new(alloc);
    for method in 0..program.methods.len() as u32 {
        locations.add_method(alloc, &mut effects, method)?;
    }
    Ok(Items::from_vec(effects))
}
