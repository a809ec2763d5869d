ghost use Rattle.std.specs.Prelude.{◌≡◌};

use crate::deciding::Deciding;
use crate::leading::leads;
use crate::runs::{forced_by_others, forced_by_steps};
use plank_base::{MARK_WORDS_PER_LOCATION, OutOfMemory};
use plank_bits::{MarkWords, Steps};
use plank_board::Forcing;
use plank_marks::{At, locations_before, mark_words};
use plank_pic::Exit;
use plank_prog::Program;
use plank_unit::{unit_at, unit_count};
use std::alloc::Global;
use std::marker::Sync;
use std::sync::ledger::Ledger;

/// The units of a program as a forcing: what each forces is decided at its location.
#[derive(Clone, Copy)]
pub struct Prover<'a, D: Deciding + Sync> {
    pub deciding: &'a D,
}

// Whether a step leads to a location from the one of a number, or it is that one.
fn is_reached(program: &Program, at: At, number: u32) -> bool {
    if at.method as usize >= program.methods.len() {
        return false;
    }
    let before = locations_before(program, at.method);
    if number < before {
        return false;
    }
    let from = number - before;
    from == at.location
        || leads(program, at.method, from, Exit::Yes, at.location)
        || leads(program, at.method, from, Exit::No, at.location)
}

impl<'a, D: Deciding + Sync> Forcing for Prover<'a, D> {
    ghost use Rattle.std.specs.Prelude.{length};
    ghost use Rattle.std.proofs.Common.{arith};
    ghost use Rattle.plank_prog.proofs.HeaderFacts.{few_flags, few_pointers};
    ghost use Rattle.plank_marks.specs.Marks.{mark_words};
    ghost use Rattle.plank_fact.proofs.Limits.{few_variables};
    ghost use Rattle.plank_unit.specs.Units.{unit_count, UnitForces, UnitIsStill};
    ghost use Rattle.plank_unit.proofs.More.{units_monotone};
    ghost use Rattle.plank_unit.proofs.UnitLaws.{units_closing, units_bounded};

    ghost method_count = { λ p. unit_count (D.program p.deciding.now).methods };

    ghost word_count = { λ p. mark_words (D.program p.deciding.now).methods };

    ghost forces = { λ p. UnitForces (D.program p.deciding.now).header (D.program p.deciding.now).methods };

    ghost still = { λ p. UnitIsStill (D.program p.deciding.now).header (D.program p.deciding.now).methods };

    ghost monotone = { λ p. units_monotone (D.program p.deciding.now).header
        (D.program p.deciding.now).methods (unit_count (D.program p.deciding.now).methods) };

    ghost closing = { λ p. units_closing (D.program p.deciding.now).header
        (D.program p.deciding.now).methods (unit_count (D.program p.deciding.now).methods) };

    ghost bounded = { λ p m k marks below forced. Prim.omega (
      arith,
      units_bounded (D.program p.deciding.now).header (D.program p.deciding.now).methods
          (unit_count (D.program p.deciding.now).methods)
          (few_flags (D.program p.deciding.now).header (D.program p.deciding.now).header_is_lawful)
          (few_pointers (D.program p.deciding.now).header (D.program p.deciding.now).header_is_lawful)
          (few_variables (D.program p.deciding.now).header (D.program p.deciding.now).methods
          (D.program p.deciding.now).methods_are_lawful) m k marks below forced,
    ) };

    fn methods(&self) -> u32 {
        unit_count(self.deciding.program())
    }

    fn words(&self) -> u32 {
        mark_words(self.deciding.program())
    }

    fn force<L: Ledger>(
        &self,
        alloc: Global,
        m: u32,
        marks: &MarkWords,
        steps: &mut Steps<L>,
    ) -> Result<MarkWords, OutOfMemory> {
        steps.tick();
        let unit = unit_at(self.deciding.program(), m);
        if unit.others {
            let broken = forced_by_others(alloc, self.deciding, unit.at, marks)?;
            Ok(broken)
        } else {
            let refuted = forced_by_steps(alloc, self.deciding, unit.at, marks)?;
            Ok(refuted)
        }
    }

    /// What calls do by their own steps asks less than what others do.
    fn is_quick(&self, m: u32) -> bool {
        m % 2 == 0
    }

    /// A unit is woken by marks of its location, and of those from which a step leads there.
    fn is_woken(&self, m: u32, word: u32) -> bool {
        let program = self.deciding.program();
        if m >= unit_count(program) {
            return false;
        }
        is_reached(
            program,
            unit_at(program, m).at,
            word / MARK_WORDS_PER_LOCATION,
        )
    }
}
