// What a site breaks of the claims of a location.
ghost use Rattle.std.specs.Prelude.{◌≡◌, ◌↔◌, ◌≤◌, ◌<◌, suc, length, slice_get, Some, IfOk};
ghost use Rattle.std.specs.Option.{option_map_or};
ghost use Rattle.plank_bits.specs.Words.{has};
ghost use Rattle.plank_prog.specs.Methods.{location_count};
ghost use Rattle.plank_fact.specs.Outlines.{Point};
ghost use Rattle.plank_marks.specs.Marks.{mark_words};
ghost use Rattle.plank_claim.specs.Asked.{AreReached};
ghost use Rattle.plank_query.specs.declared.situations.Situation.{Situation};
ghost use Rattle.plank_query.specs.Places.{IsSiteTurnAt};
ghost use Rattle.plank_prog.specs.declared.methods.Action.{Action};
ghost use Rattle.plank_claim.specs.declared.known.Known.{Known};
ghost use Rattle.plank_method.specs.Deciding.{outline_of, IsExact};
ghost use Rattle.plank_rely.specs.Breaking.{AreSaid, IsFactBrokenBy};

use crate::candidates::{candidates, goals, reached};
use plank_base::OutOfMemory;
use plank_bits::MarkWords;
use plank_claim::{Known, add_claims, add_usable, ask};
use plank_fact::FactSet;
use plank_marks::At;
use plank_prog::{Action, Block, Program};
use plank_query::{Claim, Oracle, SiteTurn, Situation, Speaker};
use std::alloc::Global;

// A number of 8 bits is one below 256. It does nothing.
fn fits_a_byte(number: u8)
    ensures { number < 256 }
{}

/// A location, whose claims other calls may break, and whoever is asked about it.
#[derive(Drop)]
pub(crate) struct Claimed<'a, Q: Oracle> {
    pub(crate) oracle: &'a Q,
    pub(crate) program: &'a Program,
    pub(crate) at: At,
    pub(crate) marks: &'a MarkWords,
}

impl<'a, Q: Oracle> Claimed<'a, Q> {
    // What is claimed at the location, that its names are usable, and what another call knows at a site.
    fn claims(
        &self,
        alloc: Global,
        names: u8,
        site: At,
        block: &Block,
    ) -> Result<Vec<Claim>, OutOfMemory>
        requires method { self.now.at.method < length self.now.program.now.methods }
        requires location { self.now.at.location < option_map_or location_count
            (slice_get self.now.program.now.methods self.now.at.method) 0 }
        requires site_method { site.method < length self.now.program.now.methods }
        requires site_location { site.location < option_map_or location_count
            (slice_get self.now.program.now.methods site.method) 0 }
        requires marks { length self.now.marks.now ≡ mark_words self.now.program.now.methods }
        ensures { IfOk result (λ claims. (x s : Point self.now.program.now.methods) →
            x.m ≡ self.now.at.method → x.l ≡ self.now.at.location → s.m ≡ site.method → s.l ≡ site.location →
            AreSaid (outline_of self.now.program.now self.now.marks.now) x s names (Known.Read block.entry) claims.items) }
    {
        let mut claims = Vec::new(alloc);
        add_claims(
            &mut claims,
            self.program,
            self.at,
            Speaker::Own,
            &Known::All,
            self.marks,
        )?;
        add_usable(&mut claims, names)?;
        add_claims(
            &mut claims,
            self.program,
            site,
            Speaker::Other,
            &Known::Read(block),
            self.marks,
        )?;
        Ok(claims)
    }

    // Those of the wanted facts that an effect of the block of a site breaks.
    fn broken_by_turn(
        &self,
        alloc: Global,
        turn: SiteTurn<'_>,
        block: &Block,
        site: At,
        wanted: &FactSet,
    ) -> Result<FactSet, OutOfMemory>
        requires method { self.now.at.method < length self.now.program.now.methods }
        requires location { self.now.at.location < option_map_or location_count
            (slice_get self.now.program.now.methods self.now.at.method) 0 }
        requires site_method { site.method < length self.now.program.now.methods }
        requires site_location { site.location < option_map_or location_count
            (slice_get self.now.program.now.methods site.method) 0 }
        requires marks { length self.now.marks.now ≡ mark_words self.now.program.now.methods }
        ensures { IfOk result (λ found. (x s : Point self.now.program.now.methods) →
            x.m ≡ self.now.at.method → x.l ≡ self.now.at.location → s.m ≡ site.method → s.l ≡ site.location →
            IsSiteTurnAt x.method s turn.entry → s.location.action ≡ Action.Block block.now →
            IsExact self.now.program.now.header x.method (has wanted.now) (has found)
            (IsFactBrokenBy (outline_of self.now.program.now self.now.marks.now) x s)) }
    {
        fits_a_byte(turn.others);
        let listed = candidates(alloc, self.program, self.at.method, wanted)?;
        let numbers = listed.as_slice();
        let made = goals(alloc, self.program, self.at.method, numbers)?;
        let asked = made.as_slice();
        let said = self.claims(alloc, turn.variables + 1, site, block)?;
        let claims = said.as_slice();
        let situation = Situation::Effect(turn);
        let answers = ask(alloc, self.oracle, self.program, situation, claims, asked)?;
        Ok(reached(numbers, answers.as_slice()))
    }

    /// Those of the wanted facts that some effect of a site breaks; none where the location is no site.
    pub(crate) fn broken_by(
        &self,
        alloc: Global,
        site: At,
        wanted: &FactSet,
    ) -> Result<FactSet, OutOfMemory>
        requires method { self.now.at.method < length self.now.program.now.methods }
        requires location { self.now.at.location < option_map_or location_count
            (slice_get self.now.program.now.methods self.now.at.method) 0 }
        requires site_method { site.method < length self.now.program.now.methods }
        requires site_location { site.location < option_map_or location_count
            (slice_get self.now.program.now.methods site.method) 0 }
        requires marks { length self.now.marks.now ≡ mark_words self.now.program.now.methods }
        ensures { IfOk result (λ found. (x s : Point self.now.program.now.methods) →
            x.m ≡ self.now.at.method → x.l ≡ self.now.at.location → s.m ≡ site.method → s.l ≡ site.location →
            IsExact self.now.program.now.header x.method (has wanted.now) (has found)
            (IsFactBrokenBy (outline_of self.now.program.now self.now.marks.now) x s)) }
    {
        let program: &Program = self.program;
        match SiteTurn::at(program, self.at.method, site.method, site.location) {
            Some(turn) => match turn.action {
                Action::Block(block) => {
                    let found = self.broken_by_turn(alloc, turn, block, site, wanted)?;
                    Ok(found)
                }
                _ => Ok(FactSet::empty()),
            },
            None => Ok(FactSet::empty()),
        }
    }
}
