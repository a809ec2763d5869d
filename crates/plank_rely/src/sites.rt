ghost use Rattle.std.specs.Prelude.{◌≡◌, ◌<◌, length, slice_get, IfOk};
ghost use Rattle.std.specs.Option.{option_map_or};
ghost use Rattle.plank_bits.specs.Words.{has};
ghost use Rattle.plank_prog.specs.Methods.{location_count};
ghost use Rattle.plank_fact.specs.Outlines.{Point};
ghost use Rattle.plank_marks.specs.Marks.{mark_words};
ghost use Rattle.plank_unit.specs.Units.{IsBrokenFact};
ghost use Rattle.plank_method.specs.Deciding.{outline_of, IsExact};
ghost use Rattle.plank_rely.specs.Breaking.{IsBrokenWithin, IsBrokenBefore};

use crate::asking::Claimed;
use plank_base::OutOfMemory;
use plank_bits::MarkWords;
use plank_fact::FactSet;
use plank_marks::{At, location_count};
use plank_prog::Program;
use plank_query::Oracle;
use std::alloc::Global;

impl<'a, Q: Oracle> Claimed<'a, Q> {
    // Those of the wanted facts that the sites of a method break.
    fn broken_by_method(
        &self,
        alloc: Global,
        method: u32,
        wanted: &FactSet,
    ) -> Result<FactSet, OutOfMemory>
        requires method { self.now.at.method < length self.now.program.now.methods }
        requires location { self.now.at.location < option_map_or location_count
            (slice_get self.now.program.now.methods self.now.at.method) 0 }
        requires other { method < length self.now.program.now.methods }
        requires marks { length self.now.marks.now ≡ mark_words self.now.program.now.methods }
        ensures { IfOk result (λ found. (x : Point self.now.program.now.methods) →
            x.m ≡ self.now.at.method → x.l ≡ self.now.at.location →
            IsExact self.now.program.now.header x.method (has wanted.now) (has found)
            (IsBrokenWithin (outline_of self.now.program.now self.now.marks.now) x method
            (option_map_or location_count (slice_get self.now.program.now.methods method) 0))) }
    {
        let mut found = FactSet::empty();
        for location in 0..location_count(self.program, method) {
            let left = wanted.minus(&found);
            let more = self.broken_by(alloc, At { method, location }, &left)?;
            found = found.union(&more);
        }
        Ok(found)
    }

    // Those of the wanted facts that some site breaks.
    fn broken(&self, alloc: Global, wanted: &FactSet) -> Result<FactSet, OutOfMemory>
        requires method { self.now.at.method < length self.now.program.now.methods }
        requires location { self.now.at.location < option_map_or location_count
            (slice_get self.now.program.now.methods self.now.at.method) 0 }
        requires marks { length self.now.marks.now ≡ mark_words self.now.program.now.methods }
        ensures { IfOk result (λ found. (x : Point self.now.program.now.methods) →
            x.m ≡ self.now.at.method → x.l ≡ self.now.at.location →
            IsExact self.now.program.now.header x.method (has wanted.now) (has found)
            (IsBrokenFact (outline_of self.now.program.now self.now.marks.now) x)) }
    {
        let mut found = FactSet::empty();
        for method in 0..self.program.methods.len() {
            let left = wanted.minus(&found);
            let more = self.broken_by_method(alloc, method as u32, &left)?;
            found = found.union(&more);
        }
        Ok(found)
    }
}

/// Which of the wanted facts of a location steps of other calls may break: those that are false after some
/// effect before which all that is claimed at the location was true. It says nothing of a location that is
/// not there.
pub fn broken<Q: Oracle>(
    alloc: Global,
    oracle: &Q,
    program: &Program,
    at: At,
    wanted: &FactSet,
    marks: &MarkWords,
) -> Result<FactSet, OutOfMemory>
    requires { length marks.now ≡ mark_words program.now.methods }
    ensures { IfOk result (λ found. (x : Point program.now.methods) → x.m ≡ at.method → x.l ≡ at.location →
        IsExact program.now.header x.method (has wanted.now) (has found)
        (IsBrokenFact (outline_of program.now marks.now) x)) }
{
    if at.method as usize >= program.methods.len()
        || at.location >= location_count(program, at.method)
    {
        return Ok(FactSet::empty());
    }
    let claimed = Claimed {
        oracle,
        program,
        at,
        marks,
    };
    claimed.broken(alloc, wanted)
}
