ghost use Rattle.std.specs.Prelude.{◌≡◌, length, slice_get, Some, IfOk};
ghost use Rattle.plank_bits.specs.Words.{has};
ghost use Rattle.plank_prog.specs.declared.methods.Method.{Method};
ghost use Rattle.plank_marks.specs.Marks.{mark_words};
ghost use Rattle.plank_method.specs.Deciding.{outline_of, IsExact};
ghost use Rattle.plank_follow.specs.Known.{IsKnownFrom};

use crate::kinds::{of_kind, wants_past};
use crate::literals::{lasting, presents};
use crate::rules::Rules;
use plank_base::OutOfMemory;
use plank_bits::MarkWords;
use plank_fact::FactSet;
use plank_query::Oracle;
use plank_shown::Arrivals;
use std::alloc::Global;

/// What calls know in pictures in which they may arrive, at some marks.
#[derive(Drop)]
pub struct Following<'a, Q> {
    pub arrivals: Arrivals<'a, Q>,
    pub marks: &'a MarkWords,
    pub ghost marks_fit: { length marks.now ≡ mark_words arrivals.program.now.methods },
}

impl<'a, Q: Oracle> Following<'a, Q> {
    // What follows from all that each picture shows, and from what is carried.
    fn followed(
        &self,
        alloc: Global,
        carried: &FactSet,
        wanted: &FactSet,
    ) -> Result<FactSet, OutOfMemory>
        ensures { IfOk result (λ found. (m : Method) →
            slice_get self.now.arrivals.program.now.methods self.now.arrivals.method ≡ Some m →
            IsExact self.now.arrivals.program.now.header m (has wanted.now) (has found)
            (IsKnownFrom (outline_of self.now.arrivals.program.now self.now.marks.now) m self.now.arrivals.situation
            self.now.arrivals.claims.now (has carried.now))) }
    {
        let arrivals = &self.arrivals;
        let program = arrivals.program;
        let method = arrivals.method;
        let past = of_kind(program, method, true);
        let all = of_kind(program, method, false).union(&past);
        let shown = arrivals.shown(alloc, &all)?;
        let lasting = lasting(alloc, program, method, &shown)?;
        let presents = presents(alloc, program, method, &shown)?;
        let rules = Rules {
            oracle: arrivals.oracle,
            program,
            method,
            marks: self.marks,
            past: &past,
            lasting: lasting.as_slice(),
            presents: presents.as_slice(),
        };
        let start = shown.union(&carried.meet(&past));
        rules.follow(alloc, &start, &wanted.meet(&past))
    }

    /// Those of the wanted facts that a call has in each of the pictures, where a set has the past facts that
    /// are carried there.
    pub fn known(
        &self,
        alloc: Global,
        carried: &FactSet,
        wanted: &FactSet,
    ) -> Result<FactSet, OutOfMemory>
        ensures { IfOk result (λ found. (m : Method) →
            slice_get self.now.arrivals.program.now.methods self.now.arrivals.method ≡ Some m →
            IsExact self.now.arrivals.program.now.header m (has wanted.now) (has found)
            (IsKnownFrom (outline_of self.now.arrivals.program.now self.now.marks.now) m self.now.arrivals.situation
            self.now.arrivals.claims.now (has carried.now))) }
    {
        let program = self.arrivals.program;
        let past = of_kind(program, self.arrivals.method, true);
        let had = carried.meet(&past);
        let open = wanted.minus(&had);
        if wants_past(program, self.arrivals.method, &open) {
            self.followed(alloc, carried, wanted)
        } else {
            let shown = self.arrivals.shown(alloc, &open)?;
            Ok(shown.union(&had))
        }
    }
}
