ghost use Rattle.std.specs.Prelude.{◌≡◌, ◌≤◌, slice_get, Some, IfOk};
ghost use Rattle.plank_bits.specs.Words.{has};
ghost use Rattle.plank_prog.specs.declared.methods.Method.{Method};
ghost use Rattle.plank_query.specs.Situations.{names};
ghost use Rattle.plank_method.specs.Deciding.{IsExact};
ghost use Rattle.plank_shown.specs.Shown.{Arrives, IsShown, IsOfCall};

use crate::goals::goals;
use crate::numbers::{listed, spread};
use plank_base::OutOfMemory;
use plank_fact::FactSet;
use plank_past::{numbers_below, reached};
use plank_prog::Program;
use plank_query::{Claim, Oracle, Question, Situation};
use std::alloc::Global;

/// The pictures in which calls of a method may arrive: those after the steps of a situation, from pictures
/// of which the claims are right. And whoever is asked about them.
#[derive(Drop)]
pub struct Arrivals<'a, Q> {
    pub oracle: &'a Q,
    pub program: &'a Program,
    /// The number of the method.
    pub method: u32,
    pub situation: Situation<'a>,
    pub claims: &'a [Claim],
    pub ghost few: { names situation ≤ 16 },
    pub ghost own: { (m : Method) → slice_get program.now.methods method ≡ Some m → IsOfCall situation m },
}

impl<'a, Q: Oracle> Arrivals<'a, Q> {
    /// Those of the wanted facts that each of the pictures shows.
    pub fn shown(&self, alloc: Global, wanted: &FactSet) -> Result<FactSet, OutOfMemory>
        ensures { IfOk result (λ found. (m : Method) →
            slice_get self.now.program.now.methods self.now.method ≡ Some m →
            IsExact self.now.program.now.header m (has wanted.now) (has found)
            (IsShown m (Arrives self.now.program.now.header self.now.situation self.now.claims.now))) }
    {
        let list = listed(alloc, wanted)?;
        let numbers = list.as_slice();
        let asked = goals(alloc, self.program, self.method, numbers)?;
        let after = Vec::new(alloc);
        let question = Question {
            header: &self.program.header,
            situation: self.situation,
            before: self.claims,
            after: after.as_slice(),
            goals: asked.as_slice(),
        };
        let failing = reached(self.oracle, alloc, &question)?;
        let places = numbers_below(numbers.len() as u32).minus(&failing);
        Ok(spread(&FactSet::empty(), numbers, &places))
    }
}
