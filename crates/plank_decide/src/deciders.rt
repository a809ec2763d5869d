use plank_base::OutOfMemory;
use plank_bits::MarkWords;
use plank_fact::FactSet;
use plank_marks::At;
use plank_method::Deciding;
use plank_pic::Exit;
use plank_prog::Program;
use plank_query::Oracle;
use plank_rely::broken;
use plank_trans::{after, entry};
use std::alloc::Global;

/// Decides what calls of a program know, by asking whoever answers questions about pictures.
#[derive_where(Clone, Copy)]
pub struct Decider<'a, Q> {
    pub oracle: &'a Q,
    pub program: &'a Program,
}

impl<'a, Q: Oracle> Deciding for Decider<'a, Q> {
    ghost program = { λ decider. decider.program.now };

    fn program(&self) -> &Program {
        self.program
    }

    fn entry(
        &self,
        alloc: Global,
        method: u32,
        wanted: &FactSet,
        marks: &MarkWords,
    ) -> Result<FactSet, OutOfMemory> {
        entry(alloc, self.oracle, self.program, method, wanted, marks)
    }

    fn after(
        &self,
        alloc: Global,
        at: At,
        exit: Exit,
        wanted: &FactSet,
        marks: &MarkWords,
    ) -> Result<FactSet, OutOfMemory> {
        after(alloc, self.oracle, self.program, (at, exit), wanted, marks)
    }

    fn broken(
        &self,
        alloc: Global,
        at: At,
        wanted: &FactSet,
        marks: &MarkWords,
    ) -> Result<FactSet, OutOfMemory> {
        broken(alloc, self.oracle, self.program, at, wanted, marks)
    }
}
