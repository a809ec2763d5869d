ghost use Rattle.std.specs.Prelude.{◌≡◌, ℕ, slice_get, Some, length, IfOk};
ghost use Rattle.plank_bits.specs.Words.{has};
ghost use Rattle.plank_prog.specs.declared.methods.Method.{Method};
ghost use Rattle.plank_prog.specs.declared.programs.Program.{Program};
ghost use Rattle.plank_fact.specs.Outlines.{Point};
ghost use Rattle.plank_fact.specs.After.{IsAtEntry, IsAfter};
ghost use Rattle.plank_method.specs.Deciding.{outline_of, IsExact};
ghost use Rattle.plank_unit.specs.Units.{IsBrokenFact};
ghost use Rattle.plank_marks.specs.Marks.{mark_words};

use plank_base::OutOfMemory;
use plank_bits::MarkWords;
use plank_fact::FactSet;
use plank_marks::At;
use plank_pic::Exit;
use plank_prog::Program;
use std::alloc::Global;

/// Whoever decides, of one program and at any marks, which facts calls have and which claims steps of
/// other calls break. Each is asked of some facts, by their numbers; of others the answer says nothing.
pub trait Deciding {
    /// The program that is asked about.
    ghost program: { Self → Program };

    fn program(&self) -> &Program
        ensures { result.now ≡ program self.now };

    /// Which of the wanted facts a call of the method has where it begins.
    fn entry(
        &self,
        alloc: Global,
        method: u32,
        wanted: &FactSet,
        marks: &MarkWords,
    ) -> Result<FactSet, OutOfMemory>
        requires { length marks.now ≡ mark_words (program self.now).methods }
        ensures { IfOk result (λ known. (m : Method) →
            slice_get (program self.now).methods method ≡ Some m →
            IsExact (program self.now).header m (has wanted.now) (has known)
            (IsAtEntry (outline_of (program self.now) marks.now) m)) };

    /// Which of the wanted facts a call has after the action of the location, by the exit.
    fn after(
        &self,
        alloc: Global,
        at: At,
        exit: Exit,
        wanted: &FactSet,
        marks: &MarkWords,
    ) -> Result<FactSet, OutOfMemory>
        requires { length marks.now ≡ mark_words (program self.now).methods }
        ensures { IfOk result (λ known. (x : Point (program self.now).methods) → x.m ≡ at.method →
            x.l ≡ at.location → IsExact (program self.now).header x.method (has wanted.now) (has known)
            (IsAfter (outline_of (program self.now) marks.now) x exit)) };

    /// Which of the wanted facts of the location steps of other calls may break.
    fn broken(
        &self,
        alloc: Global,
        at: At,
        wanted: &FactSet,
        marks: &MarkWords,
    ) -> Result<FactSet, OutOfMemory>
        requires { length marks.now ≡ mark_words (program self.now).methods }
        ensures { IfOk result (λ found. (x : Point (program self.now).methods) → x.m ≡ at.method →
            x.l ≡ at.location → IsExact (program self.now).header x.method (has wanted.now) (has found)
            (IsBrokenFact (outline_of (program self.now) marks.now) x)) };
}
