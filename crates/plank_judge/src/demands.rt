ghost use Rattle.std.specs.Prelude.{◌≡◌, ◌↔◌, IsTrue, IfOk, length};
ghost use Rattle.plank_prog.specs.declared.programs.Program.{Program};
ghost use Rattle.plank_marks.specs.Marks.{mark_words};
ghost use Rattle.plank_fact.specs.Obligations.{Fails};
ghost use Rattle.plank_judge.specs.Verdicts.{outline_of};

use plank_base::{Obligation, OutOfMemory};
use plank_bits::MarkWords;
use plank_prog::Program;
use std::alloc::Global;

/// Whoever decides, of one program and at any marks, which obligations fail.
pub trait Demands {
    /// The program that is asked about.
    ghost program: { Self → Program };

    fn program(&self) -> &Program
        ensures { result.now ≡ program self.now };

    /// Whether the obligation fails, where these marks are set.
    fn fails(
        &self,
        alloc: Global,
        obligation: &Obligation,
        marks: &MarkWords,
    ) -> Result<bool, OutOfMemory>
        requires { length marks.now ≡ mark_words (program self.now).methods }
        ensures { IfOk result (λ fails. IsTrue fails ↔
            Fails (outline_of (program self.now) marks.now) obligation.now) };
}
