//! What a verdict says of runs, as a law: the function does nothing.
ghost use Rattle.std.specs.Prelude.{◌≡◌};
ghost use Rattle.plank_prog.specs.declared.programs.Program.{Program};
ghost use Rattle.plank_sem.specs.Runs.{AllRunsLinearizable, NoNullReads};
ghost use Rattle.plank_judge.specs.declared.verdicts.Verdict.{Verdict};
ghost use Rattle.plank_verdict.specs.declared.judging.Judged.{Judged};
ghost use Rattle.plank_verdict.specs.Judged.{IsJudged};

use plank_sound::laws::sound_outlines_law;

/// Where a program that was judged is accepted, every run of any number of threads has a history that is
/// linearizable to a set, and no run comes to a read or a write of a field of null.
pub fn accepted_runs_law()
    ensures linearizable { (p : Program) (judged : Judged) → IsJudged p judged →
        judged.verdict ≡ Verdict.Accepted → AllRunsLinearizable p.header p.methods }
    ensures no_null_reads { (p : Program) (judged : Judged) → IsJudged p judged →
        judged.verdict ≡ Verdict.Accepted → NoNullReads p.header p.methods }
{
    sound_outlines_law();
}
