ghost use Rattle.std.specs.Prelude.{◌≡◌, length, IfOk};
ghost use Rattle.plank_bits.specs.Words.{has};
ghost use Rattle.plank_fact.specs.Forced.{AreLeastMarks, IsValid};
ghost use Rattle.plank_marks.specs.Marks.{mark_words};
ghost use Rattle.plank_judge.specs.Verdicts.{outline_of};
ghost use Rattle.plank_verdict.specs.Judged.{IsJudged};

use crate::effects::list_effects;
use plank_base::OutOfMemory;
use plank_bits::MarkWords;
use plank_judge::{Demands, Effect, Verdict, judge};
use plank_query::Oracle;
use sqlite_items::Items;
use std::alloc::Global;

/// What is said of a program at its least marks.
#[derive(Debug, Drop)]
pub struct Judged {
    /// Its effects, in the order of the text.
    pub effects: Items<Effect>,
    pub verdict: Verdict,
}

/// Judges a program at its least marks, where each claim is justified.
pub fn judge_at<Q: Oracle, J: Demands>(
    alloc: Global,
    oracle: &Q,
    demands: &J,
    marks: &MarkWords,
) -> Result<Judged, OutOfMemory>
    requires words { length marks.now ≡ mark_words (J.program demands.now).methods }
    requires least { AreLeastMarks (J.program demands.now).header (J.program demands.now).methods
        (has marks.now) }
    requires valid { IsValid (outline_of (J.program demands.now) marks.now) }
    ensures { IfOk result (IsJudged (J.program demands.now)) }
{
    let effects = list_effects(alloc, oracle, demands.program(), marks)?;
    let verdict = judge(alloc, demands, marks)?;
    Ok(Judged { effects, verdict })
}
