ghost use Rattle.std.specs.Prelude.{ℕ, Option};
ghost use Rattle.plank_prog.specs.declared.headers.Header.{Header};
ghost use Rattle.plank_pic.specs.declared.parts.Part.{Part};
ghost use Rattle.plank_pic.specs.Frames.{Frame};
ghost use Rattle.plank_pic.specs.Pictures.{Picture};
ghost use Rattle.plank_pic.specs.Steps.{Change, Source};
ghost use Rattle.plank_query.specs.declared.situations.Situation.{Situation};
ghost use Rattle.plank_reach.specs.Kept.{KeepsPart};
ghost use Rattle.plank_reach.specs.Laws.{StepIsTests};

/// A law of steps: the step of a situation is its tests. It does nothing.
pub fn tests_law()
    ensures { (header : Header) (S : Situation) (before after : Picture) → StepIsTests header S before after }
{}

/// A law of what is kept: what a step keeps is after it as before. It does nothing.
pub fn kept_law()
    ensures { (frame : Frame) (change : Option Change) (from : ℕ → Source) (before : Picture) (part : Part) →
        KeepsPart frame change from before part }
{}
