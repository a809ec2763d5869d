ghost use Rattle.std.specs.Prelude.{ℕ, Option};
ghost use Rattle.plank_pic.specs.Frames.{Frame};
ghost use Rattle.plank_pic.specs.Pictures.{Picture};
ghost use Rattle.plank_pic.specs.Steps.{Change, Source};
ghost use Rattle.plank_pic.specs.EachName.{VisitsGoOnAlike};
ghost use Rattle.plank_pic.specs.TestedSteps.{StepsAlike};

/// A law of visits: that a visited name sends its key on to the least name that its edge leads to
/// says the same as that it sends it on to each. It does nothing.
pub fn visits_law()
    ensures { (frame : Frame) (p : Picture) → VisitsGoOnAlike frame p }
{}

/// A law of steps: a step by way of a picture between is one test for each part of the picture
/// after, which is possible. It does nothing.
pub fn steps_law()
    ensures { (frame : Frame) (change : Option Change) (from : ℕ → Source) (before after : Picture) →
        StepsAlike frame change from before after }
{}
