ghost use Rattle.std.specs.Prelude.{ℕ};
ghost use Rattle.plank_pic.specs.declared.parts.KeyName.{KeyName};
ghost use Rattle.plank_pic.specs.Frames.{Frame};
ghost use Rattle.plank_pic.specs.Pictures.{Picture};
ghost use Rattle.plank_pic.specs.Outcomes.{outcome};
ghost use Rattle.plank_walk.specs.Laws.{ComesTo, NamesWalkAlike, FrameDecides};

/// A law of outcomes: a walk ends at a name without an edge, stops in a chain, leaves by a pointer
/// to an outside node, or passes as many names as there are and so one of them twice. It does
/// nothing.
pub fn outcomes_law()
    ensures { (frame : Frame) (p : Picture) (key : KeyName) (name : ℕ) →
        ComesTo frame p key name (outcome frame p key name) }
{}

/// A law of names: the walks from two names of one node come to the same, enter chains alike and
/// pass the same nodes. It does nothing.
pub fn names_law()
    ensures { (frame : Frame) (p : Picture) → NamesWalkAlike frame p }
{}

/// A law of frames: pictures that say the same of each part of their frame are one picture, so that
/// no rule reads anything else. It does nothing.
pub fn frames_law()
    ensures { (frame : Frame) (p other : Picture) → FrameDecides frame p other }
{}
