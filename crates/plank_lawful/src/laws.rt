ghost use Rattle.plank_pic.specs.Frames.{Frame};
ghost use Rattle.plank_pic.specs.Pictures.{Picture};
ghost use Rattle.plank_lawful.specs.Laws.{SaysNoOutside, RulesSayAll, ListsAll};

/// A law of rules: in a picture that says nothing of parts that its frame does not have, the rules
/// hold exactly where it is lawful, and those of possible pictures where it is possible. It does
/// nothing.
pub fn rules_law()
    ensures { (frame : Frame) (p : Picture) → SaysNoOutside frame p → RulesSayAll frame p }
{}

/// A law of lists: the list of the rules of a frame has each of them, and no other. It does nothing.
pub fn lists_law()
    ensures { (frame : Frame) → ListsAll frame }
{}
