//! The law. The function is empty: what it ensures is the law.
ghost use Rattle.plank_pic.specs.Frames.{Frame};
ghost use Rattle.plank_pic.specs.Pictures.{Picture};
ghost use Rattle.plank_pic.specs.Steps.{Change};
ghost use Rattle.plank_stay.specs.Stays.{WritesLeaveSo};

/// What a write leaves of a visit bit: where both walks meet again, what is visited stays visited.
pub fn stays_law()
    ensures { (F : Frame) (B A : Picture) (c : Change) → WritesLeaveSo F B A c }
{}
