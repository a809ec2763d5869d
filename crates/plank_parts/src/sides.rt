ghost use Rattle.std.specs.Prelude.{◌≡◌, Bool};
ghost use Rattle.plank_pic.specs.declared.parts.Part.{Part};

use plank_pic::Part;

/// Which of two pictures: the one before a step, or the one after it.
#[derive(Clone, Copy, PartialEq, Eq, Debug)]
pub enum Side {
    Before,
    After,
}

/// What a number is of.
#[derive(Clone, Copy, PartialEq, Eq, Debug)]
pub struct Numbered {
    pub part: Part,
    pub side: Side,
}

/// Which parts a step keeps: they have one number for the picture before and the picture after.
pub trait Keeps {
    ghost keeps: { Self → Part → Bool };

    fn keeps(&self, part: Part) -> bool
        ensures { result ≡ keeps self.now part };
}

/// Every part is kept: there is one picture.
#[derive(Clone, Copy, PartialEq, Eq, Debug)]
pub struct KeepsAll;

impl Keeps for KeepsAll {
    ghost use Rattle.std.specs.Prelude.{true};

    ghost keeps = { λ _ _. true };

    fn keeps(&self, _part: Part) -> bool {
        true
    }
}
