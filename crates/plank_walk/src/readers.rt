ghost use Rattle.std.specs.Prelude.{◌≡◌, ℕ, Bool, Option, length};
ghost use Rattle.plank_pic.specs.Frames.{Frame};
ghost use Rattle.plank_pic.specs.Pictures.{Picture};
ghost use Rattle.plank_walk.specs.Settles.{Settles};

use plank_pic::Part;
use plank_prog::Header;

/// What is known of a picture. A reader answers what the picture says of a part, or, where that is
/// open, the number of a thing that it would need.
///
/// Every rule on pictures is written once, over a reader. A reader of a whole picture never needs
/// anything; a search reads what it has decided so far, and splits on what is needed.
pub trait Reader {
    // The structure, the names and the root of the picture.
    ghost frame: { Self → Frame };

    // The picture, for each assignment of values to what is read.
    ghost picture: { Self → (ℕ → Bool) → Picture };

    // The values that are known.
    ghost known: { Self → ℕ → Option Bool };

    /// What a search wants to note of each reading.
    type Log;

    fn header(&self) -> &Header
        ensures { result.now ≡ (frame self.now).header };

    fn names(&self) -> u8
        ensures { result ≡ (frame self.now).names };

    /// How many pointer fields a node has.
    fn pointers(&self) -> u8
        ensures { result ≡ length (frame self.now).header.pointers };

    fn root(&self) -> Option<u8>
        ensures { result ≡ (frame self.now).root };

    fn says(&self, part: Part, log: &mut Self::Log) -> Result<bool, usize>
        ensures { Settles (λ full. picture self.now full part) (known self.now) result };
}
