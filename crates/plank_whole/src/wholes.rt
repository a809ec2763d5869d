ghost use Rattle.std.specs.Prelude.{◌≡◌, false};
ghost use Rattle.plank_pic.specs.declared.parts.Part.{Part};
ghost use Rattle.plank_parts.specs.Shapes as shapes;
ghost use Rattle.plank_whole.specs.Wholes.{frame_of, shown, SaysBesides};

use plank_parts::{CODES, Shape, part_code};
use plank_pic::Part;
use plank_prog::Header;
use plank_walk::Reader;

/// A whole picture: a truth for each part that its frame has.
///
/// It is made of parts that are put to yes, and copied.
#[derive(Clone, Copy)]
pub struct Picture<'a> {
    /// The structure, the names and the root.
    pub shape: Shape<'a>,
    pub(crate) said: [bool; CODES],
}

impl<'a> Picture<'a> {
    /// The picture that says yes of nothing.
    pub fn new(shape: Shape<'a>) -> Picture<'a>
        ensures frame { frame_of result ≡ shapes.frame_of shape.entry }
        ensures nothing { (part : Part) → shown result part ≡ false }
    {
        Picture {
            shape,
            said: [false; CODES],
        }
    }

    /// Says yes of a part, if its frame has it.
    pub fn put(&mut self, part: Part)
        ensures frame { frame_of self.new ≡ frame_of self.old }
        ensures part { SaysBesides (frame_of self.old) part (shown self.old) (shown self.new) }
    {
        if self.shape.fits(part) {
            self.said[part_code(part)] = true;
        }
    }

    /// Whether it says yes of a part.
    pub fn has(&self, part: Part) -> bool
        ensures { result ≡ shown self.now part }
    {
        self.shape.fits(part) && self.said.get(part_code(part)).copied().unwrap_or(false)
    }
}

impl<'a> Reader for Picture<'a> {
    ghost use Rattle.std.specs.Prelude.{Some, false};
    ghost use Rattle.plank_whole.specs.Wholes.{frame_of, shown};

    ghost frame = { frame_of };

    ghost picture = { λ w full. shown w };

    // Nothing of it is open.
    ghost known = { λ w n. Some false };

    type Log = ();

    fn header(&self) -> &Header {
        self.shape.header
    }

    fn names(&self) -> u8 {
        self.shape.names
    }

    fn pointers(&self) -> u8 {
        self.shape.header.pointers.len() as u8
    }

    fn root(&self) -> Option<u8> {
        self.shape.root
    }

    fn says(&self, part: Part, _log: &mut ()) -> Result<bool, usize> {
        Ok(self.has(part))
    }
}
