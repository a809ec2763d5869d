ghost use Rattle.std.specs.Prelude.{◌≡◌};

use crate::numberings::Numbering;
use crate::sides::Side;
use plank_pic::Part;
use plank_prog::Header;
use plank_search::{Reads, Values};
use plank_walk::Reader;

/// What a search has decided so far of the picture before a step, or of the one after it.
#[derive(Clone, Copy)]
pub struct View<'n, 's, 'v> {
    pub numbering: &'n Numbering<'s>,
    pub values: &'v Values,
    pub side: Side,
}

impl<'n, 's, 'v> Reader for View<'n, 's, 'v> {
    ghost use Rattle.plank_search.specs.Assignments.{value_at};
    ghost use Rattle.plank_parts.specs.Numbers.{picture_of};

    ghost frame = { λ view. view.numbering.now.frame };

    ghost picture = { λ view. picture_of view.numbering.now view.side };

    ghost known = { λ view. value_at view.values.now };

    type Log = Reads;

    #[inline(always)]
    fn header(&self) -> &Header {
        self.numbering.shape().header
    }

    #[inline(always)]
    fn names(&self) -> u8 {
        self.numbering.shape().names
    }

    #[inline(always)]
    fn pointers(&self) -> u8 {
        self.numbering.shape().header.pointers.len() as u8
    }

    #[inline(always)]
    fn root(&self) -> Option<u8> {
        self.numbering.shape().root
    }

    #[inline(always)]
    fn says(&self, part: Part, log: &mut Reads) -> Result<bool, usize> {
        if !self.numbering.fits(part) {
            return Ok(false);
        }
        let number = self.numbering.number(self.side, part);
        match log.read(self.values, number) {
            Some(value) => Ok(value),
            None => Err(number),
        }
    }
}
