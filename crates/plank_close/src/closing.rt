ghost use Rattle.plank_search.specs.Answers.{Propagates};
ghost use Rattle.plank_close.specs.Clauses.{Shows};

use crate::orders::Ordered;
use crate::saying::{Said, Sayer};
use plank_parts::{Numbering, Side};
use plank_pic::Part;
use plank_search::{Reads, Values};

/// Puts what follows in the picture before, or after, from the part of this number; false where
/// nothing that agrees with the values is a picture.
pub fn close(
    numbering: &Numbering<'_>,
    side: Side,
    number: usize,
    values: &mut Values,
    reads: &mut Reads,
) -> bool
    ensures { Propagates (Shows numbering.now side) values.old values.new result }
{
    let Some(of) = numbering.at(number) else {
        return true;
    };
    if numbering.number(side, of.part) != number {
        return true;
    }
    Sayer { numbering, side }.close_part(of.part, values, reads)
}

impl<'n, 's> Sayer<'n, 's> {
    fn close_part(self, part: Part, values: &mut Values, reads: &mut Reads) -> bool
        ensures { Propagates (Shows self.entry.numbering.now self.entry.side) values.old values.new result }
    {
        match self.known(part, values) {
            Some(value) => self.close_said(Said { part, value }, values, reads),
            None => true,
        }
    }

    fn close_said(self, said: Said, values: &mut Values, reads: &mut Reads) -> bool
        ensures { Propagates (Shows self.entry.numbering.now self.entry.side) values.old values.new result }
    {
        (!said.value || self.not_null(said.part, values, reads))
            && self.spread(said, values, reads)
            && self.close_kind(said, values, reads)
    }

    // What follows by the kind of the part.
    fn close_kind(self, said: Said, values: &mut Values, reads: &mut Reads) -> bool
        ensures { Propagates (Shows self.entry.numbering.now self.entry.side) values.old values.new result }
    {
        match said.part {
            Part::Null { name } => self.close_null(name, said.value, values, reads),
            Part::Same { left, right } => self.close_same(left, right, said.value, values, reads),
            Part::AtMost { left, right } => {
                let value = said.value;
                self.close_order(Ordered { left, right, value }, values, reads)
            }
            Part::Leads { at, to } => { !said.value || self.close_leads(at, to, values, reads) }
            Part::PointerNull { at } | Part::Beyond { at } => {
                self.close_unnamed(at, said.value, values, reads)
            }
            Part::SameBeyond { left, right } => {
                self.close_beyond(left, right, said.value, values, reads)
            }
            _ => true,
        }
    }
}
