// Names that are null.
ghost use Rattle.std.specs.Prelude.{◌≡◌};
ghost use Rattle.plank_pic.specs.Lawful.{speaks_of};
ghost use Rattle.plank_search.specs.Answers.{Propagates};
ghost use Rattle.plank_close.specs.Clauses.{Shows};

use crate::names::names_in;
use crate::saying::{Said, Sayer};
use plank_pic::Part;
use plank_search::{Reads, Values};

// Whether a part says more of a name than its place in the order, or that it is null.
fn speaks_of(name: u8, part: Part) -> bool
    ensures { result ≡ speaks_of name part }
{
    match part {
        Part::Same { left, right } => left == name || right == name,
        Part::Flag { name: of, .. }
        | Part::Shared { name: of }
        | Part::Mine { name: of }
        | Part::Locked { name: of }
        | Part::LockMine { name: of }
        | Part::LockOthers { name: of }
        | Part::Visits { name: of, .. } => of == name,
        Part::PointerNull { at } | Part::Beyond { at } => at.name == name,
        Part::Leads { at, to } => at.name == name || to == name,
        Part::SameBeyond { left, right } => left.name == name || right.name == name,
        Part::Chain { from, to } | Part::Picks { from, to, .. } => from == name || to == name,
        Part::Null { .. }
        | Part::AtMost { .. }
        | Part::InSet { .. }
        | Part::Spent
        | Part::StopFlag { .. }
        | Part::StopVisited { .. } => false,
    }
}

impl<'n, 's> Sayer<'n, 's> {
    // Of a name that is null nothing is said.
    #[tactic(auto, using(crate::proofs::Laws::bare_law))]
    fn bare(self, name: u8, part: Part, values: &mut Values, reads: &mut Reads) -> bool
        ensures { Propagates (Shows self.entry.numbering.now self.entry.side) values.old values.new result }
    {
        if !speaks_of(name, part) {
            return true;
        }
        self.implies(
            Said {
                part: Part::Null { name },
                value: true,
            },
            Said { part, value: false },
            values,
            reads,
        )
    }

    // A name that is not null names its own node.
    #[tactic(auto, using(crate::proofs::Laws::itself_law))]
    fn itself(self, name: u8, values: &mut Values, reads: &mut Reads) -> bool
        ensures { Propagates (Shows self.entry.numbering.now self.entry.side) values.old values.new result }
    {
        if !self.numbering.fits(Part::Null { name }) {
            return true;
        }
        self.implies(
            Said {
                part: Part::Null { name },
                value: false,
            },
            Said {
                part: Part::Same {
                    left: name,
                    right: name,
                },
                value: true,
            },
            values,
            reads,
        )
    }

    /// The names of which a part speaks are not null.
    pub(crate) fn not_null(self, part: Part, values: &mut Values, reads: &mut Reads) -> bool
        ensures { Propagates (Shows self.entry.numbering.now self.entry.side) values.old values.new result }
    {
        for name in names_in(part) {
            if let Some(name) = name {
                if !self.bare(name, part, values, reads) {
                    return false;
                }
            }
        }
        true
    }

    fn all_bare(self, name: u8, values: &mut Values, reads: &mut Reads) -> bool
        ensures { Propagates (Shows self.entry.numbering.now self.entry.side) values.old values.new result }
    {
        for number in 0..self.numbering.len() {
            if let Some(part) = self.part_at(number) {
                if !self.bare(name, part, values, reads) {
                    return false;
                }
            }
        }
        true
    }

    /// What follows from whether a name is null.
    pub(crate) fn close_null(
        self,
        name: u8,
        value: bool,
        values: &mut Values,
        reads: &mut Reads,
    ) -> bool
        ensures { Propagates (Shows self.entry.numbering.now self.entry.side) values.old values.new result }
    {
        self.itself(name, values, reads) && (!value || self.all_bare(name, values, reads))
    }
}
