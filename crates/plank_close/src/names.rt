// Names of one node: which are, and that each part says the same of them.
ghost use Rattle.std.specs.Prelude.{◌≡◌};
ghost use Rattle.plank_search.specs.Answers.{Propagates};
ghost use Rattle.plank_close.specs.Clauses.{Shows};

use crate::saying::{Said, Sayer};
use plank_parts::Side;
use plank_pic::{Part, Term};
use plank_search::{Reads, Values};
use plank_walk::read_as;

fn name_of(term: Term) -> Option<u8> {
    match term {
        Term::Node(name) => Some(name),
        _ => None,
    }
}

/// The names of which a part speaks.
pub(crate) fn names_in(part: Part) -> [Option<u8>; 2] {
    match part {
        Part::Null { name }
        | Part::Shared { name }
        | Part::Mine { name }
        | Part::Locked { name }
        | Part::LockMine { name }
        | Part::LockOthers { name }
        | Part::Flag { name, .. }
        | Part::Visits { name, .. } => [Some(name), None],
        Part::PointerNull { at } | Part::Beyond { at } => [Some(at.name), None],
        Part::Same { left, right } => [Some(left), Some(right)],
        Part::Leads { at, to } => [Some(at.name), Some(to)],
        Part::SameBeyond { left, right } => [Some(left.name), Some(right.name)],
        Part::AtMost { left, right } => [name_of(left), name_of(right)],
        Part::Chain { from, to } | Part::Picks { from, to, .. } => [Some(from), Some(to)],
        Part::InSet { .. } | Part::Spent | Part::StopFlag { .. } | Part::StopVisited { .. } => {
            [None, None]
        }
    }
}

// The names of which what a part says is spread.
fn spread_names(part: Part) -> [Option<u8>; 2] {
    match part {
        Part::Same { .. } => [None, None],
        _ => names_in(part),
    }
}

/// Whether two names are one node.
#[derive(Clone, Copy)]
struct Alike {
    left: u8,
    right: u8,
    value: bool,
}

impl<'n, 's> Sayer<'n, 's> {
    /// The part of a number of the picture before.
    pub(crate) fn part_at(self, number: usize) -> Option<Part> {
        let of = self.numbering.at(number)?;
        match of.side {
            Side::Before => Some(of.part),
            Side::After => None,
        }
    }

    // Whether two names are one node does not go by their order.
    #[tactic(auto, using(crate::proofs::Laws::same_back_law))]
    fn same_back(
        self,
        left: u8,
        right: u8,
        value: bool,
        values: &mut Values,
        reads: &mut Reads,
    ) -> bool
        ensures { Propagates (Shows self.entry.numbering.now self.entry.side) values.old values.new result }
    {
        self.implies(
            Said {
                part: Part::Same { left, right },
                value,
            },
            Said {
                part: Part::Same {
                    left: right,
                    right: left,
                },
                value,
            },
            values,
            reads,
        )
    }

    // Two names of one node are the same for each third.
    #[tactic(auto, using(crate::proofs::Laws::same_on_law))]
    fn same_on(
        self,
        first: u8,
        second: u8,
        third: u8,
        values: &mut Values,
        reads: &mut Reads,
    ) -> bool
        ensures { Propagates (Shows self.entry.numbering.now self.entry.side) values.old values.new result }
    {
        self.clause(
            Said {
                part: Part::Same {
                    left: first,
                    right: second,
                },
                value: false,
            },
            Said {
                part: Part::Same {
                    left: second,
                    right: third,
                },
                value: false,
            },
            Said {
                part: Part::Same {
                    left: first,
                    right: third,
                },
                value: true,
            },
            values,
            reads,
        )
    }

    // Two names, that are one node or are not, with a third.
    fn same_with(self, pair: Alike, other: u8, values: &mut Values, reads: &mut Reads) -> bool
        ensures { Propagates (Shows self.entry.numbering.now self.entry.side) values.old values.new result }
    {
        let Alike { left, right, value } = pair;
        if value {
            self.same_on(left, right, other, values, reads)
                && self.same_on(other, left, right, values, reads)
        } else {
            self.same_on(left, other, right, values, reads)
        }
    }

    fn same_with_all(self, pair: Alike, values: &mut Values, reads: &mut Reads) -> bool
        ensures { Propagates (Shows self.entry.numbering.now self.entry.side) values.old values.new result }
    {
        for other in 0..self.numbering.shape().names {
            if !self.same_with(pair, other, values, reads) {
                return false;
            }
        }
        true
    }

    // A part says the same of two names of one node, of which the second stands in it.
    #[tactic(auto, using(crate::proofs::Laws::alike_law))]
    fn alike(self, said: Said, other: u8, name: u8, values: &mut Values, reads: &mut Reads) -> bool
        ensures { Propagates (Shows self.entry.numbering.now self.entry.side) values.old values.new result }
    {
        if !self.numbering.fits(said.part) {
            return true;
        }
        self.clause(
            Said {
                part: Part::Same {
                    left: other,
                    right: name,
                },
                value: false,
            },
            Said {
                part: said.part,
                value: !said.value,
            },
            Said {
                part: read_as(said.part, other, name),
                value: said.value,
            },
            values,
            reads,
        )
    }

    // What a part says of a name, to the other names of its node.
    fn spread_name(self, said: Said, name: u8, values: &mut Values, reads: &mut Reads) -> bool
        ensures { Propagates (Shows self.entry.numbering.now self.entry.side) values.old values.new result }
    {
        for other in 0..self.numbering.shape().names {
            if other != name && !self.alike(said, other, name, values, reads) {
                return false;
            }
        }
        true
    }

    /// What a part says of its names, to the other names of their nodes. That names are one node is
    /// left to what `close_same` puts.
    pub(crate) fn spread(self, said: Said, values: &mut Values, reads: &mut Reads) -> bool
        ensures { Propagates (Shows self.entry.numbering.now self.entry.side) values.old values.new result }
    {
        for name in spread_names(said.part) {
            if let Some(name) = name {
                if !self.spread_name(said, name, values, reads) {
                    return false;
                }
            }
        }
        true
    }

    // What a part says of a name, to another name of its node.
    fn spread_to(
        self,
        part: Part,
        other: u8,
        name: u8,
        values: &mut Values,
        reads: &mut Reads,
    ) -> bool
        ensures { Propagates (Shows self.entry.numbering.now self.entry.side) values.old values.new result }
    {
        let [first, second] = names_in(part);
        if first != Some(name) && second != Some(name) {
            return true;
        }
        match self.known(part, values) {
            Some(value) => self.alike(Said { part, value }, other, name, values, reads),
            None => true,
        }
    }

    // What all parts say of a name, to another name of its node. Each part has a number of the
    // picture before, so those of the picture after bring no other.
    fn spread_all(self, other: u8, name: u8, values: &mut Values, reads: &mut Reads) -> bool
        ensures { Propagates (Shows self.entry.numbering.now self.entry.side) values.old values.new result }
    {
        for number in 0..self.numbering.len() {
            if let Some(part) = self.part_at(number) {
                if !self.spread_to(part, other, name, values, reads) {
                    return false;
                }
            }
        }
        true
    }

    /// What follows from whether two names are one node.
    pub(crate) fn close_same(
        self,
        left: u8,
        right: u8,
        value: bool,
        values: &mut Values,
        reads: &mut Reads,
    ) -> bool
        ensures { Propagates (Shows self.entry.numbering.now self.entry.side) values.old values.new result }
    {
        if left == right {
            return true;
        }
        if !self.same_back(left, right, value, values, reads)
            || !self.same_with_all(Alike { left, right, value }, values, reads)
        {
            return false;
        }
        !value || self.spread_all(left, right, values, reads)
    }
}
