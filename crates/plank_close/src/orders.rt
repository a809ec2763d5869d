// The order of keys: it is transitive, and any two keys compare.
ghost use Rattle.plank_search.specs.Answers.{Propagates};
ghost use Rattle.plank_close.specs.Clauses.{Shows};

use crate::saying::{Said, Sayer};
use plank_pic::{KeyName, Part, Term};
use plank_search::{Reads, Values};

/// Whether the one of two keys lies at or below the other.
#[derive(Clone, Copy)]
pub(crate) struct Ordered {
    pub(crate) left: Term,
    pub(crate) right: Term,
    pub(crate) value: bool,
}

// The terms that are no names': the ends, the walked keys, and the stop nodes.
fn other_term(index: u8) -> Term {
    match index {
        0 => Term::Min,
        1 => Term::Max,
        2 => Term::Walked(KeyName::Own),
        3 => Term::Walked(KeyName::Other),
        4 => Term::Walked(KeyName::Any),
        5 => stop(KeyName::Own, 0),
        6 => stop(KeyName::Own, 1),
        7 => stop(KeyName::Other, 0),
        8 => stop(KeyName::Other, 1),
        9 => stop(KeyName::Any, 0),
        _ => stop(KeyName::Any, 1),
    }
}

fn stop(key: KeyName, slot: u8) -> Term {
    Term::Stop { key, slot }
}

impl<'n, 's> Sayer<'n, 's> {
    // What lies at or above a key lies at or above those below it.
    #[tactic(auto, using(crate::proofs::Laws::in_order_law))]
    fn in_order(
        self,
        low: Term,
        middle: Term,
        high: Term,
        values: &mut Values,
        reads: &mut Reads,
    ) -> bool
        ensures { Propagates (Shows self.entry.numbering.now self.entry.side) values.old values.new result }
    {
        self.clause(
            Said {
                part: Part::AtMost {
                    left: low,
                    right: middle,
                },
                value: false,
            },
            Said {
                part: Part::AtMost {
                    left: middle,
                    right: high,
                },
                value: false,
            },
            Said {
                part: Part::AtMost {
                    left: low,
                    right: high,
                },
                value: true,
            },
            values,
            reads,
        )
    }

    // Two keys, that lie so or do not, in order with a third.
    fn in_order_with(
        self,
        pair: Ordered,
        other: Term,
        values: &mut Values,
        reads: &mut Reads,
    ) -> bool
        ensures { Propagates (Shows self.entry.numbering.now self.entry.side) values.old values.new result }
    {
        let Ordered { left, right, value } = pair;
        if value {
            self.in_order(left, right, other, values, reads)
                && self.in_order(other, left, right, values, reads)
        } else {
            self.in_order(left, other, right, values, reads)
        }
    }

    // Any two keys compare.
    #[tactic(auto, using(crate::proofs::Laws::total_law))]
    fn total(self, left: Term, right: Term, values: &mut Values, reads: &mut Reads) -> bool
        ensures { Propagates (Shows self.entry.numbering.now self.entry.side) values.old values.new result }
    {
        if !self.numbering.fits(Part::AtMost { left, right }) {
            return true;
        }
        self.implies(
            Said {
                part: Part::AtMost { left, right },
                value: false,
            },
            Said {
                part: Part::AtMost {
                    left: right,
                    right: left,
                },
                value: true,
            },
            values,
            reads,
        )
    }

    fn in_order_with_names(self, pair: Ordered, values: &mut Values, reads: &mut Reads) -> bool
        ensures { Propagates (Shows self.entry.numbering.now self.entry.side) values.old values.new result }
    {
        for name in 0..self.numbering.shape().names {
            if !self.in_order_with(pair, Term::Node(name), values, reads) {
                return false;
            }
        }
        true
    }

    fn in_order_with_others(self, pair: Ordered, values: &mut Values, reads: &mut Reads) -> bool
        ensures { Propagates (Shows self.entry.numbering.now self.entry.side) values.old values.new result }
    {
        for index in 0..self.other_terms() {
            if !self.in_order_with(pair, other_term(index), values, reads) {
                return false;
            }
        }
        true
    }

    // How many terms are no names'.
    fn other_terms(self) -> u8 {
        if self.numbering.shape().header.freeze.is_some() {
            11
        } else {
            5
        }
    }

    /// What follows from how two keys compare.
    pub(crate) fn close_order(self, pair: Ordered, values: &mut Values, reads: &mut Reads) -> bool
        ensures { Propagates (Shows self.entry.numbering.now self.entry.side) values.old values.new result }
    {
        self.total(pair.left, pair.right, values, reads)
            && self.in_order_with_names(pair, values, reads)
            && self.in_order_with_others(pair, values, reads)
    }
}
