// Where pointers lead: to one node at most, null, or outside.
ghost use Rattle.std.specs.Prelude.{◌≡◌};
ghost use Rattle.plank_search.specs.Answers.{Propagates};
ghost use Rattle.plank_close.specs.Clauses.{Shows};

use crate::saying::{Said, Sayer};
use plank_pic::{Part, Place};
use plank_search::{Reads, Values};

/// Whether two pointers lead to one outside node.
#[derive(Clone, Copy)]
struct Together {
    left: Place,
    right: Place,
    value: bool,
}

impl<'n, 's> Sayer<'n, 's> {
    // Two names to which a pointer leads are one node.
    #[tactic(auto, using(crate::proofs::Laws::one_target_law))]
    fn one_target(
        self,
        at: Place,
        to: u8,
        other: u8,
        values: &mut Values,
        reads: &mut Reads,
    ) -> bool
        ensures { Propagates (Shows self.entry.numbering.now self.entry.side) values.old values.new result }
    {
        self.clause(
            Said {
                part: Part::Leads { at, to },
                value: false,
            },
            Said {
                part: Part::Leads { at, to: other },
                value: false,
            },
            Said {
                part: Part::Same {
                    left: to,
                    right: other,
                },
                value: true,
            },
            values,
            reads,
        )
    }

    // A pointer that leads to a named node is not null.
    #[tactic(auto, using(crate::proofs::Laws::led_not_null_law))]
    fn led_not_null(self, at: Place, to: u8, values: &mut Values, reads: &mut Reads) -> bool
        ensures { Propagates (Shows self.entry.numbering.now self.entry.side) values.old values.new result }
    {
        self.implies(
            Said {
                part: Part::Leads { at, to },
                value: true,
            },
            Said {
                part: Part::PointerNull { at },
                value: false,
            },
            values,
            reads,
        )
    }

    // And does not lead outside.
    #[tactic(auto, using(crate::proofs::Laws::led_not_beyond_law))]
    fn led_not_beyond(self, at: Place, to: u8, values: &mut Values, reads: &mut Reads) -> bool
        ensures { Propagates (Shows self.entry.numbering.now self.entry.side) values.old values.new result }
    {
        self.implies(
            Said {
                part: Part::Leads { at, to },
                value: true,
            },
            Said {
                part: Part::Beyond { at },
                value: false,
            },
            values,
            reads,
        )
    }

    #[tactic(auto, using(crate::proofs::Laws::null_not_beyond_law))]
    fn null_not_beyond(self, at: Place, values: &mut Values, reads: &mut Reads) -> bool
        ensures { Propagates (Shows self.entry.numbering.now self.entry.side) values.old values.new result }
    {
        self.implies(
            Said {
                part: Part::PointerNull { at },
                value: true,
            },
            Said {
                part: Part::Beyond { at },
                value: false,
            },
            values,
            reads,
        )
    }

    /// What follows where a pointer leads to a named node.
    pub(crate) fn close_leads(
        self,
        at: Place,
        to: u8,
        values: &mut Values,
        reads: &mut Reads,
    ) -> bool
        ensures { Propagates (Shows self.entry.numbering.now self.entry.side) values.old values.new result }
    {
        if !self.led_not_null(at, to, values, reads)
            || !self.led_not_beyond(at, to, values, reads)
        {
            return false;
        }
        for other in 0..self.numbering.shape().names {
            if !self.one_target(at, to, other, values, reads) {
                return false;
            }
        }
        true
    }

    /// What follows from whether a pointer is null, or from whether it leads outside.
    pub(crate) fn close_unnamed(
        self,
        at: Place,
        value: bool,
        values: &mut Values,
        reads: &mut Reads,
    ) -> bool
        ensures { Propagates (Shows self.entry.numbering.now self.entry.side) values.old values.new result }
    {
        self.beyond_itself(at, values, reads) && (!value || self.not_led(at, values, reads))
    }

    // A pointer that is null or leads outside leads nowhere else.
    fn not_led(self, at: Place, values: &mut Values, reads: &mut Reads) -> bool
        ensures { Propagates (Shows self.entry.numbering.now self.entry.side) values.old values.new result }
    {
        if !self.null_not_beyond(at, values, reads) {
            return false;
        }
        for to in 0..self.numbering.shape().names {
            if !self.led_not_null(at, to, values, reads)
                || !self.led_not_beyond(at, to, values, reads)
            {
                return false;
            }
        }
        true
    }

    fn beyond_itself(self, at: Place, values: &mut Values, reads: &mut Reads) -> bool
        ensures { Propagates (Shows self.entry.numbering.now self.entry.side) values.old values.new result }
    {
        self.itself_beyond(at, true, values, reads) && self.itself_beyond(at, false, values, reads)
    }

    // A pointer that leads outside leads where itself does.
    #[tactic(auto, using(crate::proofs::Laws::beyond_itself_law))]
    fn itself_beyond(self, at: Place, value: bool, values: &mut Values, reads: &mut Reads) -> bool
        ensures { Propagates (Shows self.entry.numbering.now self.entry.side) values.old values.new result }
    {
        if !self.numbering.fits(Part::Beyond { at }) {
            return true;
        }
        self.implies(
            Said {
                part: Part::Beyond { at },
                value,
            },
            Said {
                part: Part::SameBeyond {
                    left: at,
                    right: at,
                },
                value,
            },
            values,
            reads,
        )
    }

    // Whether two lead to one outside node does not go by their order.
    #[tactic(auto, using(crate::proofs::Laws::beyond_back_law))]
    fn beyond_back(
        self,
        left: Place,
        right: Place,
        value: bool,
        values: &mut Values,
        reads: &mut Reads,
    ) -> bool
        ensures { Propagates (Shows self.entry.numbering.now self.entry.side) values.old values.new result }
    {
        self.implies(
            Said {
                part: Part::SameBeyond { left, right },
                value,
            },
            Said {
                part: Part::SameBeyond {
                    left: right,
                    right: left,
                },
                value,
            },
            values,
            reads,
        )
    }

    // Two that do are the same for each third.
    #[tactic(auto, using(crate::proofs::Laws::beyond_on_law))]
    fn beyond_on(
        self,
        first: Place,
        second: Place,
        third: Place,
        values: &mut Values,
        reads: &mut Reads,
    ) -> bool
        ensures { Propagates (Shows self.entry.numbering.now self.entry.side) values.old values.new result }
    {
        self.clause(
            Said {
                part: Part::SameBeyond {
                    left: first,
                    right: second,
                },
                value: false,
            },
            Said {
                part: Part::SameBeyond {
                    left: second,
                    right: third,
                },
                value: false,
            },
            Said {
                part: Part::SameBeyond {
                    left: first,
                    right: third,
                },
                value: true,
            },
            values,
            reads,
        )
    }

    // Two pointers, that lead to one outside node or do not, with a third.
    fn beyond_with(
        self,
        pair: Together,
        other: Place,
        values: &mut Values,
        reads: &mut Reads,
    ) -> bool
        ensures { Propagates (Shows self.entry.numbering.now self.entry.side) values.old values.new result }
    {
        let Together { left, right, value } = pair;
        if value {
            self.beyond_on(left, right, other, values, reads)
                && self.beyond_on(other, left, right, values, reads)
        } else {
            self.beyond_on(left, other, right, values, reads)
        }
    }

    fn beyond_with_field(
        self,
        pair: Together,
        pointer: u8,
        values: &mut Values,
        reads: &mut Reads,
    ) -> bool
        ensures { Propagates (Shows self.entry.numbering.now self.entry.side) values.old values.new result }
    {
        for name in 0..self.numbering.shape().names {
            if !self.beyond_with(pair, Place { name, pointer }, values, reads) {
                return false;
            }
        }
        true
    }

    /// What follows from whether two pointers lead to one outside node.
    pub(crate) fn close_beyond(
        self,
        left: Place,
        right: Place,
        value: bool,
        values: &mut Values,
        reads: &mut Reads,
    ) -> bool
        ensures { Propagates (Shows self.entry.numbering.now self.entry.side) values.old values.new result }
    {
        let pair = Together { left, right, value };
        self.beyond_back(left, right, value, values, reads)
            && self.beyond_itself(left, values, reads)
            && self.beyond_with_field(pair, 0, values, reads)
            && self.beyond_with_field(pair, 1, values, reads)
    }
}
