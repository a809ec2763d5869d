ghost use Rattle.std.specs.Prelude.{◌≡◌, true, false};
ghost use Rattle.plank_search.specs.Answers.{Propagates};
ghost use Rattle.plank_close.specs.Clauses.{Shows, Knows, IsSaid, IsDenied, Follows, Implies, IsClause};

use plank_parts::{Numbering, Side};
use plank_pic::Part;
use plank_search::{Reads, Values};

/// That a picture says so of a part.
#[derive(Clone, Copy)]
pub struct Said {
    pub part: Part,
    pub value: bool,
}

/// That a picture says yes, or no, of a part.
pub(crate) fn yes(part: Part) -> Said
    ensures part { result.part ≡ part }
    ensures value { result.value ≡ true }
{
    Said { part, value: true }
}

pub(crate) fn no(part: Part) -> Said
    ensures part { result.part ≡ part }
    ensures value { result.value ≡ false }
{
    Said { part, value: false }
}

// How a picture stands to what is said of it: that it says so already, or the opposite, or neither.
#[derive(Clone, Copy, PartialEq, Eq, Debug)]
enum Standing {
    Said,
    Denied,
    Open,
}

/// The picture before or after, into which what follows is put.
#[derive(Clone, Copy)]
pub struct Sayer<'n, 's> {
    pub numbering: &'n Numbering<'s>,
    pub side: Side,
}

impl<'n, 's> Sayer<'n, 's> {
    // The value of a part, where it has one.
    #[tactic(auto, using(crate::proofs::Forcing::knows_absent, crate::proofs::Forcing::knows_value))]
    pub(crate) fn known(self, part: Part, values: &Values) -> Option<bool>
        ensures { Knows self.entry.numbering.now self.entry.side values.now part result }
    {
        if !self.numbering.fits(part) {
            return Some(false);
        }
        values.get(self.numbering.number(self.side, part))
    }

    // Whether the picture says so already.
    pub(crate) fn says(self, said: Said, values: &Values) -> bool
        ensures { result ≡ true → IsSaid self.entry.numbering.now self.entry.side values.now said }
    {
        match self.known(said.part, values) {
            Some(value) => value == said.value,
            None => false,
        }
    }

    // How what is said stands.
    fn standing(self, said: Said, values: &Values) -> Standing
        ensures { result ≡ Standing.Denied → IsDenied self.entry.numbering.now self.entry.side values.now said }
    {
        match self.known(said.part, values) {
            Some(value) => {
                if value == said.value {
                    Standing::Said
                } else {
                    Standing::Denied
                }
            }
            None => Standing::Open,
        }
    }

    // Whether it says the opposite already.
    pub(crate) fn denies(self, said: Said, values: &Values) -> bool
        ensures { result ≡ true → IsDenied self.entry.numbering.now self.entry.side values.now said }
    {
        match self.known(said.part, values) {
            Some(value) => value != said.value,
            None => false,
        }
    }

    // Puts what follows; false where the picture says the opposite.
    #[tactic(auto, using(crate::proofs::Forcing::forced_absent, crate::proofs::Forcing::forced_known, crate::proofs::Forcing::forced_open))]
    fn force(self, said: Said, values: &mut Values) -> bool
        requires { Follows self.numbering.now self.side values.old said }
        ensures { Propagates (Shows self.entry.numbering.now self.entry.side) values.old values.new result }
    {
        if !self.numbering.fits(said.part) {
            return !said.value;
        }
        let number = self.numbering.number(self.side, said.part);
        match values.get(number) {
            Some(value) => value == said.value,
            None => {
                values.put(number, said.value);
                true
            }
        }
    }

    // Notes a part that stands in a conflict.
    fn note(self, said: Said, values: &Values, reads: &mut Reads) {
        let _ = reads.read(values, self.numbering.number(self.side, said.part));
    }

    /// The one implies the other.
    pub(crate) fn implies(
        self,
        first: Said,
        second: Said,
        values: &mut Values,
        reads: &mut Reads,
    ) -> bool
        requires { Implies self.numbering.now.frame first second }
        ensures { Propagates (Shows self.entry.numbering.now self.entry.side) values.old values.new result }
    {
        let goes = self.put_implied(first, second, values);
        if !goes {
            reads.clear();
            self.note(first, values, reads);
            self.note(second, values, reads);
        }
        goes
    }

    #[tactic(auto, using(crate::proofs::Forcing::then_second, crate::proofs::Forcing::then_not_first, crate::proofs::Forcing::same_narrows))]
    fn put_implied(self, first: Said, second: Said, values: &mut Values) -> bool
        requires { Implies self.numbering.now.frame first second }
        ensures { Propagates (Shows self.entry.numbering.now self.entry.side) values.old values.new result }
    {
        if self.says(first, values) {
            self.force(second, values)
        } else if self.denies(second, values) {
            self.force(
                Said {
                    part: first.part,
                    value: !first.value,
                },
                values,
            )
        } else {
            true
        }
    }

    /// One of three is so.
    pub(crate) fn clause(
        self,
        first: Said,
        second: Said,
        third: Said,
        values: &mut Values,
        reads: &mut Reads,
    ) -> bool
        requires { IsClause self.numbering.now.frame first second third }
        ensures { Propagates (Shows self.entry.numbering.now self.entry.side) values.old values.new result }
    {
        let goes = self.put_last(first, second, third, values);
        if !goes {
            reads.clear();
            self.note(first, values, reads);
            self.note(second, values, reads);
            self.note(third, values, reads);
        }
        goes
    }

    // One of the last two of three is so, where the first is not.
    #[tactic(auto, using(crate::proofs::Forcing::then_third, crate::proofs::Forcing::then_middle, crate::proofs::Forcing::same_narrows))]
    fn put_either(self, first: Said, second: Said, third: Said, values: &mut Values) -> bool
        requires clause { IsClause self.numbering.now.frame first second third }
        requires denied { IsDenied self.numbering.now self.side values.old first }
        ensures { Propagates (Shows self.entry.numbering.now self.entry.side) values.old values.new result }
    {
        match self.standing(second, values) {
            Standing::Said => true,
            Standing::Denied => self.force(third, values),
            Standing::Open => {
                if self.denies(third, values) {
                    self.force(second, values)
                } else {
                    true
                }
            }
        }
    }

    #[tactic(auto, using(crate::proofs::Forcing::then_first, crate::proofs::Forcing::same_narrows))]
    fn put_last(self, first: Said, second: Said, third: Said, values: &mut Values) -> bool
        requires { IsClause self.numbering.now.frame first second third }
        ensures { Propagates (Shows self.entry.numbering.now self.entry.side) values.old values.new result }
    {
        match self.standing(first, values) {
            Standing::Said => true,
            Standing::Denied => self.put_either(first, second, third, values),
            Standing::Open => {
                if self.denies(second, values) && self.denies(third, values) {
                    self.force(first, values)
                } else {
                    true
                }
            }
        }
    }
}
