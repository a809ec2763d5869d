// The past facts that the steps of a location carry along whatever is claimed there: those of names that
// name what one name did.
ghost use Rattle.std.specs.Prelude.{◌≡◌, ℕ, ◌<◌, ◌≤◌, length, slice_get, Some, true, IsTrue, IfSome};
ghost use Rattle.std.specs.Option.{option_map_or};
ghost use Rattle.plank_bits.specs.Words.{has};
ghost use Rattle.plank_prog.specs.Methods.{location_count};
ghost use Rattle.plank_pic.specs.declared.literals.Literal.{Literal};
ghost use Rattle.plank_pic.specs.Steps.{Of};
ghost use Rattle.plank_pic.specs.Blocks.{source};
ghost use Rattle.plank_fact.specs.declared.facts.Fact.{Fact};
ghost use Rattle.plank_fact.specs.Literals.{past_name, said_of};
ghost use Rattle.plank_fact.specs.Tables.{name_at, name_count, IsFactOf, IsNumbered};
ghost use Rattle.plank_fact.specs.Outlines.{Point, IsClaimed};
ghost use Rattle.plank_fact.specs.After.{IsCarried};
ghost use Rattle.plank_marks.specs.Marks.{mark_words};
ghost use Rattle.plank_method.specs.Deciding.{outline_of};
ghost use Rattle.plank_query.specs.Situations.{turn_of_own};
ghost use Rattle.plank_trans.specs.Turns.{IsTurnOf};

use crate::names::{name_at, number_of, said_of};
use plank_base::MARK_WORDS_PER_LOCATION;
use plank_bits::MarkWords;
use plank_claim::is_claimed;
use plank_fact::{Fact, FactSet, fact};
use plank_follow::with_if;
use plank_marks::At;
use plank_past::past_name;
use plank_pic::Literal;
use plank_prog::{Program, Reference};
use plank_query::OwnTurn;
use plank_step::{Origin, source};

// How many facts a table has room for.
const MARKS: u32 = 64 * MARK_WORDS_PER_LOCATION;

// The name whose node a name has after each step, where it is one of before.
fn named_from(turn: &OwnTurn<'_>, to: u8) -> Option<u8>
    ensures { IfSome result (λ from. source (turn_of_own turn.now) to ≡ Of from) }
{
    match source(turn, to) {
        Origin::Name(from) => Some(from),
        Origin::Null => None,
        Origin::Fresh => None,
    }
}

/// The steps of a location by an exit.
#[derive(Drop)]
pub(crate) struct Keeping<'a> {
    pub(crate) program: &'a Program,
    pub(crate) at: At,
    pub(crate) turn: OwnTurn<'a>,
    pub(crate) marks: &'a MarkWords,
    /// How many names the method has.
    pub(crate) names: u32,
    pub(crate) ghost few: { names ≤ 16 },
    pub(crate) ghost method_is: { at.method < length program.now.methods },
    pub(crate) ghost location_is: { at.location <
        option_map_or location_count (slice_get program.now.methods at.method) 0 },
    pub(crate) ghost marks_fit: { length marks.now ≡ mark_words program.now.methods },
    pub(crate) ghost names_are: { (x : Point program.now.methods) → IsTurnOf x at.method at.location turn →
        names ≡ name_count x.method },
}

impl<'a> Keeping<'a> {
    // Whether the past fact is claimed of a name of the method.
    fn is_claimed_of(&self, literal: Literal, from: u8) -> bool
        ensures below { IsTrue result → from < self.now.names }
        ensures claimed { (x : Point self.now.program.now.methods) →
            IsTurnOf x self.now.at.method self.now.at.location self.now.turn → IsTrue result →
            IsClaimed (outline_of self.now.program.now self.now.marks.now) x
            (Fact.Past (said_of (name_at from) literal)) }
    {
        if u32::from(from) >= self.names {
            return false;
        }
        let before = Fact::Past(said_of(name_at(from), literal));
        is_claimed(self.program, self.at, &before, self.marks)
    }

    // Whether it is claimed of the name whose node another has after each step.
    fn is_kept_of(&self, literal: Literal, name: Reference) -> bool
        ensures { (x : Point self.now.program.now.methods) →
            IsTurnOf x self.now.at.method self.now.at.location self.now.turn →
            IsFactOf self.now.program.now.header x.method (Fact.Past literal) → past_name literal ≡ Some name →
            IsTrue result →
            IsCarried (outline_of self.now.program.now self.now.marks.now) x self.now.turn.exit literal }
    {
        let to = number_of(name);
        if to >= self.names {
            return false;
        }
        match named_from(&self.turn, to as u8) {
            Some(from) => self.is_claimed_of(literal, from),
            None => false,
        }
    }

    // Whether the steps keep a past fact.
    fn is_kept(&self, literal: Literal) -> bool
        ensures { (x : Point self.now.program.now.methods) →
            IsTurnOf x self.now.at.method self.now.at.location self.now.turn →
            IsFactOf self.now.program.now.header x.method (Fact.Past literal) → IsTrue result →
            IsCarried (outline_of self.now.program.now self.now.marks.now) x self.now.turn.exit literal }
    {
        match past_name(&literal) {
            Some(name) => self.is_kept_of(literal, name),
            None => is_claimed(self.program, self.at, &Fact::Past(literal), self.marks),
        }
    }

    // The same of a fact that says what was true.
    fn is_kept_fact(&self, fact: Option<Fact>) -> bool
        ensures { (x : Point self.now.program.now.methods) (L : Literal) →
            IsTurnOf x self.now.at.method self.now.at.location self.now.turn → fact ≡ Some (Fact.Past L) →
            IsFactOf self.now.program.now.header x.method (Fact.Past L) → IsTrue result →
            IsCarried (outline_of self.now.program.now self.now.marks.now) x self.now.turn.exit L }
    {
        match fact {
            Some(Fact::Past(literal)) => self.is_kept(literal),
            _ => false,
        }
    }

    /// Past facts that the steps carry along.
    pub(crate) fn kept(&self) -> FactSet
        ensures { (x : Point self.now.program.now.methods) →
            IsTurnOf x self.now.at.method self.now.at.location self.now.turn → (n : ℕ) (L : Literal) →
            IsNumbered self.now.program.now.header x.method n (Fact.Past L) → has result n ≡ true →
            IsCarried (outline_of self.now.program.now self.now.marks.now) x self.now.turn.exit L }
    {
        let mut set = FactSet::empty();
        for number in 0..MARKS {
            let found = fact(self.program, self.at.method, number);
            if found.is_none() {
                return set;
            }
            set = with_if(&set, number, self.is_kept_fact(found));
        }
        set
    }
}
