// The past facts that the steps of a location carry along.
ghost use Rattle.std.specs.Prelude.{◌≡◌, ◌↔◌, ℕ, ◌<◌, ◌≤◌, length, slice_get, Some, IsTrue};
ghost use Rattle.std.specs.Option.{option_map_or};
ghost use Rattle.plank_bits.specs.Words.{has};
ghost use Rattle.plank_prog.specs.Methods.{location_count};
ghost use Rattle.plank_pic.specs.declared.literals.Literal.{Literal};
ghost use Rattle.plank_fact.specs.declared.facts.Fact.{Fact};
ghost use Rattle.plank_fact.specs.Tables.{name_count, IsFactOf};
ghost use Rattle.plank_fact.specs.Outlines.{Point};
ghost use Rattle.plank_fact.specs.After.{IsCarried};
ghost use Rattle.plank_marks.specs.Marks.{mark_words};
ghost use Rattle.plank_method.specs.Deciding.{outline_of};
ghost use Rattle.plank_trans.specs.Turns.{IsTurnOf};
ghost use Rattle.plank_trans.specs.Carried.{AreMoves, IsCarriedFrom, IsCarriedBelow, AreCarried};

use crate::names::{name_at, number_of, said_of};
use plank_base::MARK_WORDS_PER_LOCATION;
use plank_bits::MarkWords;
use plank_claim::is_claimed;
use plank_fact::{Fact, FactSet, fact};
use plank_follow::with_if;
use plank_marks::At;
use plank_past::past_name;
use plank_pic::Literal;
use plank_prog::Program;
use plank_query::OwnTurn;

// How many facts a table has room for.
const MARKS: u32 = 64 * MARK_WORDS_PER_LOCATION;

/// The steps of a location by an exit, where it is known which names name what others named before.
#[derive(Drop)]
pub(crate) struct Carrying<'a> {
    pub(crate) program: &'a Program,
    pub(crate) at: At,
    pub(crate) turn: OwnTurn<'a>,
    pub(crate) marks: &'a MarkWords,
    /// How many names the method has.
    pub(crate) names: u32,
    /// The pairs of names, as numbers, that do not name the same.
    pub(crate) moved: &'a FactSet,
    pub(crate) ghost few: { names ≤ 16 },
    pub(crate) ghost method_is: { at.method < length program.now.methods },
    pub(crate) ghost location_is: { at.location <
        option_map_or location_count (slice_get program.now.methods at.method) 0 },
    pub(crate) ghost marks_fit: { length marks.now ≡ mark_words program.now.methods },
    pub(crate) ghost names_are: { (x : Point program.now.methods) → IsTurnOf x at.method at.location turn →
        names ≡ name_count x.method },
    pub(crate) ghost moves: { (x : Point program.now.methods) → IsTurnOf x at.method at.location turn →
        AreMoves (outline_of program.now marks.now) x turn.exit names (has moved.now) },
}

impl<'a> Carrying<'a> {
    // Whether the past fact is claimed of one name, and another names what that did.
    fn is_carried_from(&self, literal: Literal, to: u32, from: u32) -> bool
        requires from { from < self.now.names }
        requires to { to < self.now.names }
        ensures { (x : Point self.now.program.now.methods) →
            IsTurnOf x self.now.at.method self.now.at.location self.now.turn →
            IsTrue result ↔ IsCarriedFrom (outline_of self.now.program.now self.now.marks.now) x self.now.turn.exit
            literal to from }
    {
        if self.moved.has(from * self.names + to) {
            return false;
        }
        let before = Fact::Past(said_of(name_at(from as u8), literal));
        is_claimed(self.program, self.at, &before, self.marks)
    }

    // The same of any name.
    fn is_carried_to(&self, literal: Literal, to: u32) -> bool
        requires { to < self.now.names }
        ensures { (x : Point self.now.program.now.methods) →
            IsTurnOf x self.now.at.method self.now.at.location self.now.turn →
            IsTrue result ↔ IsCarriedBelow (outline_of self.now.program.now self.now.marks.now) x self.now.turn.exit
            literal to self.now.names }
    {
        for from in 0..self.names {
            if self.is_carried_from(literal, to, from) {
                return true;
            }
        }
        false
    }

    // Whether the steps carry a past fact along.
    fn is_carried(&self, literal: Literal) -> bool
        ensures { (x : Point self.now.program.now.methods) →
            IsTurnOf x self.now.at.method self.now.at.location self.now.turn →
            IsFactOf self.now.program.now.header x.method (Fact.Past literal) →
            IsTrue result ↔ IsCarried (outline_of self.now.program.now self.now.marks.now) x self.now.turn.exit literal }
    {
        match past_name(&literal) {
            Some(name) => {
                let to = number_of(name);
                to < self.names && self.is_carried_to(literal, to)
            }
            None => is_claimed(self.program, self.at, &Fact::Past(literal), self.marks),
        }
    }

    // The same of a fact that says what was true.
    fn is_carried_fact(&self, fact: Option<Fact>) -> bool
        ensures { (x : Point self.now.program.now.methods) (L : Literal) →
            IsTurnOf x self.now.at.method self.now.at.location self.now.turn → fact ≡ Some (Fact.Past L) →
            IsFactOf self.now.program.now.header x.method (Fact.Past L) →
            IsTrue result ↔ IsCarried (outline_of self.now.program.now self.now.marks.now) x self.now.turn.exit L }
    {
        match fact {
            Some(Fact::Past(literal)) => self.is_carried(literal),
            _ => false,
        }
    }

    /// The past facts that the steps carry along.
    pub(crate) fn carried(&self) -> FactSet
        ensures { (x : Point self.now.program.now.methods) →
            IsTurnOf x self.now.at.method self.now.at.location self.now.turn →
            AreCarried (outline_of self.now.program.now self.now.marks.now) x self.now.turn.exit (has result) }
    {
        let mut set = FactSet::empty();
        for number in 0..MARKS {
            let added = self.is_carried_fact(fact(self.program, self.at.method, number));
            set = with_if(&set, number, added);
        }
        set
    }
}
