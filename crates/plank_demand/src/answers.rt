// The obligation answer: what an answer says is claimed at its return.
ghost use Rattle.std.specs.Prelude.{◌≡◌, ◌↔◌, IsTrue};
ghost use Rattle.plank_prog.specs.declared.methods.MethodKind.{MethodKind};
ghost use Rattle.plank_pic.specs.declared.literals.Exit.{Exit};
ghost use Rattle.plank_fact.specs.Outlines.{IsMarked};
ghost use Rattle.plank_fact.specs.Obligations.{needed_for, AnswerFails};
ghost use Rattle.plank_query.specs.Places.{IsOwnTurnAt};
ghost use Rattle.plank_demand.specs.Places.{AtPoint};
ghost use Rattle.plank_demand.specs.Answers.{LacksOne};

use crate::here::Here;
use plank_base::Op;
use plank_claim::is_claimed;
use plank_fact::{Fact, number};
use plank_pic::Literal;
use plank_prog::{Action, MethodKind};
use plank_query::{Oracle, OwnTurn};

// What the answer needs.
fn needed_for(op: Op, answer: bool) -> &'static [Fact]
    ensures { result.now ≡ needed_for op answer }
{
    match (op, answer) {
        (Op::Insert, true) => &[Fact::Now(Literal::Spent)],
        (Op::Insert, false) => &[Fact::Now(Literal::Unspent), Fact::Past(Literal::InSet)],
        (Op::Delete, true) => &[Fact::Now(Literal::Spent)],
        (Op::Delete, false) => &[Fact::Now(Literal::Unspent), Fact::Past(Literal::NotInSet)],
        (Op::Contains, true) => &[Fact::Past(Literal::InSet)],
        (Op::Contains, false) => &[Fact::Past(Literal::NotInSet)],
    }
}

impl<'a, 'm, Q: Oracle> Here<'a, 'm, Q> {
    // Whether a fact of the method is not claimed.
    fn is_marked(&self, fact: &Fact) -> bool
        ensures { AtPoint self.now.program.now self.now.marks.now self.now.at (λ O x. IsTrue result ↔ IsMarked O x fact.now) }
    {
        match number(self.program, self.at.method, fact) {
            Some(_) => !is_claimed(self.program, self.at, fact, self.marks),
            None => false,
        }
    }

    // Whether one of the facts is not claimed that the answer needs.
    fn lacks(&self, op: Op, answer: bool) -> bool
        ensures { AtPoint self.now.program.now self.now.marks.now self.now.at (λ O x.
            IsTrue result ↔ LacksOne O x (needed_for op answer)) }
    {
        for fact in needed_for(op, answer) {
            if self.is_marked(fact) {
                return true;
            }
        }
        false
    }

    // Whether an action of a method of this operation returns an answer that is not known to be right.
    fn return_fails(&self, op: Op, action: &Action) -> bool
        ensures { AtPoint self.now.program.now self.now.marks.now self.now.at (λ O x.
            x.method.kind ≡ MethodKind.Set op → x.location.action ≡ action.now → IsTrue result ↔ AnswerFails O x) }
    {
        match action {
            Action::Return(answer) => self.lacks(op, *answer),
            Action::Block(_) => false,
            Action::Copy { .. } => false,
            Action::New { .. } => false,
        }
    }

    /// Whether the location returns an answer that is not known to be right.
    pub(crate) fn answer_fails(&self, turn: OwnTurn<'_>) -> bool
        ensures { AtPoint self.now.program.now self.now.marks.now self.now.at (λ O x.
            IsOwnTurnAt x Exit.Yes turn.entry → IsTrue result ↔ AnswerFails O x) }
    {
        match self.kind() {
            MethodKind::Set(op) => self.return_fails(op, turn.action),
            MethodKind::Upkeep => false,
        }
    }
}
