// Each obligation, by its kind.
ghost use Rattle.std.specs.Prelude.{◌≡◌, ◌↔◌, length, IsTrue, IfOk};
ghost use Rattle.plank_marks.specs.Marks.{mark_words};
ghost use Rattle.plank_pic.specs.declared.literals.Exit.{Exit};
ghost use Rattle.plank_fact.specs.Obligations.{FailsThere, FailsAtItsPoint};
ghost use Rattle.plank_judge.specs.Verdicts.{outline_of};
ghost use Rattle.plank_query.specs.Places.{IsOwnTurnAt};
ghost use Rattle.plank_demand.specs.Places.{AtPoint};

use crate::asking::Asking;
use crate::here::Here;
use plank_base::{Kind, Obligation, OutOfMemory};
use plank_bits::MarkWords;
use plank_judge::Demands;
use plank_marks::{At, location_count};
use plank_pic::Exit;
use plank_prog::Program;
use plank_query::{Oracle, OwnTurn};
use plank_start::start_fails;
use std::alloc::Global;

impl<'a, 'm, Q: Oracle> Here<'a, 'm, Q> {
    // Whether the obligation of this kind fails at the location, whose turn this is.
    fn fails_by(&self, alloc: Global, kind: Kind, turn: OwnTurn<'_>) -> Result<bool, OutOfMemory>
        ensures { IfOk result (λ fails. AtPoint self.now.program.now self.now.marks.now self.now.at (λ O x.
            IsOwnTurnAt x Exit.Yes turn.entry → IsTrue fails ↔ FailsThere kind O x)) }
    {
        match kind {
            Kind::Start => Ok(false),
            Kind::Edges => Ok(false),
            Kind::Null => self.null_fails(alloc, turn),
            Kind::Target => self.target_fails(alloc, turn),
            Kind::Publish => Ok(false),
            Kind::Keep => self.keep_fails(alloc, turn),
            Kind::Order => self.order_fails(alloc, turn),
            Kind::Footprint => self.footprint_fails(alloc, turn),
            Kind::Change => self.change_fails(alloc, turn),
            Kind::Answer => Ok(self.answer_fails(turn)),
        }
    }

    // The same of the location.
    fn fails(&self, alloc: Global, kind: Kind) -> Result<bool, OutOfMemory>
        ensures { IfOk result (λ fails. AtPoint self.now.program.now self.now.marks.now self.now.at (λ O x.
            IsTrue fails ↔ FailsThere kind O x)) }
    {
        let program: &Program = self.program;
        match OwnTurn::at(program, self.at.method, self.at.location, Exit::Yes) {
            Some(turn) => self.fails_by(alloc, kind, turn),
            None => Ok(false),
        }
    }
}

impl<'a, Q: Oracle> Asking<'a, Q> {
    // Whether an obligation of a location fails there.
    fn fails_there(
        &self,
        alloc: Global,
        obligation: &Obligation,
        marks: &MarkWords,
    ) -> Result<bool, OutOfMemory>
        requires { length marks.now ≡ mark_words self.now.program.now.methods }
        ensures { IfOk result (λ fails. IsTrue fails ↔
            FailsAtItsPoint (outline_of self.now.program.now marks.now) obligation.now) }
    {
        let at = At {
            method: obligation.method,
            location: obligation.location,
        };
        if at.method as usize >= self.program.methods.len()
            || at.location >= location_count(self.program, at.method)
        {
            return Ok(false);
        }
        let here = Here {
            oracle: self.oracle,
            program: self.program,
            at,
            marks,
        };
        here.fails(alloc, obligation.kind)
    }
}

impl<'a, Q: Oracle> Demands for Asking<'a, Q> {
    ghost program = { λ a. a.program.now };

    fn program(&self) -> &Program {
        self.program
    }

    fn fails(
        &self,
        alloc: Global,
        obligation: &Obligation,
        marks: &MarkWords,
    ) -> Result<bool, OutOfMemory> {
        match obligation.kind {
            Kind::Start => start_fails(alloc, self.program),
            Kind::Edges => self.edges_fail(alloc),
            _ => self.fails_there(alloc, obligation, marks),
        }
    }
}
