// Uses of the rule of hindsight, one after the other.
ghost use Rattle.std.specs.Prelude.{◌≡◌, ℕ, ◌*◌, ◌<◌, true, false, length, slice_get, Some, IfOk, IfSome, IsNone};
ghost use Rattle.plank_base.specs.declared.limits.TheConstants.{MARK_WORDS_PER_LOCATION};
ghost use Rattle.plank_bits.specs.Words.{has, IsWithin};
ghost use Rattle.plank_prog.specs.declared.methods.Method.{Method};
ghost use Rattle.plank_fact.specs.declared.facts.Fact.{Fact};
ghost use Rattle.plank_fact.specs.Tables.{IsNumbered};
ghost use Rattle.plank_pic.specs.declared.literals.Literal.{Literal};
ghost use Rattle.plank_marks.specs.Marks.{mark_words};
ghost use Rattle.plank_method.specs.Deciding.{outline_of};
ghost use Rattle.plank_follow.specs.Kinds.{kind_below};
ghost use Rattle.plank_follow.specs.Following.{IsGiven, IsFollowing, IsFollowingFrom, AddsPast, AreFollowing};
ghost use Rattle.plank_follow.specs.Together.{AreSmall, AreUsed};

use crate::literals::{literals, past_of};
use crate::together::together;
use plank_base::OutOfMemory;
use plank_bits::MarkWords;
use plank_fact::{FactSet, fact};
use plank_past::{Hinds, Past, may_be_now};
use plank_pic::Literal;
use plank_prog::Program;
use plank_query::Oracle;
use plank_shown::{listed, spread};
use std::alloc::Global;

/// Uses of the rule for the calls of a method, where these literals are true in each of the pictures.
#[derive(Drop)]
pub(crate) struct Rules<'a, Q> {
    pub(crate) oracle: &'a Q,
    pub(crate) program: &'a Program,
    pub(crate) method: u32,
    pub(crate) marks: &'a MarkWords,
    /// The numbers of all past facts of the method.
    pub(crate) past: &'a FactSet,
    /// What is true and never changes.
    pub(crate) lasting: &'a [Literal],
    /// What is true.
    pub(crate) presents: &'a [Literal],
    pub(crate) ghost marks_fit: { length marks.now ≡ mark_words program.now.methods },
    pub(crate) ghost past_is: { (k : ℕ) → has past.now k ≡
        kind_below program.now.header program.now.methods method true (64 * MARK_WORDS_PER_LOCATION) k },
}

impl<'a, Q: Oracle> Rules<'a, Q> {
    // The known facts, and those that a past fact gives together with what is true now.
    fn more_by(
        &self,
        alloc: Global,
        past: Literal,
        present: Option<Literal>,
        known: &FactSet,
    ) -> Result<FactSet, OutOfMemory>
        ensures { IfOk result (λ more. (m : Method) →
            slice_get self.now.program.now.methods self.now.method ≡ Some m →
            AddsPast self.now.program.now.header m
            (IsGiven (outline_of self.now.program.now self.now.marks.now) m self.now.lasting.now past present)
            (has known.now) (has more)) }
    {
        let open = self.past.minus(known);
        let list = listed(alloc, &open)?;
        let numbers = list.as_slice();
        let conclusions = literals(alloc, self.program, self.method, numbers)?;
        let hinds = Hinds {
            method: self.method,
            past,
            present,
            lasting: self.lasting,
            conclusions: conclusions.as_slice(),
        };
        let rule = Past {
            oracle: self.oracle,
        };
        let found = rule.hindsights(alloc, self.program, &hinds, self.marks)?;
        Ok(spread(known, numbers, &found))
    }

    // The same, where the rule takes the present literal.
    fn more_with(
        &self,
        alloc: Global,
        past: Literal,
        present: Literal,
        known: &FactSet,
    ) -> Result<FactSet, OutOfMemory>
        ensures { IfOk result (λ more. (m : Method) →
            slice_get self.now.program.now.methods self.now.method ≡ Some m →
            AddsPast self.now.program.now.header m
            (IsGiven (outline_of self.now.program.now self.now.marks.now) m self.now.lasting.now past (Some present))
            (has known.now) (has more)) }
    {
        if may_be_now(&past, Some(present)) {
            self.more_by(alloc, past, Some(present), known)
        } else {
            Ok(*known)
        }
    }

    // The known facts, and those that a past fact gives alone or with some present literal.
    fn more_from(
        &self,
        alloc: Global,
        past: Literal,
        known: &FactSet,
    ) -> Result<FactSet, OutOfMemory>
        ensures { IfOk result (λ more. (m : Method) →
            slice_get self.now.program.now.methods self.now.method ≡ Some m →
            AddsPast self.now.program.now.header m
            (IsFollowing (outline_of self.now.program.now self.now.marks.now) m self.now.lasting.now
            self.now.presents.now past) (has known.now) (has more)) }
    {
        let mut more = self.more_by(alloc, past, None, known)?;
        for i in 0..self.presents.len() {
            more = self.more_with(alloc, past, self.presents[i], &more)?;
        }
        Ok(more)
    }

    // The same of the past fact of a number.
    fn more_of(&self, alloc: Global, number: u32, known: &FactSet) -> Result<FactSet, OutOfMemory>
        ensures { IfOk result (λ more. (m : Method) →
            slice_get self.now.program.now.methods self.now.method ≡ Some m →
            AddsPast self.now.program.now.header m
            (IsFollowingFrom (outline_of self.now.program.now self.now.marks.now) m self.now.lasting.now
            self.now.presents.now number) (has known.now) (has more)) }
    {
        match past_of(fact(self.program, self.method, number)) {
            Some(past) => self.more_from(alloc, past, known),
            None => Ok(*known),
        }
    }

    // A known past fact that is not done, if there is one.
    fn next(&self, known: &FactSet, done: &FactSet) -> Option<u32>
        ensures found { IfSome result (λ number. has known.now number ≡ true) }
        ensures open { IfSome result (λ number. has done.now number ≡ false) }
        ensures below { IfSome result (λ number. number < 64 * MARK_WORDS_PER_LOCATION) }
        ensures none { IsNone result → (m : Method) →
            slice_get self.now.program.now.methods self.now.method ≡ Some m → (k : ℕ) (C : Literal) →
            IsNumbered self.now.program.now.header m k (Fact.Past C) → has known.now k ≡ true →
            has done.now k ≡ true }
    {
        known.meet(self.past).minus(done).next_from(0)
    }

    // Known past facts of which all is known that follows by one use: all of them, where one picture in
    // which all is true that the rule may take refutes each other past fact; else none.
    fn done_at_once(&self, alloc: Global, known: &FactSet) -> Result<FactSet, OutOfMemory>
        ensures small { IfOk result (λ done. AreSmall (has done)) }
        ensures within { IfOk result (λ done. IsWithin (has done) (has known.now)) }
        ensures used { IfOk result (λ done. (m : Method) →
            slice_get self.now.program.now.methods self.now.method ≡ Some m →
            AreUsed (outline_of self.now.program.now self.now.marks.now) m self.now.lasting.now
            self.now.presents.now (has done) (has known.now)) }
    {
        let none = FactSet::empty();
        let Some(number) = self.next(known, &none) else {
            return Ok(none);
        };
        let Some(past) = past_of(fact(self.program, self.method, number)) else {
            return Ok(none);
        };
        let all = together(
            alloc,
            self.program,
            self.method,
            self.lasting,
            self.presents,
            known,
        )?;
        let rules = Rules {
            oracle: self.oracle,
            program: self.program,
            method: self.method,
            marks: self.marks,
            past: self.past,
            lasting: all.as_slice(),
            presents: self.presents,
        };
        let more = rules.more_by(alloc, past, None, known)?;
        if more.subset(known) {
            Ok(known.meet(self.past))
        } else {
            Ok(none)
        }
    }

    /// The start, and the past facts that follow from it; of those that are not wanted perhaps not all.
    pub(crate) fn follow(
        &self,
        alloc: Global,
        start: &FactSet,
        wanted: &FactSet,
    ) -> Result<FactSet, OutOfMemory>
        ensures { IfOk result (λ found. (m : Method) →
            slice_get self.now.program.now.methods self.now.method ≡ Some m →
            AreFollowing (outline_of self.now.program.now self.now.marks.now) m self.now.lasting.now
            self.now.presents.now (has start.now) (has wanted.now) (has found)) }
    {
        if wanted.subset(start) {
            return Ok(*start);
        }
        let mut known = *start;
        let mut done = self.done_at_once(alloc, start)?;
        while !wanted.subset(&known) {
            let Some(number) = self.next(&known, &done) else {
                return Ok(known);
            };
            known = self.more_of(alloc, number, &known)?;
            done = done.with(number);
        }
        Ok(known)
    }
}
