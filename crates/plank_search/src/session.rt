ghost use Rattle.std.specs.Prelude.{◌≡◌, ◌++◌, IfOk, IfSome, IfNone};
ghost use Rattle.plank_search.specs.Assignments.{NoneAgrees};
ghost use Rattle.plank_search.specs.Meanings.{Meets};
ghost use Rattle.plank_search.specs.Answers.{IsSolution, MeetsClaims, MeetsWithGoal};

use crate::clauses::{AllClauses, Clauses, Literal};
use crate::hints::{Hints, Statistics};
use crate::rules::Rules;
use crate::search::{answer, prepare};
use crate::values::Values;
use plank_base::OutOfMemory;
use sqlite_items::Items;
use std::alloc::Global;
use std::marker::Model;

/// Questions about one system, one after another: what follows from the system alone is found once,
/// when the session is made, and each question begins with a copy of it.
///
/// Contracts see the rules, the clauses and the values given. What a session keeps beside them
/// guides the search: what was asked before changes no answer but which of several is found.
#[derive(Drop)]
pub struct Session<'a, R: Rules> {
    rules: &'a R,
    clauses: &'a Clauses,
    given: Items<Option<bool>>,
    // What follows from the system alone, and whether anything meets it as far as propagation sees.
    prepared: Vec<Option<bool>>,
    possible: bool,
    // Of the question that is asked.
    values: Values,
    hints: Hints,
}

impl<'a, R: Rules> Model for Session<'a, R> {
    ghost use Rattle.plank_search.specs.Sessions.{Posed};

    ghost Value = { Posed R };

    ghost use Rattle.plank_search.specs.Meanings.{Meets};
    ghost use Rattle.plank_search.specs.Answers.{Propagates};

    ghost view = { λ session. record { rules = session.rules.now; clauses = session.clauses.now; given = session.given } };

    ghost invariant = { λ session. Propagates (Meets (R.meaning session.rules.now) (R.constraint_count session.rules.now) session.clauses.now) session.given session.prepared.items session.possible };
}

impl<'a, R: Rules> Session<'a, R> {
    ghost use Rattle.std.specs.Prelude.{◌≡◌, ◌++◌, IfOk, IfSome, IfNone};
    ghost use Rattle.plank_search.specs.Assignments.{NoneAgrees};
    ghost use Rattle.plank_search.specs.Meanings.{Meets};
    ghost use Rattle.plank_search.specs.Answers.{IsSolution, MeetsClaims, MeetsWithGoal};

    /// A session about these rules and clauses, with a part for each item of `given`: a value that
    /// it has in every answer, or None.
    pub fn new(
        alloc: Global,
        rules: &'a R,
        clauses: &'a Clauses,
        given: &[Option<bool>],
    ) -> Result<Session<'a, R>, OutOfMemory>
        ensures { IfOk result (λ session. session ≡ record { rules = rules.now; clauses = clauses.now; given = given.now }) }
    {
        let mut values = Values::new(alloc, given)?;
        let mut hints = Hints::new(alloc, clauses, given.len(), rules.watched())?;
        let none = Clauses::new(alloc);
        let possible = prepare(
            rules,
            &AllClauses::new(clauses, &none),
            &mut values,
            &mut hints,
        );
        hints.keep();
        Ok(Session {
            rules,
            clauses,
            given: Items::from_vec(Vec::from_slice(alloc, given)?),
            prepared: values.save(alloc)?,
            possible,
            values,
            hints,
        })
    }

    /// A full assignment that meets the system, with each of the claims; None exactly where there
    /// is none.
    pub fn find(
        &mut self,
        alloc: Global,
        claims: &[Literal],
    ) -> Result<Option<Items<bool>>, OutOfMemory>
        ensures found { IfOk result (λ answer. IfSome answer (λ found.
            IsSolution (MeetsClaims (Meets (R.meaning self.old.rules) (R.constraint_count self.old.rules) self.old.clauses) claims.now) self.old.given found)) }
        ensures none { IfOk result (λ answer. IfNone answer
            (NoneAgrees (MeetsClaims (Meets (R.meaning self.old.rules) (R.constraint_count self.old.rules) self.old.clauses) claims.now) self.old.given)) }
        ensures same { self.new ≡ self.old }
    {
        self.ask(alloc, claims, &Clauses::new(alloc), &[])
    }

    /// As `find`, with at least one of the goals yes. The goals are tried yes first; a goal past the
    /// last part is no, so no goals at all have no answer but None.
    pub fn find_any(
        &mut self,
        alloc: Global,
        claims: &[Literal],
        goals: &[usize],
    ) -> Result<Option<Items<bool>>, OutOfMemory>
        ensures found { IfOk result (λ answer. IfSome answer (λ found.
            IsSolution (MeetsWithGoal (MeetsClaims (Meets (R.meaning self.old.rules) (R.constraint_count self.old.rules) self.old.clauses) claims.now) goals.now) self.old.given found)) }
        ensures none { IfOk result (λ answer. IfNone answer
            (NoneAgrees (MeetsWithGoal (MeetsClaims (Meets (R.meaning self.old.rules) (R.constraint_count self.old.rules) self.old.clauses) claims.now) goals.now) self.old.given)) }
        ensures same { self.new ≡ self.old }
    {
        let some_goal = Clauses::of_goals(alloc, goals)?;
        self.ask(alloc, claims, &some_goal, goals)
    }

    /// The work of all questions so far.
    pub fn statistics(&self) -> Statistics {
        self.hints.statistics
    }

    // The answer to a question with clauses of its own.
    pub(crate) fn ask(
        &mut self,
        alloc: Global,
        claims: &[Literal],
        question: &Clauses,
        tried_yes: &[usize],
    ) -> Result<Option<Items<bool>>, OutOfMemory>
        ensures found { IfOk result (λ answer. IfSome answer (λ found.
            IsSolution (MeetsClaims (Meets (R.meaning self.old.rules) (R.constraint_count self.old.rules) (self.old.clauses ++ question.now)) claims.now) self.old.given found)) }
        ensures none { IfOk result (λ answer. IfNone answer
            (NoneAgrees (MeetsClaims (Meets (R.meaning self.old.rules) (R.constraint_count self.old.rules) (self.old.clauses ++ question.now)) claims.now) self.old.given)) }
        ensures same { self.new ≡ self.old }
    {
        if !self.possible {
            return Ok(None);
        }
        self.values
            .restore(Vec::from_slice(alloc, self.prepared.as_slice())?);
        self.hints.begin(tried_yes);
        let found = answer(
            alloc,
            self.rules,
            &AllClauses::new(self.clauses, question),
            claims,
            &mut self.values,
            &mut self.hints,
        );
        self.hints.end(tried_yes);
        if !found? {
            return Ok(None);
        }
        Ok(Some(self.values.fill(alloc)?))
    }
}

/// A full assignment that meets every rule and every clause and agrees with what is given; None
/// exactly where there is none.
///
/// Parts are tried no first. The search always ends, and splits as often as it has to.
pub fn find<R: Rules>(
    alloc: Global,
    rules: &R,
    clauses: &Clauses,
    given: &[Option<bool>],
) -> Result<Option<Items<bool>>, OutOfMemory>
    ensures found { IfOk result (λ answer. IfSome answer (λ found.
        IsSolution (Meets (R.meaning rules.now) (R.constraint_count rules.now) clauses.now) given.now found)) }
    ensures none { IfOk result (λ answer. IfNone answer
        (NoneAgrees (Meets (R.meaning rules.now) (R.constraint_count rules.now) clauses.now) given.now)) }
{
    find_counted(alloc, rules, clauses, given, &[], &mut Statistics::new())
}

/// As `find`, with at least one of the goals yes. The goals are tried yes first; a goal past the
/// last part is no, so no goals at all have no answer but None.
pub fn find_any<R: Rules>(
    alloc: Global,
    rules: &R,
    clauses: &Clauses,
    given: &[Option<bool>],
    goals: &[usize],
) -> Result<Option<Items<bool>>, OutOfMemory>
    ensures found { IfOk result (λ answer. IfSome answer (λ found.
        IsSolution (MeetsWithGoal (Meets (R.meaning rules.now) (R.constraint_count rules.now) clauses.now) goals.now) given.now found)) }
    ensures none { IfOk result (λ answer. IfNone answer
        (NoneAgrees (MeetsWithGoal (Meets (R.meaning rules.now) (R.constraint_count rules.now) clauses.now) goals.now) given.now)) }
{
    Session::new(alloc, rules, clauses, given)?.find_any(alloc, &[], goals)
}

/// As `find`, with the parts that are tried yes first, and a count of the work.
pub fn find_counted<R: Rules>(
    alloc: Global,
    rules: &R,
    clauses: &Clauses,
    given: &[Option<bool>],
    tried_yes: &[usize],
    statistics: &mut Statistics,
) -> Result<Option<Items<bool>>, OutOfMemory>
    ensures found { IfOk result (λ answer. IfSome answer (λ found.
        IsSolution (Meets (R.meaning rules.now) (R.constraint_count rules.now) clauses.now) given.now found)) }
    ensures none { IfOk result (λ answer. IfNone answer
        (NoneAgrees (Meets (R.meaning rules.now) (R.constraint_count rules.now) clauses.now) given.now)) }
{
    let mut session = Session::new(alloc, rules, clauses, given)?;
    let found = session.ask(alloc, &[], &Clauses::new(alloc), tried_yes)?;
    *statistics = session.statistics();
    Ok(found)
}
