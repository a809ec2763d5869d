ghost use Rattle.std.specs.Prelude.{◌≡◌, IfOk};
ghost use Rattle.plank_search.specs.Assignments.{IsOpen, with_value};
ghost use Rattle.plank_search.specs.Meanings.{Meets};
ghost use Rattle.plank_search.specs.Answers.{Propagates, Searches, MeetsClaims};

use crate::clauses::{AllClauses, Literal};
use crate::decisions::decide;
use crate::hints::Hints;
use crate::propagation::{look_at_all, look_at_question, propagate};
use crate::rules::{Look, Rules};
use crate::steps::put_claims;
use crate::values::Values;
use plank_base::OutOfMemory;
use std::alloc::Global;

/// Puts what follows from the system alone, without a decision; false where nothing meets it.
pub(crate) fn prepare<R: Rules>(
    rules: &R,
    clauses: &AllClauses<'_>,
    values: &mut Values,
    hints: &mut Hints,
) -> bool
    ensures { Propagates (Meets (R.meaning rules.now) (R.constraint_count rules.now) clauses.now) values.old values.new result }
{
    look_at_all(rules, clauses, values, hints) && propagate(rules, clauses, values, hints)
}

/// The search for an answer to a question, from values that follow from the system.
pub(crate) fn answer<R: Rules>(
    alloc: Global,
    rules: &R,
    clauses: &AllClauses<'_>,
    claims: &[Literal],
    values: &mut Values,
    hints: &mut Hints,
) -> Result<bool, OutOfMemory>
    ensures { IfOk result (Searches (MeetsClaims (Meets (R.meaning rules.now) (R.constraint_count rules.now) clauses.now) claims.now) values.old values.new) }
{
    if put_claims(claims, values) && look_at_question(clauses, values, hints) {
        solve(alloc, rules, clauses, values, hints)
    } else {
        Ok(false)
    }
}

/// Propagates, decides a part, and tries its values one after the other.
///
/// True means that every full assignment that agrees with the values then meets every rule; open
/// parts may be left. False means that none that agrees with the values as they were does.
fn solve<R: Rules>(
    alloc: Global,
    rules: &R,
    clauses: &AllClauses<'_>,
    values: &mut Values,
    hints: &mut Hints,
) -> Result<bool, OutOfMemory>
    ensures { IfOk result (Searches (Meets (R.meaning rules.now) (R.constraint_count rules.now) clauses.now) values.old values.new) }
{
    'decisions: while propagate(rules, clauses, values, hints) {
        let part = match decide(alloc, rules, clauses, values, hints)? {
            Look::Fails => return Ok(false),
            Look::Holds => return Ok(true),
            Look::Needs(part) => part,
        };
        let saved = values.save(alloc)?;
        let mark = hints.waiting.mark();
        let value = hints.is_goal(part);
        hints.count_decision();
        values.put(part, value);
        if solve(alloc, rules, clauses, values, hints)? {
            return Ok(true);
        }
        hints.waiting.undo(mark);
        take_back(values, saved, part, !value);
    }
    hints.count_conflict();
    Ok(false)
}

// The saved values, with the other value of the part.
fn take_back(values: &mut Values, saved: Vec<Option<bool>>, part: usize, value: bool)
    requires { IsOpen saved.items part }
    ensures { values.new ≡ with_value saved.items part value }
{
    values.restore(saved);
    values.put(part, value);
}
