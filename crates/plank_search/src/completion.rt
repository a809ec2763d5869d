ghost use Rattle.std.specs.Prelude.{◌≡◌, IfOk};
ghost use Rattle.plank_search.specs.Assignments.{IsOpen};
ghost use Rattle.plank_search.specs.Meanings.{Meets};
ghost use Rattle.plank_search.specs.Answers.{Fills, Completes};

use crate::clauses::{AllClauses, Literal};
use crate::decisions::last_pass;
use crate::hints::Hints;
use crate::propagation::propagate;
use crate::rules::{Look, Rules};
use crate::values::Values;
use plank_base::OutOfMemory;
use std::alloc::Global;

/// Tries one full assignment: each open part in turn gets a value, with what follows. False means
/// that this one does not do, and leaves the values as they were.
pub(crate) fn complete<R: Rules>(
    alloc: Global,
    rules: &R,
    clauses: &AllClauses<'_>,
    values: &mut Values,
    hints: &mut Hints,
) -> Result<bool, OutOfMemory>
    ensures { IfOk result (Completes (Meets (R.meaning rules.now) (R.constraint_count rules.now) clauses.now) values.old values.new) }
{
    let saved = values.save(alloc)?;
    let mark = hints.waiting.mark();
    if fill_all(alloc, rules, clauses, values, hints)? {
        match last_pass(rules, clauses, values, hints) {
            Look::Holds => return Ok(true),
            Look::Fails | Look::Needs(_) => {}
        }
    }
    hints.waiting.undo(mark);
    values.restore(saved);
    Ok(false)
}

// Gives each open part a value; false where one can have neither.
fn fill_all<R: Rules>(
    alloc: Global,
    rules: &R,
    clauses: &AllClauses<'_>,
    values: &mut Values,
    hints: &mut Hints,
) -> Result<bool, OutOfMemory>
    ensures { IfOk result (Fills values.old values.new) }
{
    for part in 0..values.len() {
        if !fill(alloc, rules, clauses, part, values, hints)? {
            return Ok(false);
        }
    }
    Ok(true)
}

// Gives a part the value that is tried first, or where that fails at once the other.
fn fill<R: Rules>(
    alloc: Global,
    rules: &R,
    clauses: &AllClauses<'_>,
    part: usize,
    values: &mut Values,
    hints: &mut Hints,
) -> Result<bool, OutOfMemory>
    ensures { IfOk result (Fills values.old values.new) }
{
    if values.get(part).is_some() {
        return Ok(true);
    }
    let value = hints.is_goal(part);
    let saved = values.save(alloc)?;
    let mark = hints.waiting.mark();
    if put_through(rules, clauses, Literal { part, value }, values, hints) {
        return Ok(true);
    }
    hints.waiting.undo(mark);
    values.restore(saved);
    let other = Literal {
        part,
        value: !value,
    };
    Ok(put_through(rules, clauses, other, values, hints))
}

// Puts a literal, with what follows; false on a conflict.
fn put_through<R: Rules>(
    rules: &R,
    clauses: &AllClauses<'_>,
    literal: Literal,
    values: &mut Values,
    hints: &mut Hints,
) -> bool
    requires { IsOpen values.old literal.part }
    ensures { Fills values.old values.new result }
{
    values.put(literal.part, literal.value);
    propagate(rules, clauses, values, hints)
}
