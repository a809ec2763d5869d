ghost use Rattle.std.specs.Prelude.{◌≡◌, ◌<◌, Some, IfOk};
ghost use Rattle.plank_search.specs.Assignments.{IsOpen};
ghost use Rattle.plank_search.specs.Meanings.{MeetsRules, MeetsClauses, Meets};
ghost use Rattle.plank_search.specs.Answers.{Tells, Decides, IsOpenIfSome, look_for};

use crate::clauses::AllClauses;
use crate::completion::complete;
use crate::hints::Hints;
use crate::rules::{Look, Rules};
use crate::steps::{Standing, examine};
use crate::values::Values;
use plank_base::OutOfMemory;
use std::alloc::Global;

/// The part to split on. It is the most blamed of those that constraints wait for; where none
/// waits, one that the last pass postponed. Where none is left, one full assignment is tried, and
/// where that does not do, the last pass looks at everything once more.
pub(crate) fn decide<R: Rules>(
    alloc: Global,
    rules: &R,
    clauses: &AllClauses<'_>,
    values: &mut Values,
    hints: &mut Hints,
) -> Result<Look, OutOfMemory>
    ensures { IfOk result (Decides (Meets (R.meaning rules.now) (R.constraint_count rules.now) clauses.now) values.old values.new) }
{
    if let Some(part) = needed_part(values, hints) {
        return Ok(Look::Needs(part));
    }
    if complete(alloc, rules, clauses, values, hints)? {
        return Ok(Look::Holds);
    }
    Ok(last_pass(rules, clauses, values, hints))
}

fn needed_part(values: &Values, hints: &mut Hints) -> Option<usize>
    ensures { IsOpenIfSome values.now result }
{
    match most_blamed_waiting(values, hints) {
        Some(part) => Some(part),
        None => next_postponed(values, hints),
    }
}

fn next_postponed(values: &Values, hints: &mut Hints) -> Option<usize>
    ensures { IsOpenIfSome values.now result }
{
    for _ in 0..hints.postponed_count() {
        let part = if_open(values, hints.take_postponed());
        if part.is_some() {
            return part;
        }
    }
    None
}

fn if_open(values: &Values, part: Option<usize>) -> Option<usize>
    ensures { IsOpenIfSome values.now result }
{
    let part = part?;
    match values.get(part) {
        None => Some(part),
        Some(_) => None,
    }
}

fn most_blamed_waiting(values: &Values, hints: &Hints) -> Option<usize>
    ensures { IsOpenIfSome values.now result }
{
    let mut best = None;
    let mut from = 0;
    for _ in 0..hints.waiting.len() {
        let Some(constraint) = hints.waiting.next_needing(from) else {
            return best;
        };
        best = with_candidate(values, hints, best, hints.waiting.needed(constraint));
        from = constraint.saturating_add(1);
    }
    best
}

// The candidate, if it is open and more blamed than the best so far.
fn with_candidate(
    values: &Values,
    hints: &Hints,
    best: Option<usize>,
    candidate: Option<usize>,
) -> Option<usize>
    requires { IsOpenIfSome values.now best }
    ensures { IsOpenIfSome values.now result }
{
    match candidate {
        None => best,
        Some(part) => match values.get(part) {
            Some(_) => best,
            None => Some(more_blamed(values, hints, best, part)),
        },
    }
}

fn more_blamed(values: &Values, hints: &Hints, best: Option<usize>, part: usize) -> usize
    requires best { IsOpenIfSome values.now best }
    requires part { IsOpen values.now part }
    ensures { IsOpen values.now result }
{
    match best {
        None => part,
        Some(best) => {
            if hints.blame_of(best) < hints.blame_of(part) {
                part
            } else {
                best
            }
        }
    }
}

/// Looks at every rule once more.
pub(crate) fn last_pass<R: Rules>(
    rules: &R,
    clauses: &AllClauses<'_>,
    values: &Values,
    hints: &mut Hints,
) -> Look
    ensures { Tells (Meets (R.meaning rules.now) (R.constraint_count rules.now) clauses.now) values.now result }
{
    match pass_over_constraints(rules, values, hints) {
        Look::Fails => Look::Fails,
        Look::Needs(part) => Look::Needs(part),
        Look::Holds => pass_over_clauses(clauses, values, hints),
    }
}

fn pass_over_constraints<R: Rules>(rules: &R, values: &Values, hints: &mut Hints) -> Look
    ensures { Tells (MeetsRules (R.meaning rules.now) (R.constraint_count rules.now)) values.now result }
{
    let mut need = None;
    for constraint in 0..rules.constraints() {
        match rules.look(constraint, values, &mut hints.reads) {
            Look::Fails => return Look::Fails,
            Look::Holds => {}
            Look::Needs(part) => {
                hints.postpone(part);
                need = Some(more_blamed(values, hints, need, part));
            }
        }
    }
    look_of(need)
}

fn pass_over_clauses(clauses: &AllClauses<'_>, values: &Values, hints: &Hints) -> Look
    ensures { Tells (MeetsClauses clauses.now) values.now result }
{
    let mut need = None;
    for clause in 0..clauses.len() {
        match examine(clauses.get(clause), values) {
            Standing::Broken => return Look::Fails,
            Standing::Kept => {}
            Standing::Unit(literal) => need = Some(more_blamed(values, hints, need, literal.part)),
            Standing::Loose(part) => need = Some(more_blamed(values, hints, need, part)),
        }
    }
    look_of(need)
}

fn look_of(need: Option<usize>) -> Look
    ensures { result ≡ look_for need }
{
    match need {
        None => Look::Holds,
        Some(part) => Look::Needs(part),
    }
}
