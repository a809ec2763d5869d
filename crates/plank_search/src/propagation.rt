ghost use Rattle.std.specs.Prelude.{◌<◌, true};
ghost use Rattle.plank_search.specs.Meanings.{MeetsRules, MeetsClauses, Meets};
ghost use Rattle.plank_search.specs.Answers.{Propagates};

use crate::clauses::{AllClauses, Literal};
use crate::hints::Hints;
use crate::rules::Rules;
use crate::steps::{settle, unit};
use crate::values::Values;

/// Propagates until no newly put part is left; false on a conflict. After each put come first the
/// clauses and closures, then the constraints that waited for the part.
pub(crate) fn propagate<R: Rules>(
    rules: &R,
    clauses: &AllClauses<'_>,
    values: &mut Values,
    hints: &mut Hints,
) -> bool
    ensures { Propagates (Meets (R.meaning rules.now) (R.constraint_count rules.now) clauses.now) values.old values.new result }
{
    for _ in 0..values.len() {
        if !propagate_clauses(rules, clauses, values, hints) {
            return false;
        }
        let Some(part) = values.next_for_constraints() else {
            return true;
        };
        if !wake_constraints(rules, part, values, hints) {
            return false;
        }
    }
    propagate_clauses(rules, clauses, values, hints)
}

/// Looks at every clause and every watched constraint once; false on a conflict.
pub(crate) fn look_at_all<R: Rules>(
    rules: &R,
    clauses: &AllClauses<'_>,
    values: &mut Values,
    hints: &mut Hints,
) -> bool
    ensures { Propagates (Meets (R.meaning rules.now) (R.constraint_count rules.now) clauses.now) values.old values.new result }
{
    look_at_clauses(clauses, 0, values, hints) && look_at_constraints(rules, values, hints)
}

/// Looks at the clauses of the question, each once; false on a conflict.
pub(crate) fn look_at_question(
    clauses: &AllClauses<'_>,
    values: &mut Values,
    hints: &mut Hints,
) -> bool
    ensures { Propagates (MeetsClauses clauses.now) values.old values.new result }
{
    look_at_clauses(clauses, clauses.first_of_question(), values, hints)
}

// Looks at the clauses from the first one on.
fn look_at_clauses(
    clauses: &AllClauses<'_>,
    first: usize,
    values: &mut Values,
    hints: &mut Hints,
) -> bool
    ensures { Propagates (MeetsClauses clauses.now) values.old values.new result }
{
    for clause in first..clauses.len() {
        if !wake_clause(clauses, clause, values, hints) {
            return false;
        }
    }
    true
}

fn look_at_constraints<R: Rules>(rules: &R, values: &mut Values, hints: &mut Hints) -> bool
    ensures { Propagates (MeetsRules (R.meaning rules.now) (R.constraint_count rules.now)) values.old values.new result }
{
    for constraint in 0..hints.waiting.len() {
        if rules.is_watched(constraint) && !wake_constraint(rules, constraint, values, hints) {
            return false;
        }
    }
    true
}

// Clauses and closures of newly put parts, until none is left.
fn propagate_clauses<R: Rules>(
    rules: &R,
    clauses: &AllClauses<'_>,
    values: &mut Values,
    hints: &mut Hints,
) -> bool
    ensures { Propagates (Meets (R.meaning rules.now) (R.constraint_count rules.now) clauses.now) values.old values.new result }
{
    for _ in 0..values.len() {
        let Some(part) = values.next_for_clauses() else {
            return true;
        };
        if !follow(rules, clauses, part, values, hints) {
            return false;
        }
    }
    true
}

// Puts what follows from a part by clauses and closures.
fn follow<R: Rules>(
    rules: &R,
    clauses: &AllClauses<'_>,
    part: usize,
    values: &mut Values,
    hints: &mut Hints,
) -> bool
    ensures { Propagates (Meets (R.meaning rules.now) (R.constraint_count rules.now) clauses.now) values.old values.new result }
{
    wake_clauses(clauses, part, values, hints) && close(rules, part, values, hints)
}

// The closures of a part.
fn close<R: Rules>(rules: &R, part: usize, values: &mut Values, hints: &mut Hints) -> bool
    ensures { Propagates (MeetsRules (R.meaning rules.now) (R.constraint_count rules.now)) values.old values.new result }
{
    hints.reads.clear();
    let goes = rules.apply(part, values, &mut hints.reads);
    if !goes {
        hints.blame_reads();
    }
    goes
}

// The clauses in which the value of a part makes a literal false.
fn wake_clauses(
    clauses: &AllClauses<'_>,
    part: usize,
    values: &mut Values,
    hints: &mut Hints,
) -> bool
    ensures { Propagates (MeetsClauses clauses.now) values.old values.new result }
{
    let Some(value) = values.get(part) else {
        return true;
    };
    let literal = Literal {
        part,
        value: !value,
    };
    wake_goals(clauses, literal, values, hints) && wake_occurrences(clauses, literal, values, hints)
}

// The clauses of the question, where a goal became no.
fn wake_goals(
    clauses: &AllClauses<'_>,
    literal: Literal,
    values: &mut Values,
    hints: &mut Hints,
) -> bool
    ensures { Propagates (MeetsClauses clauses.now) values.old values.new result }
{
    if literal.value && hints.is_goal(literal.part) {
        look_at_question(clauses, values, hints)
    } else {
        true
    }
}

// The clauses of the system in which a literal stands.
fn wake_occurrences(
    clauses: &AllClauses<'_>,
    literal: Literal,
    values: &mut Values,
    hints: &mut Hints,
) -> bool
    ensures { Propagates (MeetsClauses clauses.now) values.old values.new result }
{
    let mut next = hints.occurrences.first_of(literal);
    for _ in 0..hints.occurrences.len() {
        let Some((clause, after)) = hints.occurrences.item(next) else {
            return true;
        };
        if !wake_clause(clauses, clause, values, hints) {
            return false;
        }
        next = after;
    }
    true
}

fn wake_clause(
    clauses: &AllClauses<'_>,
    clause: usize,
    values: &mut Values,
    hints: &mut Hints,
) -> bool
    ensures { Propagates (MeetsClauses clauses.now) values.old values.new result }
{
    if clause < clauses.len() {
        unit(clauses.get(clause), values, hints)
    } else {
        true
    }
}

// The constraints that wait for a part.
fn wake_constraints<R: Rules>(
    rules: &R,
    part: usize,
    values: &mut Values,
    hints: &mut Hints,
) -> bool
    ensures { Propagates (MeetsRules (R.meaning rules.now) (R.constraint_count rules.now)) values.old values.new result }
{
    let mut next = hints.waiting.first_for(part);
    for _ in 0..hints.waiting.len() {
        let Some(place) = next else {
            return true;
        };
        next = hints.waiting.after(place);
        if !wake_constraint(rules, place / 3, values, hints) {
            return false;
        }
    }
    true
}

fn wake_constraint<R: Rules>(
    rules: &R,
    constraint: usize,
    values: &mut Values,
    hints: &mut Hints,
) -> bool
    ensures { Propagates (MeetsRules (R.meaning rules.now) (R.constraint_count rules.now)) values.old values.new result }
{
    if constraint < rules.constraints() {
        settle(rules, constraint, values, hints)
    } else {
        true
    }
}
