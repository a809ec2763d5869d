ghost use Rattle.std.specs.Prelude.{◌≡◌, ◌<◌, true};
ghost use Rattle.plank_search.specs.Assignments.{IsOpen};
ghost use Rattle.plank_search.specs.Meanings.{literal_holds, clause_holds, claims_hold};
ghost use Rattle.plank_search.specs.Answers.{Propagates, Steps, Probes, Stands, Puts};

use crate::clauses::{Clauses, Literal};
use crate::hints::Hints;
use crate::rules::{Look, Rules};
use crate::values::{Reads, Values};

/// What a step of the propagation did.
#[derive(Clone, Copy, PartialEq, Eq, Debug)]
pub(crate) enum Step {
    /// Nothing that meets agrees with the values.
    Conflict,
    /// The values are as they were.
    Kept,
    /// At least one more part has a value.
    Narrowed,
}

/// How a clause stands under a partial assignment.
#[derive(Clone, Copy, PartialEq, Eq, Debug)]
pub(crate) enum Standing {
    /// Every literal is false.
    Broken,
    /// A literal holds.
    Kept,
    /// One literal is open and the others are false.
    Unit(Literal),
    /// At least two literals are open, one of them of this part.
    Loose(usize),
}

/// Looks at a constraint as if an open part had a value.
fn probe<R: Rules>(
    rules: &R,
    constraint: usize,
    values: &mut Values,
    reads: &mut Reads,
    part: usize,
    value: bool,
) -> Look
    requires constraint { constraint < R.constraint_count rules.now }
    requires part { IsOpen values.old part }
    ensures same { values.new ≡ values.old }
    ensures told { Probes (λ full. R.meaning rules.now constraint full ≡ true) values.old part value result }
{
    values.suppose(part, value);
    let look = rules.look(constraint, values, reads);
    values.reopen(part);
    look
}

/// Looks at a constraint once, and under both values of the part that it needs.
fn turn<R: Rules>(rules: &R, constraint: usize, values: &mut Values, hints: &mut Hints) -> Step
    requires { constraint < R.constraint_count rules.now }
    ensures { Steps (λ full. R.meaning rules.now constraint full ≡ true) values.old values.new result }
{
    hints.reads.clear();
    match rules.look(constraint, values, &mut hints.reads) {
        Look::Fails => Step::Conflict,
        Look::Holds => {
            hints.waiting.wait(constraint, [None, None, None]);
            Step::Kept
        }
        Look::Needs(part) => match open_outcome(rules, constraint, values, part) {
            Some(outcome) => {
                hints
                    .waiting
                    .wait(constraint, [Some(part), Some(outcome), None]);
                Step::Kept
            }
            None => look_under_both(rules, constraint, values, hints, part),
        },
    }
}

// The outcome of a constraint, where it is open and not the part that is needed.
fn open_outcome<R: Rules>(
    rules: &R,
    constraint: usize,
    values: &Values,
    needed: usize,
) -> Option<usize> {
    let outcome = rules.outcome(constraint)?;
    if outcome != needed && values.get(outcome).is_none() {
        Some(outcome)
    } else {
        None
    }
}

/// The two-value look: a value under which the constraint fails is ruled out.
fn look_under_both<R: Rules>(
    rules: &R,
    constraint: usize,
    values: &mut Values,
    hints: &mut Hints,
    part: usize,
) -> Step
    requires constraint { constraint < R.constraint_count rules.now }
    requires part { IsOpen values.old part }
    ensures { Steps (λ full. R.meaning rules.now constraint full ≡ true) values.old values.new result }
{
    hints.reads.clear();
    let under_no = probe(rules, constraint, values, &mut hints.reads, part, false);
    let under_yes = probe(rules, constraint, values, &mut hints.reads, part, true);
    match (under_no, under_yes) {
        (Look::Fails, Look::Fails) => Step::Conflict,
        (Look::Fails, _) => {
            values.put(part, true);
            Step::Narrowed
        }
        (_, Look::Fails) => {
            values.put(part, false);
            Step::Narrowed
        }
        (no, yes) => {
            hints
                .waiting
                .wait(constraint, [Some(part), needed(no), needed(yes)]);
            Step::Kept
        }
    }
}

fn needed(look: Look) -> Option<usize> {
    match look {
        Look::Needs(part) => Some(part),
        _ => None,
    }
}

/// Looks at a constraint until it says nothing new; false on a conflict.
pub(crate) fn settle<R: Rules>(
    rules: &R,
    constraint: usize,
    values: &mut Values,
    hints: &mut Hints,
) -> bool
    requires { constraint < R.constraint_count rules.now }
    ensures { Propagates (λ full. R.meaning rules.now constraint full ≡ true) values.old values.new result }
{
    'turns: loop {
        match turn(rules, constraint, values, hints) {
            Step::Conflict => {
                hints.blame_reads();
                return false;
            }
            Step::Kept => return true,
            Step::Narrowed => {}
        }
    }
}

/// How a clause stands.
pub(crate) fn examine(clause: &[Literal], values: &Values) -> Standing
    ensures { Stands clause.now values.now result }
{
    let mut open: Option<Literal> = None;
    for literal in clause {
        match values.get(literal.part) {
            Some(value) => {
                if value == literal.value {
                    return Standing::Kept;
                }
            }
            None => {
                if open.is_some() {
                    return Standing::Loose(literal.part);
                }
                open = Some(*literal);
            }
        }
    }
    match open {
        Some(literal) => Standing::Unit(literal),
        None => Standing::Broken,
    }
}

/// Puts the last open literal of a clause whose others are false; false on a conflict.
pub(crate) fn unit(clause: &[Literal], values: &mut Values, hints: &mut Hints) -> bool
    ensures { Propagates (λ full. clause_holds full clause.now ≡ true) values.old values.new result }
{
    match examine(clause, values) {
        Standing::Broken => {
            hints.blame_clause(clause);
            false
        }
        Standing::Unit(literal) => {
            values.put(literal.part, literal.value);
            true
        }
        Standing::Kept | Standing::Loose(_) => true,
    }
}

/// Puts the claims of a question; false where one is against the values or against another claim.
pub(crate) fn put_claims(claims: &[Literal], values: &mut Values) -> bool
    ensures { Puts (λ full. claims_hold full claims.now ≡ true) values.old values.new result }
{
    for claim in claims {
        if !put_claim(*claim, values) {
            return false;
        }
    }
    true
}

fn put_claim(claim: Literal, values: &mut Values) -> bool
    ensures { Puts (λ full. literal_holds full claim ≡ true) values.old values.new result }
{
    match values.get(claim.part) {
        Some(value) => value == claim.value,
        None => {
            values.put(claim.part, claim.value);
            true
        }
    }
}
