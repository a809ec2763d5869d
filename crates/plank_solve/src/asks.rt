ghost use Rattle.std.specs.Prelude.{◌≡◌, ◌≤◌, ◌++◌, ◌∷◌, [], map, length, IfOk};
ghost use Rattle.plank_lawful.specs.Families.{IsSmall};
ghost use Rattle.plank_lawful.specs.Lists.{joined};
ghost use Rattle.plank_query.specs.Situations.{names};
ghost use Rattle.plank_reach.specs.Steps.{step_of};
ghost use Rattle.plank_solve.specs.Lists.{fits_at, left_at, reaches_at, stays_at, stays_of, tests_of_step, asks_of_step, asks_of_turn, asks_of};

use plank_base::OutOfMemory;
use plank_lawful::{Family, KeyRule, NameRule, PointerRule, Rule, lawful_rules, possible_rules};
use plank_parts::{Numbering, Side, View};
use plank_pic::{KeyName, Part};
use plank_query::{Claim, Goal, Question};
use plank_reach::step_of;
use plank_search::Values;
use plank_stay::Way;
use plank_walk::Reader;
use std::alloc::Global;

/// One thing that is asked of the pictures of a question.
#[derive(Clone, Copy)]
pub enum Ask {
    /// A rule of the picture before.
    Lawful(Rule),
    /// A rule of the picture after.
    Possible(Rule),
    /// The name is of a node that is there for whoever has the name.
    Fits(u8),
    /// The claim is right of the picture before, or of the picture after.
    Before(Claim),
    After(Claim),
    /// The turn takes its exit.
    Runs,
    /// Its write reaches a node, and says whether the call is spent.
    Writes,
    /// What the step leaves of a part is there after it.
    Left(Part),
    /// Where the walks before and after its write meet again, a visited node stays visited. It follows from
    /// what the step leaves, and is seen sooner.
    Stays(Way),
    /// If this number is yes, the goal is reached.
    Reaches { number: usize, goal: Goal },
}

impl Ask {
    /// Whether it is looked at during the search, since no closure puts what follows from it. A hint.
    pub(crate) fn is_watched(&self) -> bool {
        match self {
            Ask::Lawful(rule) => is_open(rule.family),
            Ask::Possible(rule) => is_open(rule.family),
            Ask::Fits(_)
            | Ask::Before(_)
            | Ask::After(_)
            | Ask::Runs
            | Ask::Writes
            | Ask::Left(_)
            | Ask::Stays(_)
            | Ask::Reaches { .. } => true,
        }
    }
}

// Whether the rules of a family are no closure's.
fn is_open(family: Family) -> bool {
    match family {
        Family::Names(rule) => match rule {
            NameRule::Itself | NameRule::Owned | NameRule::Held => true,
            NameRule::BothWays
            | NameRule::Together
            | NameRule::NullNode
            | NameRule::NullFlag
            | NameRule::NullPointer => false,
        },
        Family::Nodes(_) => false,
        Family::Pointers(rule) => match rule {
            PointerRule::Somewhere | PointerRule::BeyondItself => true,
            PointerRule::Once
            | PointerRule::OneTarget
            | PointerRule::BeyondBothWays
            | PointerRule::BeyondTogether => false,
        },
        Family::Keys(rule) => match rule {
            KeyRule::Ends | KeyRule::Ordinary => true,
            KeyRule::Total | KeyRule::InOrder => false,
        },
        Family::Walks(_) | Family::Chains(_) | Family::Kept(_) => true,
    }
}

fn push_claims_before(claims: &[Claim], asks: &mut Vec<Ask>) -> Result<(), OutOfMemory>
    ensures { IfOk result (λ _. asks.new.items ≡ asks.old.items ++ map Ask.Before claims.now) }
{
    for claim in claims {
        asks.push(Ask::Before(*claim))?;
    }
    Ok(())
}

fn push_claims_after(claims: &[Claim], asks: &mut Vec<Ask>) -> Result<(), OutOfMemory>
    ensures { IfOk result (λ _. asks.new.items ≡ asks.old.items ++ map Ask.After claims.now) }
{
    for claim in claims {
        asks.push(Ask::After(*claim))?;
    }
    Ok(())
}

fn push_lawful(rules: &[Rule], asks: &mut Vec<Ask>) -> Result<(), OutOfMemory>
    ensures { IfOk result (λ _. asks.new.items ≡ asks.old.items ++ map Ask.Lawful rules.now) }
{
    for rule in rules {
        asks.push(Ask::Lawful(*rule))?;
    }
    Ok(())
}

fn push_possible(rules: &[Rule], asks: &mut Vec<Ask>) -> Result<(), OutOfMemory>
    ensures { IfOk result (λ _. asks.new.items ≡ asks.old.items ++ map Ask.Possible rules.now) }
{
    for rule in rules {
        asks.push(Ask::Possible(*rule))?;
    }
    Ok(())
}

#[tactic(auto, using(plank_lawful::proofs::Joined::joined_none))]
fn push_fits(names: u8, asks: &mut Vec<Ask>) -> Result<(), OutOfMemory>
    ensures { IfOk result (λ _. asks.new.items ≡ asks.old.items ++ joined fits_at names) }
{
    for name in 0..names {
        asks.push(Ask::Fits(name))?;
    }
    Ok(())
}

// What the step leaves of the part of a number, where that is one of the picture after.
fn push_left_at(
    numbering: &Numbering<'_>,
    number: usize,
    asks: &mut Vec<Ask>,
) -> Result<(), OutOfMemory>
    ensures { IfOk result (λ _. asks.new.items ≡ asks.old.items ++ left_at numbering.now.frame numbering.now.table.parts number) }
{
    let Some(of) = numbering.at(number) else {
        return Ok(());
    };
    match of.side {
        Side::Before => {}
        Side::After => {
            if numbering.fits(of.part) {
                asks.push(Ask::Left(of.part))?;
            }
        }
    }
    Ok(())
}

#[tactic(auto, using(plank_lawful::proofs::Joined::joined_none))]
fn push_left(numbering: &Numbering<'_>, asks: &mut Vec<Ask>) -> Result<(), OutOfMemory>
    ensures { IfOk result (λ _. asks.new.items ≡ asks.old.items ++ joined (left_at numbering.now.frame numbering.now.table.parts) (length numbering.now.table.parts)) }
{
    for number in 0..numbering.len() {
        push_left_at(numbering, number, asks)?;
    }
    Ok(())
}

// What is asked of the goal of a number, where there is one.
fn push_goal_at(
    first: usize,
    goals: &[Goal],
    number: usize,
    asks: &mut Vec<Ask>,
) -> Result<(), OutOfMemory>
    ensures { IfOk result (λ _. asks.new.items ≡ asks.old.items ++ reaches_at first goals.now number) }
{
    match goals.get(number) {
        Some(goal) => {
            let number = first.checked_add(number).ok_or(OutOfMemory)?;
            asks.push(Ask::Reaches {
                number,
                goal: *goal,
            })?;
            Ok(())
        }
        None => Ok(()),
    }
}

#[tactic(auto, using(plank_lawful::proofs::Joined::joined_none))]
fn push_goals(first: usize, goals: &[Goal], asks: &mut Vec<Ask>) -> Result<(), OutOfMemory>
    ensures { IfOk result (λ _. asks.new.items ≡ asks.old.items ++ joined (reaches_at first goals.now) (length goals.now)) }
{
    for number in 0..goals.len() {
        push_goal_at(first, goals, number, asks)?;
    }
    Ok(())
}

// The turn takes its exit, and its write reaches a node.
fn push_runs(asks: &mut Vec<Ask>) -> Result<(), OutOfMemory>
    ensures { IfOk result (λ _. asks.new.items ≡ asks.old.items ++ Ask.Runs ∷ Ask.Writes ∷ []) }
{
    asks.push(Ask::Runs)?;
    asks.push(Ask::Writes)?;
    Ok(())
}

// That a node stays visited by each key, where the edge of the written node led to another.
fn push_stays_at(name: u8, out: u8, asks: &mut Vec<Ask>) -> Result<(), OutOfMemory>
    ensures { IfOk result (λ _. asks.new.items ≡ asks.old.items ++ stays_at name out) }
{
    let key = KeyName::Own;
    asks.push(Ask::Stays(Way { key, name, out }))?;
    let key = KeyName::Other;
    asks.push(Ask::Stays(Way { key, name, out }))?;
    let key = KeyName::Any;
    asks.push(Ask::Stays(Way { key, name, out }))?;
    Ok(())
}

#[tactic(auto, using(plank_lawful::proofs::Joined::joined_none))]
fn push_stays_of(names: u8, name: u8, asks: &mut Vec<Ask>) -> Result<(), OutOfMemory>
    ensures { IfOk result (λ _. asks.new.items ≡ asks.old.items ++ stays_of names name) }
{
    for out in 0..names {
        push_stays_at(name, out, asks)?;
    }
    Ok(())
}

#[tactic(auto, using(plank_lawful::proofs::Joined::joined_none))]
fn push_stays(names: u8, asks: &mut Vec<Ask>) -> Result<(), OutOfMemory>
    ensures { IfOk result (λ _. asks.new.items ≡ asks.old.items ++ joined (stays_of names) names) }
{
    for name in 0..names {
        push_stays_of(names, name, asks)?;
    }
    Ok(())
}

fn push_tests(
    alloc: Global,
    source: &View<'_, '_, '_>,
    asks: &mut Vec<Ask>,
) -> Result<(), OutOfMemory>
    requires small { IsSmall source.now.numbering.now.frame }
    ensures { IfOk result (λ _. asks.new.items ≡ asks.old.items ++ tests_of_step source.now.numbering.now.frame source.now.numbering.now.table) }
{
    push_runs(asks)?;
    push_possible(possible_rules(alloc, source)?.as_slice(), asks)?;
    push_left(source.numbering, asks)?;
    Ok(())
}

fn push_step(
    alloc: Global,
    source: &View<'_, '_, '_>,
    kept: bool,
    asks: &mut Vec<Ask>,
) -> Result<(), OutOfMemory>
    requires small { IsSmall source.now.numbering.now.frame }
    ensures { IfOk result (λ _. asks.new.items ≡ asks.old.items ++ asks_of_step source.now.numbering.now.frame source.now.numbering.now.table kept) }
{
    push_tests(alloc, source, asks)?;
    if kept {
        push_stays(source.names(), asks)?;
    }
    Ok(())
}

// What is asked of the turn of a situation, where it takes a step.
fn push_turn(
    alloc: Global,
    source: &View<'_, '_, '_>,
    question: &Question<'_>,
    asks: &mut Vec<Ask>,
) -> Result<(), OutOfMemory>
    requires small { IsSmall source.now.numbering.now.frame }
    ensures { IfOk result (λ _. asks.new.items ≡ asks.old.items ++ asks_of_turn source.now.numbering.now.frame source.now.numbering.now.table (step_of question.now.situation)) }
{
    match step_of(&question.situation) {
        Some(step) => push_step(alloc, source, step.kept, asks),
        None => Ok(()),
    }
}

/// All that a search asks of the pictures of a question. The switch of a goal has the number of the
/// goal behind those of parts.
pub(crate) fn asks_of(
    alloc: Global,
    question: &Question<'_>,
    numbering: &Numbering<'_>,
) -> Result<Vec<Ask>, OutOfMemory>
    requires small { IsSmall numbering.now.frame }
    requires names { names question.now.situation ≤ 16 }
    ensures { IfOk result (λ asks. asks.items ≡ asks_of question.now numbering.now.frame numbering.now.table) }
{
    let values = Values::new(alloc, &[])?;
    let source = View {
        numbering,
        values: &values,
        side: Side::Before,
    };
    let mut asks = Vec::new(alloc);
    push_claims_before(question.before, &mut asks)?;
    push_claims_after(question.after, &mut asks)?;
    push_fits(question.situation.names(), &mut asks)?;
    push_turn(alloc, &source, question, &mut asks)?;
    push_goals(numbering.len(), question.goals, &mut asks)?;
    push_lawful(lawful_rules(alloc, &source)?.as_slice(), &mut asks)?;
    Ok(asks)
}
