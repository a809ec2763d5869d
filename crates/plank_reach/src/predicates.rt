ghost use Rattle.std.specs.Prelude.{◌≡◌};
ghost use Rattle.plank_pic.specs.Steps.{Source};
ghost use Rattle.plank_fact.specs.Literals.{past_name};
ghost use Rattle.plank_fact.specs.After.{named_before};
ghost use Rattle.plank_fact.specs.Hindsight.{is_node_shared, is_witnessed};
ghost use Rattle.plank_step.specs.Turns.{source_from};
ghost use Rattle.plank_walk.specs.Settles.{Settles};
ghost use Rattle.plank_query.specs.Situations.{is_fit};
ghost use Rattle.plank_query.specs.Predicates.{holds};

use crate::voices::Voice;
use plank_pic::{KeyName, Literal, Part};
use plank_prog::Reference;
use plank_query::{Predicate, Situation, Speaker};
use plank_step::Origin;
use plank_truth::{Calls, is_others, is_owned, is_usable, same_value, truth};
use plank_walk::{Reader, Seen, admits, node_keeps};

// The name of the node that a literal is said of, where that may be a past fact.
fn past_name(literal: Literal) -> Option<Reference>
    ensures { result ≡ past_name literal }
{
    match literal {
        Literal::Visited { name } | Literal::Flag { name, .. } | Literal::NoFlag { name, .. } => {
            Some(name)
        }
        _ => None,
    }
}

/// Whether the node that a literal says something of is shared.
pub fn is_node_shared<S: Reader, C: Calls>(
    source: &S,
    caller: &C,
    literal: Literal,
    log: &mut S::Log,
) -> Result<bool, usize>
    ensures { Settles (λ full. is_node_shared (S.picture source.now full) (C.caller caller.now) literal) (S.known source.now) result }
{
    match past_name(literal) {
        Some(reference) => source.says(
            Part::Shared {
                name: caller.name_of(reference),
            },
            log,
        ),
        None => Ok(true),
    }
}

fn is_witnessed<S: Reader, C: Calls>(
    source: &S,
    caller: &C,
    literal: Literal,
    log: &mut S::Log,
) -> Result<bool, usize>
    ensures { Settles (λ full. is_witnessed (S.picture source.now full) (C.caller caller.now) literal) (S.known source.now) result }
{
    Ok(truth(source, caller, literal, log)? && is_node_shared(source, caller, literal, log)?)
}

fn named_before<S: Reader>(
    source: &S,
    origin: Origin,
    name: u8,
    log: &mut S::Log,
) -> Result<bool, usize>
    ensures { Settles (λ full. named_before (S.picture source.now full) (source_from origin) name) (S.known source.now) result }
{
    match origin {
        Origin::Name(from) => same_value(source, name, from, log),
        Origin::Null => source.says(Part::Null { name }, log),
        Origin::Fresh => Ok(false),
    }
}

/// Whether what is said of a picture of a situation is true.
pub fn holds<S: Reader>(
    source: &S,
    situation: &Situation<'_>,
    predicate: Predicate,
    log: &mut S::Log,
) -> Result<bool, usize>
    ensures { Settles (λ full. holds (S.frame source.now).header situation.now (S.picture source.now full) predicate) (S.known source.now) result }
{
    let situation = *situation;
    let own = Voice {
        situation,
        of: Speaker::Own,
    };
    let key = KeyName::Any;
    match predicate {
        Predicate::Says(part) => source.says(part, log),
        Predicate::IsTrue { of, literal } => truth(source, &Voice { situation, of }, literal, log),
        Predicate::IsWitnessed(literal) => is_witnessed(source, &own, literal, log),
        Predicate::IsNodeShared(literal) => is_node_shared(source, &own, literal, log),
        Predicate::NamedBefore { origin, name } => named_before(source, origin, name, log),
        Predicate::IsUsable(name) => is_usable(source, name, log),
        Predicate::IsOwned(name) => is_owned(source, true, name, log),
        Predicate::Keeps { name, keep } => node_keeps(source, key, name, keep, log),
        Predicate::Admits { name, pointer } => {
            admits(source, Seen::Node { key, name }, pointer, log)
        }
    }
}

/// Whether a name is of a node that is there for whoever has the name.
pub fn is_fit<S: Reader>(
    source: &S,
    situation: &Situation<'_>,
    name: u8,
    log: &mut S::Log,
) -> Result<bool, usize>
    ensures { Settles (λ full. is_fit situation.now (S.picture source.now full) name) (S.known source.now) result }
{
    match *situation {
        Situation::Node | Situation::Names { .. } => Ok(true),
        Situation::Own(_) | Situation::Step(_) | Situation::Write(_) => {
            is_usable(source, name, log)
        }
        Situation::Effect(turn) => {
            if name < turn.variables + 1 {
                return Ok(true);
            }
            is_others(source, name, log)
        }
    }
}
