ghost use Rattle.std.specs.Prelude.{◌≡◌, map};
ghost use Rattle.plank_pic.specs.declared.parts.Part.{Part};
ghost use Rattle.plank_pic.specs.Pictures.{same_key};
ghost use Rattle.plank_prog.specs.Conditions.{value, all_true, some_true, compares};
ghost use Rattle.plank_walk.specs.Settles.{Settles};
ghost use Rattle.plank_walk.specs.Seen.{seen_view, seen_term};

use crate::readers::Reader;
use crate::seen::Seen;
use plank_pic::{Part, Place, Term};
use plank_prog::{Condition, KeyRelation, KeyTerm};

/// The value of a condition at a node of the picture.
#[cycle(condition)]
pub fn value<S: Reader>(
    source: &S,
    seen: Seen,
    condition: &Condition,
    log: &mut S::Log,
) -> Result<bool, usize>
    ensures { Settles (λ full. value (seen_view (S.picture source.now full) seen) condition.now) (S.known source.now) result }
{
    match condition {
        Condition::Constant(always) => Ok(*always),
        Condition::Flag { flag, set } => Ok(has_flag(source, seen, *flag, log)? == *set),
        Condition::Flags { left, right, equal } => {
            let left = has_flag(source, seen, *left, log)?;
            Ok((left == has_flag(source, seen, *right, log)?) == *equal)
        }
        Condition::Pointer { pointer, null } => Ok(is_null(source, seen, *pointer, log)? == *null),
        Condition::Keys {
            left,
            relation,
            right,
        } => keys_compare(source, seen, *left, *relation, *right, log),
        Condition::Visited => is_visited(source, seen, log),
        Condition::All(parts) => all_hold(source, seen, parts.as_slice(), log),
        Condition::Any(parts) => one_holds(source, seen, parts.as_slice(), log),
    }
}

#[cycle(condition)]
fn all_hold<S: Reader>(
    source: &S,
    seen: Seen,
    parts: &[Condition],
    log: &mut S::Log,
) -> Result<bool, usize>
    ensures { Settles (λ full. all_true (map (value (seen_view (S.picture source.now full) seen)) parts.now)) (S.known source.now) result }
{
    for part in parts {
        if !value(source, seen, part, log)? {
            return Ok(false);
        }
    }
    Ok(true)
}

#[cycle(condition)]
fn one_holds<S: Reader>(
    source: &S,
    seen: Seen,
    parts: &[Condition],
    log: &mut S::Log,
) -> Result<bool, usize>
    ensures { Settles (λ full. some_true (map (value (seen_view (S.picture source.now full) seen)) parts.now)) (S.known source.now) result }
{
    for part in parts {
        if value(source, seen, part, log)? {
            return Ok(true);
        }
    }
    Ok(false)
}

fn has_flag<S: Reader>(source: &S, seen: Seen, flag: u8, log: &mut S::Log) -> Result<bool, usize>
    ensures { Settles (λ full. (seen_view (S.picture source.now full) seen).flag flag) (S.known source.now) result }
{
    match seen {
        Seen::Node { name, .. } => source.says(Part::Flag { name, flag }, log),
        Seen::Stop { key, slot, .. } => source.says(Part::StopFlag { key, slot, flag }, log),
    }
}

fn is_null<S: Reader>(source: &S, seen: Seen, pointer: u8, log: &mut S::Log) -> Result<bool, usize>
    ensures { Settles (λ full. (seen_view (S.picture source.now full) seen).null pointer) (S.known source.now) result }
{
    match seen {
        Seen::Node { name, .. } => source.says(
            Part::PointerNull {
                at: Place { name, pointer },
            },
            log,
        ),
        Seen::Stop { .. } => Ok(false),
    }
}

fn is_visited<S: Reader>(source: &S, seen: Seen, log: &mut S::Log) -> Result<bool, usize>
    ensures { Settles (λ full. (seen_view (S.picture source.now full) seen).visited) (S.known source.now) result }
{
    match seen {
        Seen::Node { key, name } => source.says(Part::Visits { key, name }, log),
        Seen::Stop {
            visited: Some(visited),
            ..
        } => Ok(visited),
        Seen::Stop {
            key,
            slot,
            visited: None,
            ..
        } => source.says(Part::StopVisited { key, slot }, log),
    }
}

// The term of the picture that a term of a condition stands for.
fn seen_term(seen: Seen, term: KeyTerm) -> Term
    ensures { result ≡ seen_term seen term }
{
    match (term, seen) {
        (KeyTerm::Node, Seen::Node { name, .. }) => Term::Node(name),
        (KeyTerm::Node, Seen::Stop { key, slot, .. }) => Term::Stop { key, slot },
        (KeyTerm::Walked, Seen::Node { key, .. }) => Term::Walked(key),
        (KeyTerm::Walked, Seen::Stop { on, .. }) => Term::Walked(on),
        (KeyTerm::Min, _) => Term::Min,
        (KeyTerm::Max, _) => Term::Max,
    }
}

// Whether two terms of a condition compare so.
fn keys_compare<S: Reader>(
    source: &S,
    seen: Seen,
    left: KeyTerm,
    relation: KeyRelation,
    right: KeyTerm,
    log: &mut S::Log,
) -> Result<bool, usize>
    ensures { Settles (λ full. compares (seen_view (S.picture source.now full) seen).at_most relation left right) (S.known source.now) result }
{
    compare(
        source,
        seen_term(seen, left),
        relation,
        seen_term(seen, right),
        log,
    )
}

/// Whether two keys of the picture compare so.
pub fn compare<S: Reader>(
    source: &S,
    left: Term,
    relation: KeyRelation,
    right: Term,
    log: &mut S::Log,
) -> Result<bool, usize>
    ensures { Settles (λ full. compares (λ s t. S.picture source.now full (Part.AtMost s t)) relation left right) (S.known source.now) result }
{
    match relation {
        KeyRelation::Equal => has_same_key(source, left, right, log),
        KeyRelation::NotEqual => Ok(!has_same_key(source, left, right, log)?),
        KeyRelation::Less => Ok(!source.says(
            Part::AtMost {
                left: right,
                right: left,
            },
            log,
        )?),
        KeyRelation::AtMost => source.says(Part::AtMost { left, right }, log),
    }
}

/// Whether two terms have equal keys.
pub fn has_same_key<S: Reader>(
    source: &S,
    left: Term,
    right: Term,
    log: &mut S::Log,
) -> Result<bool, usize>
    ensures { Settles (λ full. same_key (S.picture source.now full) left right) (S.known source.now) result }
{
    Ok(
        source.says(Part::AtMost { left, right }, log)?
            && source.says(
                Part::AtMost {
                    left: right,
                    right: left,
                },
                log,
            )?,
    )
}
