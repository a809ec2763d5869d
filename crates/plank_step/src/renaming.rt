ghost use Rattle.std.specs.Prelude.{◌≡◌, true, false};
ghost use Rattle.plank_pic.specs.declared.parts.Part.{Part};
ghost use Rattle.plank_pic.specs.Below.{some_below};
ghost use Rattle.plank_pic.specs.Pictures.{place};
ghost use Rattle.plank_pic.specs.Steps.{of_name, of_both, moved_term, leads_after, beyond_after, meet_beyond};
ghost use Rattle.plank_walk.specs.Settles.{Settles};
ghost use Rattle.plank_step.specs.Turns.{source_from};
ghost use Rattle.plank_step.specs.Sources.{sources, named_as, both_lead, has_pointer, said_of_name, settled_as};

use crate::turns::{Origin, TakesTurn, source};
use plank_pic::{KeyName, Part, Place, Term};
use plank_walk::Reader;

/// Where a name comes from: in the turn's step, or from itself where its binds are left out.
pub fn origin<T: TakesTurn>(turn: &T, kept: bool, name: u8) -> Origin
    ensures { source_from result ≡ sources (T.turn turn.now) kept name }
{
    if kept {
        Origin::Name(name)
    } else {
        source(turn, name)
    }
}

// What a part says that speaks of one name, of the name that it comes from.
macro_rules! said_of {
    ($from:expr, $name:ident => $said:expr, null: $null:expr, fresh: $fresh:expr) => {
        match $from {
            Origin::Name($name) => $said,
            Origin::Null => Ok($null),
            Origin::Fresh => Ok($fresh),
        }
    };
}

// The same of two names.
macro_rules! said_of_both {
    ($from:expr, $to:expr, $left:ident, $right:ident => $said:expr, fresh: $fresh:expr) => {
        match $from {
            Origin::Name($left) => match $to {
                Origin::Name($right) => $said,
                Origin::Null => Ok(false),
                Origin::Fresh => Ok(false),
            },
            Origin::Null => match $to {
                Origin::Name(_) => Ok(false),
                Origin::Null => Ok(false),
                Origin::Fresh => Ok(false),
            },
            Origin::Fresh => match $to {
                Origin::Name(_) => Ok(false),
                Origin::Null => Ok(false),
                Origin::Fresh => Ok($fresh),
            },
        }
    };
}

// A part of one name, of the picture between.
fn said_of_name<S: Reader, T: TakesTurn>(
    between: &S,
    turn: &T,
    kept: bool,
    part: Part,
    log: &mut S::Log,
) -> Result<bool, usize>
    ensures { Settles (λ full. said_of_name (S.frame between.now) (sources (T.turn turn.now) kept) (S.picture between.now full) part) (S.known between.now) result }
{
    match part {
        Part::Null { name } => {
            said_of!(origin(turn, kept, name), name => between.says(Part::Null { name }, log), null: true, fresh: false)
        }
        Part::Flag { name, flag } => {
            said_of!(origin(turn, kept, name), name => between.says(Part::Flag { name, flag }, log), null: false, fresh: false)
        }
        Part::Shared { name } => {
            said_of!(origin(turn, kept, name), name => between.says(Part::Shared { name }, log), null: false, fresh: false)
        }
        Part::Mine { name } => {
            said_of!(origin(turn, kept, name), name => between.says(Part::Mine { name }, log), null: false, fresh: true)
        }
        Part::Locked { name } => {
            said_of!(origin(turn, kept, name), name => between.says(Part::Locked { name }, log), null: false, fresh: false)
        }
        Part::LockMine { name } => {
            said_of!(origin(turn, kept, name), name => between.says(Part::LockMine { name }, log), null: false, fresh: false)
        }
        Part::LockOthers { name } => {
            said_of!(origin(turn, kept, name), name => between.says(Part::LockOthers { name }, log), null: false, fresh: false)
        }
        _ => Ok(false),
    }
}

fn is_null_after<S: Reader, T: TakesTurn>(
    between: &S,
    turn: &T,
    kept: bool,
    at: Place,
    log: &mut S::Log,
) -> Result<bool, usize>
    ensures { Settles (λ full. of_name (λ n. S.picture between.now full (Part.PointerNull (place n at.pointer))) false true (sources (T.turn turn.now) kept at.name)) (S.known between.now) result }
{
    let pointer = at.pointer;
    said_of!(origin(turn, kept, at.name), name => between.says(Part::PointerNull { at: Place { name, pointer } }, log), null: false, fresh: true)
}

fn is_same_after<S: Reader, T: TakesTurn>(
    between: &S,
    turn: &T,
    kept: bool,
    names: (u8, u8),
    log: &mut S::Log,
) -> Result<bool, usize>
    ensures { Settles (λ full. of_both (λ n m. S.picture between.now full (Part.Same n m)) true (sources (T.turn turn.now) kept names.0) (sources (T.turn turn.now) kept names.1)) (S.known between.now) result }
{
    let (one, other) = names;
    said_of_both!(origin(turn, kept, one), origin(turn, kept, other), left, right => between.says(Part::Same { left, right }, log), fresh: true)
}

/// Whether a pointer leads to a name's node under the names of after.
pub fn leads_after<S: Reader, T: TakesTurn>(
    between: &S,
    turn: &T,
    kept: bool,
    at: Place,
    to: u8,
    log: &mut S::Log,
) -> Result<bool, usize>
    ensures { Settles (λ full. leads_after (S.frame between.now) (sources (T.turn turn.now) kept) (S.picture between.now full) at to) (S.known between.now) result }
{
    let pointer = at.pointer;
    said_of_both!(origin(turn, kept, at.name), origin(turn, kept, to), name, to => between.says(Part::Leads { at: Place { name, pointer }, to }, log), fresh: false)
}

#[tactic(auto, using(plank_pic::proofs::Below::none_below, plank_pic::proofs::Below::some_more))]
fn leads_to_some_after<S: Reader, T: TakesTurn>(
    between: &S,
    turn: &T,
    kept: bool,
    at: Place,
    log: &mut S::Log,
) -> Result<bool, usize>
    ensures { Settles (λ full. some_below (leads_after (S.frame between.now) (sources (T.turn turn.now) kept) (S.picture between.now full) at) (S.frame between.now).names) (S.known between.now) result }
{
    for to in 0..between.names() {
        if leads_after(between, turn, kept, at, to, log)? {
            return Ok(true);
        }
    }
    Ok(false)
}

fn has_pointer<S: Reader>(
    between: &S,
    pointer: u8,
    name: u8,
    log: &mut S::Log,
) -> Result<bool, usize>
    ensures { Settles (λ full. has_pointer (S.picture between.now full) pointer name) (S.known between.now) result }
{
    let at = Place { name, pointer };
    Ok(!between.says(Part::Null { name }, log)? && !between.says(Part::PointerNull { at }, log)?)
}

fn has_pointer_after<S: Reader, T: TakesTurn>(
    between: &S,
    turn: &T,
    kept: bool,
    at: Place,
    log: &mut S::Log,
) -> Result<bool, usize>
    ensures { Settles (λ full. of_name (has_pointer (S.picture between.now full) at.pointer) false false (sources (T.turn turn.now) kept at.name)) (S.known between.now) result }
{
    said_of!(origin(turn, kept, at.name), name => has_pointer(between, at.pointer, name, log), null: false, fresh: false)
}

/// Whether a pointer leads outside under the names of after: it is not null, and leads to no name's
/// node.
pub fn beyond_after<S: Reader, T: TakesTurn>(
    between: &S,
    turn: &T,
    kept: bool,
    at: Place,
    log: &mut S::Log,
) -> Result<bool, usize>
    ensures { Settles (λ full. beyond_after (S.frame between.now) (sources (T.turn turn.now) kept) (S.picture between.now full) at) (S.known between.now) result }
{
    Ok(
        has_pointer_after(between, turn, kept, at, log)?
            && !leads_to_some_after(between, turn, kept, at, log)?,
    )
}

fn both_lead<S: Reader>(
    between: &S,
    left: Place,
    right: Place,
    to: u8,
    log: &mut S::Log,
) -> Result<bool, usize>
    ensures { Settles (λ full. both_lead (S.picture between.now full) left right to) (S.known between.now) result }
{
    Ok(
        between.says(Part::Leads { at: left, to }, log)?
            && between.says(Part::Leads { at: right, to }, log)?,
    )
}

#[tactic(auto, using(plank_pic::proofs::Below::none_below, plank_pic::proofs::Below::some_more))]
fn lead_to_one<S: Reader>(
    between: &S,
    left: Place,
    right: Place,
    log: &mut S::Log,
) -> Result<bool, usize>
    ensures { Settles (λ full. some_below (both_lead (S.picture between.now full) left right) (S.frame between.now).names) (S.known between.now) result }
{
    for to in 0..between.names() {
        if both_lead(between, left, right, to, log)? {
            return Ok(true);
        }
    }
    Ok(false)
}

fn meet_beyond<S: Reader>(
    between: &S,
    left: Place,
    right: Place,
    log: &mut S::Log,
) -> Result<bool, usize>
    ensures { Settles (λ full. meet_beyond (S.frame between.now) (S.picture between.now full) left right) (S.known between.now) result }
{
    Ok(
        between.says(Part::SameBeyond { left, right }, log)?
            || lead_to_one(between, left, right, log)?,
    )
}

fn meet_after<S: Reader, T: TakesTurn>(
    between: &S,
    turn: &T,
    kept: bool,
    places: (Place, Place),
    log: &mut S::Log,
) -> Result<bool, usize>
    ensures { Settles (λ full. of_both (λ n m. meet_beyond (S.frame between.now) (S.picture between.now full) (place n places.0.pointer) (place m places.1.pointer)) false (sources (T.turn turn.now) kept places.0.name) (sources (T.turn turn.now) kept places.1.name)) (S.known between.now) result }
{
    let (left, right) = places;
    let (one, other) = (left.pointer, right.pointer);
    said_of_both!(origin(turn, kept, left.name), origin(turn, kept, right.name), name, to => meet_beyond(between, Place { name, pointer: one }, Place { name: to, pointer: other }, log), fresh: false)
}

fn same_beyond_after<S: Reader, T: TakesTurn>(
    between: &S,
    turn: &T,
    kept: bool,
    places: (Place, Place),
    log: &mut S::Log,
) -> Result<bool, usize>
    ensures { Settles (λ full. named_as (S.frame between.now) (sources (T.turn turn.now) kept) (S.picture between.now full) (Part.SameBeyond places.0 places.1)) (S.known between.now) result }
{
    Ok(
        beyond_after(between, turn, kept, places.0, log)?
            && beyond_after(between, turn, kept, places.1, log)?
            && meet_after(between, turn, kept, places, log)?,
    )
}

// The term that a term of after was.
fn term_before<T: TakesTurn>(turn: &T, kept: bool, term: Term) -> Term
    ensures { result ≡ moved_term (sources (T.turn turn.now) kept) term }
{
    match term {
        Term::Node(name) => match origin(turn, kept, name) {
            Origin::Name(name) => Term::Node(name),
            Origin::Null => Term::Min,
            Origin::Fresh => Term::Walked(KeyName::Own),
        },
        Term::Min => term,
        Term::Max => term,
        Term::Walked(_) => term,
        Term::Stop { .. } => term,
    }
}

/// The value of a part under the names of after, where it has one whatever the write leaves: of
/// names, nodes, fields, owners, locks and the order of keys.
pub fn named_as<S: Reader, T: TakesTurn>(
    between: &S,
    turn: &T,
    kept: bool,
    part: Part,
    log: &mut S::Log,
) -> Result<bool, usize>
    ensures { Settles (λ full. settled_as (S.frame between.now) (sources (T.turn turn.now) kept) (S.picture between.now full) part) (S.known between.now) result }
{
    match part {
        Part::Same { left, right } => is_same_after(between, turn, kept, (left, right), log),
        Part::PointerNull { at } => is_null_after(between, turn, kept, at, log),
        Part::Beyond { at } => beyond_after(between, turn, kept, at, log),
        Part::Leads { at, to } => leads_after(between, turn, kept, at, to, log),
        Part::SameBeyond { left, right } => {
            same_beyond_after(between, turn, kept, (left, right), log)
        }
        Part::AtMost { left, right } => {
            let left = term_before(turn, kept, left);
            let right = term_before(turn, kept, right);
            between.says(Part::AtMost { left, right }, log)
        }
        _ => said_of_name(between, turn, kept, part, log),
    }
}
