// What makes parts a picture: names, nodes, owners, pointers and keys fit together.
ghost use Rattle.std.specs.Prelude.{◌≡◌};
ghost use Rattle.plank_pic.specs.Below.{some_below};
ghost use Rattle.plank_pic.specs.Pictures.{leads_to};
ghost use Rattle.plank_pic.specs.Renaming.{rename_part, instead, rename, rename_term};
ghost use Rattle.plank_pic.specs.Lawful.{names_itself, same_is_symmetric, same_is_transitive, agrees, null_is_bare, owned_once, held_once, leads_somewhere, leads_once, leads_to_one, beyond_itself, beyond_is_symmetric, beyond_is_transitive, order_is_total, order_is_transitive};
ghost use Rattle.plank_walk.specs.Settles.{Settles};

use crate::readers::Reader;
use plank_pic::{Part, Place, Term};

/// A name that is not null names its own node, and a name that is null none.
pub fn names_itself<S: Reader>(source: &S, name: u8, log: &mut S::Log) -> Result<bool, usize>
    ensures { Settles (λ full. names_itself (S.picture source.now full) name) (S.known source.now) result }
{
    Ok(
        source.says(
            Part::Same {
                left: name,
                right: name,
            },
            log,
        )? != source.says(Part::Null { name }, log)?,
    )
}

/// Whether two names are one node does not go by their order.
pub fn same_is_symmetric<S: Reader>(
    source: &S,
    left: u8,
    right: u8,
    log: &mut S::Log,
) -> Result<bool, usize>
    ensures { Settles (λ full. same_is_symmetric (S.picture source.now full) left right) (S.known source.now) result }
{
    Ok(
        !source.says(Part::Same { left, right }, log)?
            || source.says(
                Part::Same {
                    left: right,
                    right: left,
                },
                log,
            )?,
    )
}

/// The names of one node are those of each of them.
pub fn same_is_transitive<S: Reader>(
    source: &S,
    left: u8,
    middle: u8,
    right: u8,
    log: &mut S::Log,
) -> Result<bool, usize>
    ensures { Settles (λ full. same_is_transitive (S.picture source.now full) left middle right) (S.known source.now) result }
{
    if !source.says(
        Part::Same {
            left,
            right: middle,
        },
        log,
    )? || !source.says(
        Part::Same {
            left: middle,
            right,
        },
        log,
    )? {
        return Ok(true);
    }
    source.says(Part::Same { left, right }, log)
}

/// A part says the same of each name of a node: of `left` in the place of `right`.
pub fn agrees<S: Reader>(
    source: &S,
    left: u8,
    right: u8,
    part: Part,
    log: &mut S::Log,
) -> Result<bool, usize>
    ensures { Settles (λ full. agrees (S.picture source.now full) left right part) (S.known source.now) result }
{
    if !source.says(Part::Same { left, right }, log)? {
        return Ok(true);
    }
    Ok(source.says(read_as(part, left, right), log)? == source.says(part, log)?)
}

/// Nothing is said of a name that is null; asked of the parts that speak of it.
pub fn null_is_bare<S: Reader>(
    source: &S,
    name: u8,
    part: Part,
    log: &mut S::Log,
) -> Result<bool, usize>
    ensures { Settles (λ full. null_is_bare (S.picture source.now full) name part) (S.known source.now) result }
{
    Ok(!source.says(Part::Null { name }, log)? || !source.says(part, log)?)
}

/// A node that is shared is nobody's own.
pub fn owned_once<S: Reader>(source: &S, name: u8, log: &mut S::Log) -> Result<bool, usize>
    ensures { Settles (λ full. owned_once (S.picture source.now full) name) (S.known source.now) result }
{
    Ok(!source.says(Part::Shared { name }, log)? || !source.says(Part::Mine { name }, log)?)
}

/// A lock that is free is nobody's, and the own thread's is not the other's.
pub fn held_once<S: Reader>(source: &S, name: u8, log: &mut S::Log) -> Result<bool, usize>
    ensures { Settles (λ full. held_once (S.picture source.now full) name) (S.known source.now) result }
{
    if source.says(Part::LockMine { name }, log)? && !source.says(Part::Locked { name }, log)? {
        return Ok(false);
    }
    if !source.says(Part::LockOthers { name }, log)? {
        return Ok(true);
    }
    Ok(source.says(Part::Locked { name }, log)? && !source.says(Part::LockMine { name }, log)?)
}

/// Whether a pointer leads to a named node.
#[tactic(auto, using(plank_pic::proofs::Below::none_below, plank_pic::proofs::Below::some_more))]
pub fn leads_to_some<S: Reader>(source: &S, at: Place, log: &mut S::Log) -> Result<bool, usize>
    ensures { Settles (λ full. some_below (leads_to (S.picture source.now full) at) (S.frame source.now).names) (S.known source.now) result }
{
    for to in 0..source.names() {
        if source.says(Part::Leads { at, to }, log)? {
            return Ok(true);
        }
    }
    Ok(false)
}

/// A pointer is null, leads outside or leads to a named node.
pub fn leads_somewhere<S: Reader>(source: &S, at: Place, log: &mut S::Log) -> Result<bool, usize>
    ensures { Settles (λ full. leads_somewhere (S.frame source.now) (S.picture source.now full) at) (S.known source.now) result }
{
    Ok(
        source.says(Part::Null { name: at.name }, log)?
            || source.says(Part::PointerNull { at }, log)?
            || source.says(Part::Beyond { at }, log)?
            || leads_to_some(source, at, log)?,
    )
}

/// And no two of these.
pub fn leads_once<S: Reader>(source: &S, at: Place, to: u8, log: &mut S::Log) -> Result<bool, usize>
    ensures { Settles (λ full. leads_once (S.picture source.now full) at to) (S.known source.now) result }
{
    if source.says(Part::PointerNull { at }, log)? && source.says(Part::Beyond { at }, log)? {
        return Ok(false);
    }
    if !source.says(Part::Leads { at, to }, log)? {
        return Ok(true);
    }
    Ok(!(source.says(Part::PointerNull { at }, log)? || source.says(Part::Beyond { at }, log)?))
}

/// A pointer leads to one node.
pub fn leads_to_one<S: Reader>(
    source: &S,
    at: Place,
    left: u8,
    right: u8,
    log: &mut S::Log,
) -> Result<bool, usize>
    ensures { Settles (λ full. leads_to_one (S.picture source.now full) at left right) (S.known source.now) result }
{
    if !source.says(Part::Leads { at, to: left }, log)?
        || !source.says(Part::Leads { at, to: right }, log)?
    {
        return Ok(true);
    }
    source.says(Part::Same { left, right }, log)
}

/// A pointer that leads outside leads where itself does.
pub fn beyond_itself<S: Reader>(source: &S, at: Place, log: &mut S::Log) -> Result<bool, usize>
    ensures { Settles (λ full. beyond_itself (S.picture source.now full) at) (S.known source.now) result }
{
    Ok(
        source.says(
            Part::SameBeyond {
                left: at,
                right: at,
            },
            log,
        )? == source.says(Part::Beyond { at }, log)?,
    )
}

/// Whether two pointers lead to one outside node does not go by their order.
pub fn beyond_is_symmetric<S: Reader>(
    source: &S,
    left: Place,
    right: Place,
    log: &mut S::Log,
) -> Result<bool, usize>
    ensures { Settles (λ full. beyond_is_symmetric (S.picture source.now full) left right) (S.known source.now) result }
{
    Ok(
        !source.says(Part::SameBeyond { left, right }, log)?
            || source.says(
                Part::SameBeyond {
                    left: right,
                    right: left,
                },
                log,
            )?,
    )
}

/// The pointers to one outside node are those of each of them.
pub fn beyond_is_transitive<S: Reader>(
    source: &S,
    left: Place,
    middle: Place,
    right: Place,
    log: &mut S::Log,
) -> Result<bool, usize>
    ensures { Settles (λ full. beyond_is_transitive (S.picture source.now full) left middle right) (S.known source.now) result }
{
    if !source.says(
        Part::SameBeyond {
            left,
            right: middle,
        },
        log,
    )? || !source.says(
        Part::SameBeyond {
            left: middle,
            right,
        },
        log,
    )? {
        return Ok(true);
    }
    source.says(Part::SameBeyond { left, right }, log)
}

/// Any two keys compare.
pub fn order_is_total<S: Reader>(
    source: &S,
    left: Term,
    right: Term,
    log: &mut S::Log,
) -> Result<bool, usize>
    ensures { Settles (λ full. order_is_total (S.picture source.now full) left right) (S.known source.now) result }
{
    Ok(
        source.says(Part::AtMost { left, right }, log)?
            || source.says(
                Part::AtMost {
                    left: right,
                    right: left,
                },
                log,
            )?,
    )
}

/// Keys are in an order.
pub fn order_is_transitive<S: Reader>(
    source: &S,
    left: Term,
    middle: Term,
    right: Term,
    log: &mut S::Log,
) -> Result<bool, usize>
    ensures { Settles (λ full. order_is_transitive (S.picture source.now full) left middle right) (S.known source.now) result }
{
    if !source.says(
        Part::AtMost {
            left,
            right: middle,
        },
        log,
    )? || !source.says(
        Part::AtMost {
            left: middle,
            right,
        },
        log,
    )? {
        return Ok(true);
    }
    source.says(Part::AtMost { left, right }, log)
}

// The name, or `left` in the place of `right`.
fn name_as(name: u8, left: u8, right: u8) -> u8
    ensures { result ≡ instead left right name }
{
    if name == right { left } else { name }
}

fn place_as(at: Place, left: u8, right: u8) -> Place
    ensures { result ≡ rename (instead left right) at }
{
    Place {
        name: name_as(at.name, left, right),
        pointer: at.pointer,
    }
}

fn term_as(term: Term, left: u8, right: u8) -> Term
    ensures { result ≡ rename_term (instead left right) term }
{
    match term {
        Term::Node(name) => Term::Node(name_as(name, left, right)),
        Term::Min | Term::Max | Term::Walked(_) | Term::Stop { .. } => term,
    }
}

/// The part with the name `left` in the place of `right`.
pub fn read_as(part: Part, left: u8, right: u8) -> Part
    ensures { result ≡ rename_part (instead left right) part }
{
    match part {
        Part::Null { name } => Part::Null {
            name: name_as(name, left, right),
        },
        Part::Same {
            left: one,
            right: other,
        } => Part::Same {
            left: name_as(one, left, right),
            right: name_as(other, left, right),
        },
        Part::Flag { name, flag } => Part::Flag {
            name: name_as(name, left, right),
            flag,
        },
        Part::Shared { name } => Part::Shared {
            name: name_as(name, left, right),
        },
        Part::Mine { name } => Part::Mine {
            name: name_as(name, left, right),
        },
        Part::Locked { name } => Part::Locked {
            name: name_as(name, left, right),
        },
        Part::LockMine { name } => Part::LockMine {
            name: name_as(name, left, right),
        },
        Part::LockOthers { name } => Part::LockOthers {
            name: name_as(name, left, right),
        },
        Part::PointerNull { at } => Part::PointerNull {
            at: place_as(at, left, right),
        },
        Part::Beyond { at } => Part::Beyond {
            at: place_as(at, left, right),
        },
        Part::Leads { at, to } => Part::Leads {
            at: place_as(at, left, right),
            to: name_as(to, left, right),
        },
        Part::SameBeyond {
            left: one,
            right: other,
        } => Part::SameBeyond {
            left: place_as(one, left, right),
            right: place_as(other, left, right),
        },
        Part::AtMost {
            left: one,
            right: other,
        } => Part::AtMost {
            left: term_as(one, left, right),
            right: term_as(other, left, right),
        },
        Part::Visits { key, name } => Part::Visits {
            key,
            name: name_as(name, left, right),
        },
        Part::Chain { from, to } => Part::Chain {
            from: name_as(from, left, right),
            to: name_as(to, left, right),
        },
        Part::Picks {
            key,
            from,
            to,
            slot,
        } => Part::Picks {
            key,
            from: name_as(from, left, right),
            to: name_as(to, left, right),
            slot,
        },
        Part::InSet { .. } | Part::Spent | Part::StopFlag { .. } | Part::StopVisited { .. } => part,
    }
}
