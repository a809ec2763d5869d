ghost use Rattle.std.specs.Prelude.{◌≡◌, length};
ghost use Rattle.plank_pic.specs.Below.{some_below, least_below};
ghost use Rattle.plank_pic.specs.Pictures.{view_admits, goes, edge, is_frozen_view, is_frozen, is_fast, chains_on, leads_to, picks_from, is_picked_from, is_picked, chain_target, outer_target, pointer_target, target};
ghost use Rattle.plank_walk.specs.Settles.{Settles};
ghost use Rattle.plank_walk.specs.Seen.{seen_view};

use crate::conditions::value;
use crate::readers::Reader;
use crate::seen::Seen;
use plank_pic::{KeyName, Part, Place, Target};

/// Whether a pointer field admits the walked key.
pub fn admits<S: Reader>(
    source: &S,
    seen: Seen,
    pointer: u8,
    log: &mut S::Log,
) -> Result<bool, usize>
    ensures { Settles (λ full. view_admits (S.frame source.now).header (seen_view (S.picture source.now full) seen) pointer) (S.known source.now) result }
{
    let Some(field) = source.header().pointers.as_slice().get(pointer as usize) else {
        return Ok(false);
    };
    match &field.edge {
        None => Ok(false),
        Some(condition) => value(source, seen, condition, log),
    }
}

/// Whether a pointer of a named node is not null and admits the key.
pub fn goes<S: Reader>(
    source: &S,
    key: KeyName,
    name: u8,
    pointer: u8,
    log: &mut S::Log,
) -> Result<bool, usize>
    ensures { Settles (λ full. goes (S.frame source.now).header (S.picture source.now full) key name pointer) (S.known source.now) result }
{
    let at = Place { name, pointer };
    Ok(
        !source.says(Part::PointerNull { at }, log)?
            && admits(source, Seen::Node { key, name }, pointer, log)?,
    )
}

/// The edge of a key at a named node: the first declared pointer that is not null and admits it.
#[tactic(auto, using(plank_pic::proofs::Below::no_least, plank_pic::proofs::Below::least_more, plank_pic::proofs::Below::least_step))]
pub fn edge<S: Reader>(
    source: &S,
    key: KeyName,
    name: u8,
    log: &mut S::Log,
) -> Result<Option<u8>, usize>
    ensures { Settles (λ full. edge (S.frame source.now).header (S.picture source.now full) key name) (S.known source.now) result }
{
    for pointer in 0..source.pointers() {
        if goes(source, key, name, pointer, log)? {
            return Ok(Some(pointer));
        }
    }
    Ok(None)
}

/// Whether what is seen is frozen.
pub fn is_frozen_seen<S: Reader>(source: &S, seen: Seen, log: &mut S::Log) -> Result<bool, usize>
    ensures { Settles (λ full. is_frozen_view (S.frame source.now).header (seen_view (S.picture source.now full) seen)) (S.known source.now) result }
{
    match &source.header().freeze {
        None => Ok(false),
        Some(condition) => value(source, seen, condition, log),
    }
}

/// Whether a named node is shared and frozen, so that nothing in it changes any more as far as
/// chains know.
pub fn is_fast<S: Reader>(source: &S, name: u8, log: &mut S::Log) -> Result<bool, usize>
    ensures { Settles (λ full. is_fast (S.frame source.now).header (S.picture source.now full) name) (S.known source.now) result }
{
    Ok(
        source.says(Part::Shared { name }, log)?
            && is_frozen_seen(
                source,
                Seen::Node {
                    key: KeyName::Own,
                    name,
                },
                log,
            )?,
    )
}

/// Whether a chain leads from the one name to another node, the other name's.
pub fn chains_on<S: Reader>(source: &S, from: u8, to: u8, log: &mut S::Log) -> Result<bool, usize>
    ensures { Settles (λ full. chains_on (S.picture source.now full) from to) (S.known source.now) result }
{
    Ok(
        source.says(Part::Chain { from, to }, log)?
            && !source.says(
                Part::Same {
                    left: from,
                    right: to,
                },
                log,
            )?,
    )
}

// The least name to which a pointer leads.
#[tactic(auto, using(plank_pic::proofs::Below::no_least, plank_pic::proofs::Below::least_more, plank_pic::proofs::Below::least_step))]
fn first_led<S: Reader>(source: &S, at: Place, log: &mut S::Log) -> Result<Option<u8>, usize>
    ensures { Settles (λ full. least_below (leads_to (S.picture source.now full) at) (S.frame source.now).names) (S.known source.now) result }
{
    for to in 0..source.names() {
        if source.says(Part::Leads { at, to }, log)? {
            return Ok(Some(to));
        }
    }
    Ok(None)
}

// The least name to whose node, another one, a chain leads.
#[tactic(auto, using(plank_pic::proofs::Below::no_least, plank_pic::proofs::Below::least_more, plank_pic::proofs::Below::least_step))]
fn first_chain<S: Reader>(source: &S, from: u8, log: &mut S::Log) -> Result<Option<u8>, usize>
    ensures { Settles (λ full. least_below (chains_on (S.picture source.now full) from) (S.frame source.now).names) (S.known source.now) result }
{
    for to in 0..source.names() {
        if chains_on(source, from, to, log)? {
            return Ok(Some(to));
        }
    }
    Ok(None)
}

// Where a chain takes the walk: to its stop node for the key, or to its end where it has none.
fn chain_target<S: Reader>(
    source: &S,
    key: KeyName,
    from: u8,
    to: u8,
    log: &mut S::Log,
) -> Result<Target, usize>
    ensures { Settles (λ full. chain_target (S.picture source.now full) key from to) (S.known source.now) result }
{
    let slot = 0;
    if source.says(
        Part::Picks {
            key,
            from,
            to,
            slot,
        },
        log,
    )? {
        return Ok(Target::Stops { from, to, slot });
    }
    let slot = 1;
    if source.says(
        Part::Picks {
            key,
            from,
            to,
            slot,
        },
        log,
    )? {
        return Ok(Target::Stops { from, to, slot });
    }
    Ok(Target::Jumps(to))
}

// Where a pointer takes the walk that leads to no named node: into the first chain to another node,
// or out.
fn outer_target<S: Reader>(
    source: &S,
    key: KeyName,
    at: Place,
    log: &mut S::Log,
) -> Result<Target, usize>
    ensures { Settles (λ full. outer_target (S.frame source.now) (S.picture source.now full) key at.name at.pointer) (S.known source.now) result }
{
    match first_chain(source, at.name, log)? {
        Some(to) => chain_target(source, key, at.name, to, log),
        None => Ok(Target::Out(at)),
    }
}

// Where a pointer takes the walk that is not null.
fn pointer_target<S: Reader>(
    source: &S,
    key: KeyName,
    at: Place,
    log: &mut S::Log,
) -> Result<Target, usize>
    ensures { Settles (λ full. pointer_target (S.frame source.now) (S.picture source.now full) key at.name at.pointer) (S.known source.now) result }
{
    match first_led(source, at, log)? {
        Some(to) => Ok(Target::To(to)),
        None => outer_target(source, key, at, log),
    }
}

/// Where the walk of a key goes on from a named node.
pub fn target<S: Reader>(
    source: &S,
    key: KeyName,
    name: u8,
    log: &mut S::Log,
) -> Result<Target, usize>
    ensures { Settles (λ full. target (S.frame source.now) (S.picture source.now full) key name) (S.known source.now) result }
{
    match edge(source, key, name, log)? {
        Some(pointer) => pointer_target(source, key, Place { name, pointer }, log),
        None => Ok(Target::Ends),
    }
}

// Whether some chain from this name has the stop node.
#[tactic(auto, using(plank_pic::proofs::Below::none_below, plank_pic::proofs::Below::some_more))]
fn is_picked_from<S: Reader>(
    source: &S,
    key: KeyName,
    slot: u8,
    from: u8,
    log: &mut S::Log,
) -> Result<bool, usize>
    ensures { Settles (λ full. is_picked_from (S.frame source.now) (S.picture source.now full) key slot from) (S.known source.now) result }
{
    for to in 0..source.names() {
        if source.says(
            Part::Picks {
                key,
                from,
                to,
                slot,
            },
            log,
        )? {
            return Ok(true);
        }
    }
    Ok(false)
}

/// Whether some chain has the stop node of a slot.
#[tactic(auto, using(plank_pic::proofs::Below::none_below, plank_pic::proofs::Below::some_more))]
pub fn is_picked<S: Reader>(
    source: &S,
    key: KeyName,
    slot: u8,
    log: &mut S::Log,
) -> Result<bool, usize>
    ensures { Settles (λ full. is_picked (S.frame source.now) (S.picture source.now full) key slot) (S.known source.now) result }
{
    for from in 0..source.names() {
        if is_picked_from(source, key, slot, from, log)? {
            return Ok(true);
        }
    }
    Ok(false)
}
