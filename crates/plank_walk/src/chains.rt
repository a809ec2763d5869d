// Chains of shared frozen nodes, and the stop nodes in them.
ghost use Rattle.std.specs.Prelude.{◌≡◌, ◌&&◌};
ghost use Rattle.plank_pic.specs.declared.parts.Part.{Part};
ghost use Rattle.plank_pic.specs.Pictures.{place, is_fast};
ghost use Rattle.plank_pic.specs.Lawful.{stop_is_right, stop_keeps, stop_keeps_on, chain_of_itself, chain_begins, chain_is_ordered, chain_goes_on, chain_grows, pick_is_right, pick_is_ordered, picks_once};
ghost use Rattle.plank_walk.specs.Settles.{Settles};

use crate::conditions::value;
use crate::edges::{admits, chains_on, is_fast, is_frozen_seen, is_picked};
use crate::heaps::{keep_holds, keeps_hold, keys_ordered, order_of};
use crate::readers::Reader;
use crate::seen::Seen;
use plank_pic::{KeyName, Part, Place, Term};

/// A stop node of some chain is frozen, does not admit its key, and gives the set bit where it is visited.
pub fn stop_is_right<S: Reader>(
    source: &S,
    key: KeyName,
    slot: u8,
    log: &mut S::Log,
) -> Result<bool, usize>
    ensures { Settles (λ full. stop_is_right (S.frame source.now) (S.picture source.now full) key slot) (S.known source.now) result }
{
    if !is_picked(source, key, slot, log)? {
        return Ok(true);
    }
    let seen = Seen::Stop {
        key,
        slot,
        on: key,
        visited: None,
    };
    if !is_frozen_seen(source, seen, log)? || admits(source, seen, 0, log)? {
        return Ok(false);
    }
    if !source.says(Part::StopVisited { key, slot }, log)? {
        return Ok(true);
    }
    let holds = value(source, seen, &source.header().holds, log)?;
    Ok(source.says(Part::InSet { key }, log)? == holds)
}

/// It meets a keep for its own key.
pub fn stop_keeps<S: Reader>(
    source: &S,
    key: KeyName,
    slot: u8,
    keep: u32,
    log: &mut S::Log,
) -> Result<bool, usize>
    ensures { Settles (λ full. stop_keeps (S.frame source.now) (S.picture source.now full) key slot keep) (S.known source.now) result }
{
    if !is_picked(source, key, slot, log)? {
        return Ok(true);
    }
    keep_holds(
        source,
        Seen::Stop {
            key,
            slot,
            on: key,
            visited: None,
        },
        keep,
        log,
    )
}

/// It meets the keeps for each other key, visited or not.
pub fn stop_keeps_on<S: Reader>(
    source: &S,
    key: KeyName,
    slot: u8,
    on: KeyName,
    log: &mut S::Log,
) -> Result<bool, usize>
    ensures { Settles (λ full. stop_keeps_on (S.frame source.now) (S.picture source.now full) key slot on) (S.known source.now) result }
{
    if !is_picked(source, key, slot, log)? {
        return Ok(true);
    }
    Ok(
        keeps_hold(
            source,
            Seen::Stop {
                key,
                slot,
                on: on,
                visited: Some(true),
            },
            log,
        )? || keeps_hold(
            source,
            Seen::Stop {
                key,
                slot,
                on: on,
                visited: Some(false),
            },
            log,
        )?,
    )
}

/// Each node is a chain to itself.
pub fn chain_of_itself<S: Reader>(
    source: &S,
    from: u8,
    to: u8,
    log: &mut S::Log,
) -> Result<bool, usize>
    ensures { Settles (λ full. chain_of_itself (S.picture source.now full) from to) (S.known source.now) result }
{
    Ok(
        !source.says(
            Part::Same {
                left: from,
                right: to,
            },
            log,
        )? || source.says(Part::Chain { from, to }, log)?,
    )
}

/// A chain to another node begins at a shared frozen node, with a pointer that is not null.
pub fn chain_begins<S: Reader>(
    source: &S,
    from: u8,
    to: u8,
    log: &mut S::Log,
) -> Result<bool, usize>
    ensures { Settles (λ full. chain_begins (S.frame source.now) (S.picture source.now full) from to) (S.known source.now) result }
{
    if !chains_on(source, from, to, log)? {
        return Ok(true);
    }
    let at = Place {
        name: from,
        pointer: 0,
    };
    Ok(
        source.pointers() == 1
            && is_fast(source, from, log)?
            && !source.says(Part::PointerNull { at }, log)?,
    )
}

/// Its ends are as the order along the pointer says.
pub fn chain_is_ordered<S: Reader>(
    source: &S,
    from: u8,
    to: u8,
    log: &mut S::Log,
) -> Result<bool, usize>
    ensures { Settles (λ full. chain_is_ordered (S.frame source.now) (S.picture source.now full) from to) (S.known source.now) result }
{
    if !chains_on(source, from, to, log)? {
        return Ok(true);
    }
    keys_ordered(
        source,
        order_of(source, 0),
        Term::Node(from),
        Term::Node(to),
        log,
    )
}

/// Where its first pointer leads to a named node, it goes on from there.
pub fn chain_goes_on<S: Reader>(
    source: &S,
    from: u8,
    to: u8,
    next: u8,
    log: &mut S::Log,
) -> Result<bool, usize>
    ensures { Settles (λ full. chain_goes_on (S.picture source.now full) from to next) (S.known source.now) result }
{
    if !chains_on(source, from, to, log)? {
        return Ok(true);
    }
    let at = Place {
        name: from,
        pointer: 0,
    };
    Ok(
        !source.says(Part::Leads { at, to: next }, log)?
            || source.says(Part::Chain { from: next, to }, log)?,
    )
}

// Whether a chain to the one name is one to the next.
fn grows<S: Reader>(source: &S, to: u8, next: u8, log: &mut S::Log) -> Result<bool, usize>
    ensures { Settles (λ full. is_fast (S.frame source.now).header (S.picture source.now full) to && (S.picture source.now full) (Part.Leads (place to 0) next)) (S.known source.now) result }
{
    let at = Place {
        name: to,
        pointer: 0,
    };
    Ok(is_fast(source, to, log)? && source.says(Part::Leads { at, to: next }, log)?)
}

/// A chain grows by the pointer of its end where that is shared and frozen.
pub fn chain_grows<S: Reader>(
    source: &S,
    from: u8,
    to: u8,
    next: u8,
    log: &mut S::Log,
) -> Result<bool, usize>
    ensures { Settles (λ full. chain_grows (S.frame source.now) (S.picture source.now full) from to next) (S.known source.now) result }
{
    if source.pointers() != 1
        || !source.says(Part::Chain { from, to }, log)?
        || !grows(source, to, next, log)?
    {
        return Ok(true);
    }
    source.says(Part::Chain { from, to: next }, log)
}

/// A chain with a stop node is true, to another node, and its first pointer leads outside.
pub fn pick_is_right<S: Reader>(
    source: &S,
    key: KeyName,
    from: u8,
    to: u8,
    slot: u8,
    log: &mut S::Log,
) -> Result<bool, usize>
    ensures { Settles (λ full. pick_is_right (S.frame source.now) (S.picture source.now full) key from to slot) (S.known source.now) result }
{
    if !source.says(
        Part::Picks {
            key,
            from,
            to,
            slot,
        },
        log,
    )? {
        return Ok(true);
    }
    let at = Place {
        name: from,
        pointer: 0,
    };
    Ok(chains_on(source, from, to, log)? && source.says(Part::Beyond { at }, log)?)
}

/// The key of a stop node lies between the ends of each chain that has it.
pub fn pick_is_ordered<S: Reader>(
    source: &S,
    key: KeyName,
    from: u8,
    to: u8,
    slot: u8,
    log: &mut S::Log,
) -> Result<bool, usize>
    ensures { Settles (λ full. pick_is_ordered (S.frame source.now) (S.picture source.now full) key from to slot) (S.known source.now) result }
{
    if !source.says(
        Part::Picks {
            key,
            from,
            to,
            slot,
        },
        log,
    )? {
        return Ok(true);
    }
    let (order, stop) = (order_of(source, 0), Term::Stop { key, slot });
    Ok(
        keys_ordered(source, order, Term::Node(from), stop, log)?
            && keys_ordered(source, order, stop, Term::Node(to), log)?,
    )
}

/// A chain has at most one stop node for a key.
pub fn picks_once<S: Reader>(
    source: &S,
    key: KeyName,
    from: u8,
    to: u8,
    log: &mut S::Log,
) -> Result<bool, usize>
    ensures { Settles (λ full. picks_once (S.picture source.now full) key from to) (S.known source.now) result }
{
    Ok(
        !source.says(
            Part::Picks {
                key,
                from,
                to,
                slot: 0,
            },
            log,
        )? || !source.says(
            Part::Picks {
                key,
                from,
                to,
                slot: 1,
            },
            log,
        )?,
    )
}
