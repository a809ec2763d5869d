ghost use Rattle.std.specs.Prelude.{◌≡◌, ◌≤◌};
ghost use Rattle.plank_pic.specs.Steps.{end_value, go_alike, both_end, by_outcomes, set_after};
ghost use Rattle.plank_walk.specs.Settles.{Settles};
ghost use Rattle.plank_step.specs.Footprints.{SettlesBoth, SettlesFootprint, has_entered, moved_along, visit_along, visit_left, stop_along, stop_left};

use plank_pic::{KeyName, Moved, Outcome, Part};
use plank_walk::{Reader, Seen, Walk, is_fast, is_on, is_picked, value, walk_from};

/// The two walks of a key from a written node: before the write, and with the new fields of the
/// node under the names, chains and stop nodes of before.
#[derive(Debug, Drop)]
pub struct Footprint {
    pub before: Walk,
    pub after: Walk,
}

impl Footprint {
    /// Whether either walk enters a chain.
    pub fn has_entered(&self) -> bool
        ensures { result ≡ has_entered self.now }
    {
        self.before.entered || self.after.entered
    }
}

/// The two walks of a key from a written name. Of all that a write leaves of a key this is the dear
/// part, and it is asked once for each key.
pub fn footprint_of<S: Reader, T: Reader<Log = S::Log>>(
    before: &S,
    mixed: &T,
    key: KeyName,
    at: u8,
    log: &mut S::Log,
) -> Result<Footprint, usize>
    requires names { (S.frame before.now).names ≤ 16 }
    requires frames { T.frame mixed.now ≡ S.frame before.now }
    ensures { SettlesFootprint (S.frame before.now) (S.picture before.now) (T.picture mixed.now) (S.known before.now) (T.known mixed.now) key at result }
{
    let walk = walk_from(before, key, at, log)?;
    let after = walk_from(mixed, key, at, log)?;
    Ok(Footprint {
        before: walk,
        after,
    })
}

/// What `holds` answers where a walk ends or stops; none where it does neither.
pub fn end_value<S: Reader>(
    source: &S,
    key: KeyName,
    end: Outcome,
    log: &mut S::Log,
) -> Result<Option<bool>, usize>
    ensures { Settles (λ full. end_value (S.frame source.now).header (S.picture source.now full) key end) (S.known source.now) result }
{
    let seen = match end {
        Outcome::EndsAt(name) => Seen::Node { key, name },
        Outcome::StopsIn { slot, .. } => Seen::Stop {
            key,
            slot,
            on: key,
            visited: None,
        },
        Outcome::Leaves(_) | Outcome::Cycles => return Ok(None),
    };
    Ok(Some(value(source, seen, &source.header().holds, log)?))
}

/// Whether both walks leave to one outside node, or both turn in a circle.
pub fn go_alike<S: Reader>(
    source: &S,
    was: Outcome,
    now: Outcome,
    log: &mut S::Log,
) -> Result<bool, usize>
    ensures { Settles (λ full. go_alike (S.picture source.now full) was now) (S.known source.now) result }
{
    match (was, now) {
        (Outcome::Leaves(left), Outcome::Leaves(right)) => {
            source.says(Part::SameBeyond { left, right }, log)
        }
        (Outcome::Cycles, Outcome::Cycles) => Ok(true),
        _ => Ok(false),
    }
}

fn both_end(was: Option<bool>, now: Option<bool>) -> Moved
    ensures { result ≡ both_end was now }
{
    match (was, now) {
        (Some(was), Some(now)) => Moved::BothEnd { was, now },
        _ => Moved::Apart,
    }
}

// How a key moves, by where its two walks come to.
fn moved_by_ends<S: Reader, T: Reader<Log = S::Log>>(
    before: &S,
    mixed: &T,
    key: KeyName,
    was: Outcome,
    now: Outcome,
    log: &mut S::Log,
) -> Result<Moved, usize>
    requires { T.frame mixed.now ≡ S.frame before.now }
    ensures { SettlesBoth (λ full. by_outcomes (S.frame before.now).header (S.picture before.now full) (T.picture mixed.now full) key was now) (S.known before.now) (T.known mixed.now) result }
{
    if go_alike(before, was, now, log)? {
        return Ok(Moved::Same);
    }
    let was = end_value(before, key, was, log)?;
    let now = end_value(mixed, key, now, log)?;
    Ok(both_end(was, now))
}

/// How a key moves at a write, by its two walks.
pub fn moved_along<S: Reader, T: Reader<Log = S::Log>>(
    before: &S,
    mixed: &T,
    key: KeyName,
    at: u8,
    footprint: &Footprint,
    log: &mut S::Log,
) -> Result<Moved, usize>
    requires { T.frame mixed.now ≡ S.frame before.now }
    ensures { SettlesBoth (λ full. moved_along (S.frame before.now) (S.picture before.now full) (T.picture mixed.now full) key at footprint.now) (S.known before.now) (T.known mixed.now) result }
{
    if !before.says(Part::Visits { key, name: at }, log)? {
        return Ok(Moved::Untouched);
    }
    if footprint.has_entered() && is_fast(before, at, log)? {
        return Ok(Moved::Apart);
    }
    moved_by_ends(
        before,
        mixed,
        key,
        footprint.before.end,
        footprint.after.end,
        log,
    )
}

// The visit bit of a name where the key ends or leaves alike.
fn visit_along<S: Reader, T: Reader<Log = S::Log>>(
    before: &S,
    mixed: &T,
    key: KeyName,
    name: u8,
    footprint: &Footprint,
    log: &mut S::Log,
) -> Result<Option<bool>, usize>
    requires { T.frame mixed.now ≡ S.frame before.now }
    ensures { SettlesBoth (λ full. visit_along (S.frame before.now) (S.picture before.now full) (T.picture mixed.now full) key name footprint.now) (S.known before.now) (T.known mixed.now) result }
{
    if is_on(mixed, footprint.after.path.as_slice(), name, log)? {
        return Ok(Some(true));
    }
    if is_on(before, footprint.before.path.as_slice(), name, log)? {
        return Ok(None);
    }
    if footprint.has_entered() && is_fast(before, name, log)? {
        return Ok(None);
    }
    Ok(Some(before.says(Part::Visits { key, name }, log)?))
}

/// The visit bit of a name after a write by which its key moves so; none where it is free.
pub fn visit_left<S: Reader, T: Reader<Log = S::Log>>(
    before: &S,
    mixed: &T,
    key: KeyName,
    name: u8,
    along: (Moved, &Footprint),
    log: &mut S::Log,
) -> Result<Option<bool>, usize>
    requires { T.frame mixed.now ≡ S.frame before.now }
    ensures { SettlesBoth (λ full. visit_left (S.frame before.now) (S.picture before.now full) (T.picture mixed.now full) key name along.entry.0 along.entry.1.now) (S.known before.now) (T.known mixed.now) result }
{
    let (moved, footprint) = along;
    match moved {
        Moved::Untouched => Ok(Some(before.says(Part::Visits { key, name }, log)?)),
        Moved::Same | Moved::BothEnd { .. } => {
            visit_along(before, mixed, key, name, footprint, log)
        }
        Moved::Apart => Ok(None),
    }
}

// The visit bit of a stop node where the key ends or leaves alike.
fn stop_along<S: Reader>(
    before: &S,
    key: KeyName,
    at: u8,
    slot: u8,
    footprint: &Footprint,
    log: &mut S::Log,
) -> Result<Option<bool>, usize>
    ensures { Settles (λ full. stop_along (S.frame before.now) (S.picture before.now full) key at slot footprint.now) (S.known before.now) result }
{
    if footprint.has_entered() || !is_picked(before, key, slot, log)? || is_fast(before, at, log)? {
        return Ok(None);
    }
    Ok(Some(before.says(Part::StopVisited { key, slot }, log)?))
}

/// The visit bit of a stop node after a write of the name `at`; none where it is free.
pub fn stop_left<S: Reader>(
    before: &S,
    key: KeyName,
    at: u8,
    slot: u8,
    along: (Moved, &Footprint),
    log: &mut S::Log,
) -> Result<Option<bool>, usize>
    ensures { Settles (λ full. stop_left (S.frame before.now) (S.picture before.now full) key at slot along.entry.0 along.entry.1.now) (S.known before.now) result }
{
    let (moved, footprint) = along;
    match moved {
        Moved::Untouched => Ok(Some(before.says(Part::StopVisited { key, slot }, log)?)),
        Moved::Same | Moved::BothEnd { .. } => stop_along(before, key, at, slot, footprint, log),
        Moved::Apart => Ok(None),
    }
}

/// The set bit of a key after a write by which it moves so; none where it is free.
pub fn set_left<S: Reader>(
    before: &S,
    key: KeyName,
    moved: Moved,
    log: &mut S::Log,
) -> Result<Option<bool>, usize>
    ensures { Settles (λ full. set_after (S.picture before.now full) key moved) (S.known before.now) result }
{
    match moved {
        Moved::Untouched | Moved::Same => Ok(Some(before.says(Part::InSet { key }, log)?)),
        Moved::BothEnd { now, .. } => Ok(Some(now)),
        Moved::Apart => Ok(None),
    }
}
