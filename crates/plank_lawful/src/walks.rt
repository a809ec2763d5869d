// The root, what is reached, and where walks go on.
ghost use Rattle.std.specs.Prelude.{◌≡◌};
ghost use Rattle.plank_lawful.specs.Rules.{sends_by, visit_sends_on, walk_rule_holds};
ghost use Rattle.plank_walk.specs.Settles.{Settles};

use crate::asking::{Asked, each_name};
use crate::families::WalkRule;
use crate::indexes::{key_at, place_at};
use plank_pic::{KeyName, Part, Place, Target};
use plank_walk as rules;
use plank_walk::{Reader, arrives, edge, target};

// A visited node sends a key on along its edge, or gives the set bit where it has none.
fn sends_by<S: Reader>(
    source: &S,
    key: KeyName,
    name: u8,
    pointer: Option<u8>,
    log: &mut S::Log,
) -> Result<bool, usize>
    ensures { Settles (λ full. sends_by (S.frame source.now) (S.picture source.now full) key name pointer) (S.known source.now) result }
{
    let Some(pointer) = pointer else {
        return arrives(source, key, name, Target::Ends, log);
    };
    let at = Place { name, pointer };
    if !each_name(source, Asked::VisitedFrom { key, at }, log)? {
        return Ok(false);
    }
    if !source.says(Part::Beyond { at }, log)? {
        return Ok(true);
    }
    let outside = target(source, key, name, log)?;
    arrives(source, key, name, outside, log)
}

// A visited node sends its key on.
fn visit_sends_on<S: Reader>(
    source: &S,
    key: KeyName,
    name: u8,
    log: &mut S::Log,
) -> Result<bool, usize>
    ensures { Settles (λ full. visit_sends_on (S.frame source.now) (S.picture source.now full) key name) (S.known source.now) result }
{
    if !source.says(Part::Visits { key, name }, log)? {
        return Ok(true);
    }
    let pointer = edge(source, key, name, log)?;
    sends_by(source, key, name, pointer, log)
}

/// Whether a rule of walks holds.
pub(crate) fn walk_rule<S: Reader>(
    source: &S,
    rule: WalkRule,
    first: u8,
    second: u8,
    log: &mut S::Log,
) -> Result<bool, usize>
    ensures { Settles (λ full. walk_rule_holds (S.frame source.now) (S.picture source.now full) rule first second) (S.known source.now) result }
{
    match rule {
        WalkRule::Root => rules::root_is_right(source, first, log),
        WalkRule::RootVisited => rules::root_is_visited(source, key_at(first), second, log),
        WalkRule::Unvisited => rules::own_is_unvisited(source, key_at(first), second, log),
        WalkRule::Unreached => {
            rules::own_is_unreached(source, place_at(source, first), second, log)
        }
        WalkRule::GoesOn => visit_sends_on(source, key_at(first), second, log),
        WalkRule::Stops => rules::stop_is_right(source, key_at(first), second, log),
    }
}
