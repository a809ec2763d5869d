// What lawful pictures have besides what is possible.
ghost use Rattle.std.specs.Prelude.{◌≡◌};
ghost use Rattle.plank_lawful.specs.Rules.{node_keeps, stop_keeps, kept_rule_holds};
ghost use Rattle.plank_walk.specs.Settles.{Settles};

use crate::chains::picks_are_ordered;
use crate::families::KeptRule;
use crate::indexes::{key_at, place_at};
use plank_pic::{KeyName, Part};
use plank_walk as rules;
use plank_walk::{Reader, Seen};

// A shared node meets the keeps.
fn node_keeps<S: Reader>(
    source: &S,
    key: KeyName,
    name: u8,
    log: &mut S::Log,
) -> Result<bool, usize>
    ensures { Settles (λ full. node_keeps (S.frame source.now) (S.picture source.now full) key name) (S.known source.now) result }
{
    if !source.says(Part::Shared { name }, log)? {
        return Ok(true);
    }
    rules::keeps_hold(source, Seen::Node { key, name }, log)
}

// A stop node of some chain meets the keeps.
fn stop_keeps<S: Reader>(
    source: &S,
    key: KeyName,
    slot: u8,
    log: &mut S::Log,
) -> Result<bool, usize>
    ensures { Settles (λ full. stop_keeps (S.frame source.now) (S.picture source.now full) key slot) (S.known source.now) result }
{
    if !rules::is_picked(source, key, slot, log)? {
        return Ok(true);
    }
    let (on, visited) = (key, None);
    rules::keeps_hold(
        source,
        Seen::Stop {
            key,
            slot,
            on,
            visited,
        },
        log,
    )
}

/// Whether a rule that lawful pictures have besides holds.
pub(crate) fn kept_rule<S: Reader>(
    source: &S,
    rule: KeptRule,
    first: u8,
    second: u8,
    third: u8,
    log: &mut S::Log,
) -> Result<bool, usize>
    ensures { Settles (λ full. kept_rule_holds (S.frame source.now) (S.picture source.now full) rule first second third) (S.known source.now) result }
{
    match rule {
        KeptRule::Published => {
            rules::leads_to_shared(source, place_at(source, first), second, log)
        }
        KeptRule::Keeps => node_keeps(source, key_at(first), second, log),
        KeptRule::StopKeeps => stop_keeps(source, key_at(first), second, log),
        KeptRule::StopKeepsOn => {
            rules::stop_keeps_on(source, key_at(first), second, key_at(third), log)
        }
        KeptRule::Edges => rules::edge_is_ordered(source, place_at(source, first), second, log),
        KeptRule::Room => rules::beyond_has_room(source, place_at(source, first), log),
        KeptRule::Chains => rules::chain_is_ordered(source, first, second, log),
        KeptRule::Picks => picks_are_ordered(source, key_at(first), second, third, log),
    }
}
