// Chains of shared frozen nodes.
ghost use Rattle.std.specs.Prelude.{◌≡◌};
ghost use Rattle.plank_lawful.specs.Rules.{chain_goes_on, chain_grows, picks_are_right, picks_are_ordered, chain_rule_holds};
ghost use Rattle.plank_walk.specs.Settles.{Settles};

use crate::asking::{Asked, each_name};
use crate::families::ChainRule;
use crate::indexes::key_at;
use plank_pic::{KeyName, Part};
use plank_walk as rules;
use plank_walk::{Reader, chains_on, is_fast};

// A chain goes on from each name to which its first pointer leads.
fn chain_goes_on<S: Reader>(source: &S, from: u8, to: u8, log: &mut S::Log) -> Result<bool, usize>
    ensures { Settles (λ full. chain_goes_on (S.frame source.now) (S.picture source.now full) from to) (S.known source.now) result }
{
    if !chains_on(source, from, to, log)? {
        return Ok(true);
    }
    each_name(source, Asked::ChainGoesOn { from, to }, log)
}

// A chain grows by the pointer of its end where that is shared and frozen.
fn chain_grows<S: Reader>(source: &S, from: u8, to: u8, log: &mut S::Log) -> Result<bool, usize>
    ensures { Settles (λ full. chain_grows (S.frame source.now) (S.picture source.now full) from to) (S.known source.now) result }
{
    if !source.says(Part::Chain { from, to }, log)? || !is_fast(source, to, log)? {
        return Ok(true);
    }
    each_name(source, Asked::ChainGrows { from, to }, log)
}

// A chain that has a stop node leads outside to another name's node, and has one.
fn picks_are_right<S: Reader>(
    source: &S,
    key: KeyName,
    from: u8,
    to: u8,
    log: &mut S::Log,
) -> Result<bool, usize>
    ensures { Settles (λ full. picks_are_right (S.frame source.now) (S.picture source.now full) key from to) (S.known source.now) result }
{
    Ok(
        rules::pick_is_right(source, key, from, to, 0, log)?
            && rules::pick_is_right(source, key, from, to, 1, log)?
            && rules::picks_once(source, key, from, to, log)?,
    )
}

/// The key of its stop node lies between its ends.
pub(crate) fn picks_are_ordered<S: Reader>(
    source: &S,
    key: KeyName,
    from: u8,
    to: u8,
    log: &mut S::Log,
) -> Result<bool, usize>
    ensures { Settles (λ full. picks_are_ordered (S.frame source.now) (S.picture source.now full) key from to) (S.known source.now) result }
{
    Ok(
        rules::pick_is_ordered(source, key, from, to, 0, log)?
            && rules::pick_is_ordered(source, key, from, to, 1, log)?,
    )
}

/// Whether a rule of chains holds.
pub(crate) fn chain_rule<S: Reader>(
    source: &S,
    rule: ChainRule,
    first: u8,
    second: u8,
    third: u8,
    log: &mut S::Log,
) -> Result<bool, usize>
    ensures { Settles (λ full. chain_rule_holds (S.frame source.now) (S.picture source.now full) rule first second third) (S.known source.now) result }
{
    match rule {
        ChainRule::Itself => rules::chain_of_itself(source, first, second, log),
        ChainRule::Begins => rules::chain_begins(source, first, second, log),
        ChainRule::GoesOn => chain_goes_on(source, first, second, log),
        ChainRule::Grows => chain_grows(source, first, second, log),
        ChainRule::Picks => picks_are_right(source, key_at(first), second, third, log),
    }
}
