// Names of one node.
ghost use Rattle.std.specs.Prelude.{◌≡◌};
ghost use Rattle.plank_pic.specs.Pictures.{place};
ghost use Rattle.plank_lawful.specs.Rules.{owners_agree, locks_agree, nodes_agree, flags_agree, visits_agree, ends_agree, pointers_agree, chains_agree, picks_agree, node_rule_holds};
ghost use Rattle.plank_walk.specs.Settles.{Settles};

use crate::asking::{Asked, Pair, each_name};
use crate::families::NodeRule;
use crate::indexes::key_at;
use plank_pic::{KeyName, Part, Place, Term};
use plank_walk::{Reader, has_same_key};

// Whether two names have one owner.
fn owners_agree<S: Reader>(source: &S, left: u8, right: u8, log: &mut S::Log) -> Result<bool, usize>
    ensures { Settles (λ full. owners_agree (S.picture source.now full) left right) (S.known source.now) result }
{
    Ok(
        source.says(Part::Shared { name: left }, log)?
            == source.says(Part::Shared { name: right }, log)?
            && source.says(Part::Mine { name: left }, log)?
                == source.says(Part::Mine { name: right }, log)?,
    )
}

// Whether two names have one lock.
fn locks_agree<S: Reader>(source: &S, left: u8, right: u8, log: &mut S::Log) -> Result<bool, usize>
    ensures { Settles (λ full. locks_agree (S.picture source.now full) left right) (S.known source.now) result }
{
    Ok(
        source.says(Part::Locked { name: left }, log)?
            == source.says(Part::Locked { name: right }, log)?
            && source.says(Part::LockMine { name: left }, log)?
                == source.says(Part::LockMine { name: right }, log)?
            && source.says(Part::LockOthers { name: left }, log)?
                == source.says(Part::LockOthers { name: right }, log)?,
    )
}

// Two names of one node have its owner, its lock and its key.
fn nodes_agree<S: Reader>(source: &S, left: u8, right: u8, log: &mut S::Log) -> Result<bool, usize>
    ensures { Settles (λ full. nodes_agree (S.picture source.now full) left right) (S.known source.now) result }
{
    if !source.says(Part::Same { left, right }, log)? {
        return Ok(true);
    }
    Ok(
        owners_agree(source, left, right, log)?
            && locks_agree(source, left, right, log)?
            && has_same_key(source, Term::Node(left), Term::Node(right), log)?,
    )
}

// They have its flags.
fn flags_agree<S: Reader>(
    source: &S,
    left: u8,
    right: u8,
    flag: u8,
    log: &mut S::Log,
) -> Result<bool, usize>
    ensures { Settles (λ full. flags_agree (S.picture source.now full) left right flag) (S.known source.now) result }
{
    if !source.says(Part::Same { left, right }, log)? {
        return Ok(true);
    }
    Ok(
        source.says(Part::Flag { name: left, flag }, log)?
            == source.says(Part::Flag { name: right, flag }, log)?,
    )
}

// They are visited both or none.
fn visits_agree<S: Reader>(
    source: &S,
    left: u8,
    right: u8,
    key: KeyName,
    log: &mut S::Log,
) -> Result<bool, usize>
    ensures { Settles (λ full. visits_agree (S.picture source.now full) left right key) (S.known source.now) result }
{
    if !source.says(Part::Same { left, right }, log)? {
        return Ok(true);
    }
    Ok(
        source.says(Part::Visits { key, name: left }, log)?
            == source.says(Part::Visits { key, name: right }, log)?,
    )
}

// Pointers are null both or none, and lead outside to one node or not at all.
fn ends_agree<S: Reader>(
    source: &S,
    left: Place,
    right: Place,
    log: &mut S::Log,
) -> Result<bool, usize>
    ensures { Settles (λ full. ends_agree (S.picture source.now full) left right) (S.known source.now) result }
{
    if !(source.says(Part::PointerNull { at: left }, log)?
        == source.says(Part::PointerNull { at: right }, log)?
        && source.says(Part::Beyond { at: left }, log)?
            == source.says(Part::Beyond { at: right }, log)?)
    {
        return Ok(false);
    }
    Ok(
        !source.says(Part::Beyond { at: left }, log)?
            || source.says(Part::SameBeyond { left, right }, log)?,
    )
}

// They have its pointers, and are led to alike.
fn pointers_agree<S: Reader>(
    source: &S,
    left: u8,
    right: u8,
    pointer: u8,
    log: &mut S::Log,
) -> Result<bool, usize>
    ensures { Settles (λ full. pointers_agree (S.frame source.now) (S.picture source.now full) left right pointer) (S.known source.now) result }
{
    if !source.says(Part::Same { left, right }, log)? {
        return Ok(true);
    }
    let (one, other) = (
        Place {
            name: left,
            pointer,
        },
        Place {
            name: right,
            pointer,
        },
    );
    Ok(
        ends_agree(source, one, other, log)?
            && each_name(
                source,
                Asked::LeadsAlike {
                    left,
                    right,
                    pointer,
                },
                log,
            )?,
    )
}

// They have its chains.
fn chains_agree<S: Reader>(source: &S, left: u8, right: u8, log: &mut S::Log) -> Result<bool, usize>
    ensures { Settles (λ full. chains_agree (S.frame source.now) (S.picture source.now full) left right) (S.known source.now) result }
{
    if !source.says(Part::Same { left, right }, log)? {
        return Ok(true);
    }
    each_name(source, Asked::ChainsAlike { left, right }, log)
}

// Their chains have the same stop nodes.
fn picks_agree<S: Reader>(
    source: &S,
    left: u8,
    right: u8,
    key: KeyName,
    log: &mut S::Log,
) -> Result<bool, usize>
    ensures { Settles (λ full. picks_agree (S.frame source.now) (S.picture source.now full) left right key) (S.known source.now) result }
{
    if !source.says(Part::Same { left, right }, log)? {
        return Ok(true);
    }
    let pair = Pair { left, right };
    Ok(
        each_name(source, Asked::PicksAlike { key, pair, slot: 0 }, log)?
            && each_name(source, Asked::PicksAlike { key, pair, slot: 1 }, log)?,
    )
}

/// Whether a rule of names of one node holds.
pub(crate) fn node_rule<S: Reader>(
    source: &S,
    rule: NodeRule,
    first: u8,
    second: u8,
    third: u8,
    log: &mut S::Log,
) -> Result<bool, usize>
    ensures { Settles (λ full. node_rule_holds (S.frame source.now) (S.picture source.now full) rule first second third) (S.known source.now) result }
{
    match rule {
        NodeRule::Node => nodes_agree(source, first, second, log),
        NodeRule::Flags => flags_agree(source, first, second, third, log),
        NodeRule::Visits => visits_agree(source, first, second, key_at(third), log),
        NodeRule::Pointers => pointers_agree(source, first, second, third, log),
        NodeRule::Chains => chains_agree(source, first, second, log),
        NodeRule::Picks => picks_agree(source, first, second, key_at(third), log),
    }
}
