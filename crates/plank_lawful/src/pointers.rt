// Where pointers lead.
ghost use Rattle.std.specs.Prelude.{◌≡◌};
ghost use Rattle.plank_lawful.specs.Rules.{leads_once, leads_to_one, beyond_both_ways, beyond_go_together, pointer_rule_holds};
ghost use Rattle.plank_walk.specs.Settles.{Settles};

use crate::asking::{Asked, each_name};
use crate::families::PointerRule;
use crate::indexes::place_at;
use plank_pic::{Part, Place};
use plank_walk as rules;
use plank_walk::Reader;

// A pointer that is null or leads outside does no other.
fn leads_once<S: Reader>(source: &S, at: Place, log: &mut S::Log) -> Result<bool, usize>
    ensures { Settles (λ full. leads_once (S.frame source.now) (S.picture source.now full) at) (S.known source.now) result }
{
    let null = source.says(Part::PointerNull { at }, log)?;
    let beyond = source.says(Part::Beyond { at }, log)?;
    if null && beyond {
        return Ok(false);
    }
    if !null && !beyond {
        return Ok(true);
    }
    each_name(source, Asked::LeadsNowhere { at }, log)
}

// The names to which a pointer leads are names of one node.
fn leads_to_one<S: Reader>(source: &S, at: Place, to: u8, log: &mut S::Log) -> Result<bool, usize>
    ensures { Settles (λ full. leads_to_one (S.frame source.now) (S.picture source.now full) at to) (S.known source.now) result }
{
    if !source.says(Part::Leads { at, to }, log)? {
        return Ok(true);
    }
    each_name(source, Asked::LeadsTo { at, to }, log)
}

// Whether two pointers lead to one outside node does not go by their order.
fn beyond_both_ways<S: Reader>(
    source: &S,
    left: Place,
    right: Place,
    log: &mut S::Log,
) -> Result<bool, usize>
    ensures { Settles (λ full. beyond_both_ways (S.picture source.now full) left right) (S.known source.now) result }
{
    Ok(
        rules::beyond_is_symmetric(source, left, right, log)?
            && rules::beyond_is_symmetric(source, right, left, log)?,
    )
}

// Two that do are the same for each third.
fn beyond_go_together<S: Reader>(
    source: &S,
    left: Place,
    right: Place,
    pointer: u8,
    log: &mut S::Log,
) -> Result<bool, usize>
    ensures { Settles (λ full. beyond_go_together (S.frame source.now) (S.picture source.now full) left right pointer) (S.known source.now) result }
{
    if !source.says(Part::SameBeyond { left, right }, log)? {
        return Ok(true);
    }
    each_name(
        source,
        Asked::BeyondAs {
            left,
            right,
            pointer,
        },
        log,
    )
}

/// Whether a rule of pointers holds.
pub(crate) fn pointer_rule<S: Reader>(
    source: &S,
    rule: PointerRule,
    first: u8,
    second: u8,
    third: u8,
    log: &mut S::Log,
) -> Result<bool, usize>
    ensures { Settles (λ full. pointer_rule_holds (S.frame source.now) (S.picture source.now full) rule first second third) (S.known source.now) result }
{
    let at = place_at(source, first);
    match rule {
        PointerRule::Somewhere => rules::leads_somewhere(source, at, log),
        PointerRule::Once => leads_once(source, at, log),
        PointerRule::OneTarget => leads_to_one(source, at, second, log),
        PointerRule::BeyondItself => rules::beyond_itself(source, at, log),
        PointerRule::BeyondBothWays => beyond_both_ways(source, at, place_at(source, second), log),
        PointerRule::BeyondTogether => {
            beyond_go_together(source, at, place_at(source, second), third, log)
        }
    }
}
