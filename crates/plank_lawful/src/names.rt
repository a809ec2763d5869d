// Names and nodes.
ghost use Rattle.std.specs.Prelude.{◌≡◌};
ghost use Rattle.plank_lawful.specs.Rules.{same_both_ways, same_go_together, null_has_no_node, null_has_no_pointer, name_rule_holds};
ghost use Rattle.plank_walk.specs.Settles.{Settles};

use crate::asking::{Asked, each_name};
use crate::families::NameRule;
use crate::indexes::place_at;
use plank_pic::{Part, Place};
use plank_walk as rules;
use plank_walk::Reader;

// Whether two names are one node does not go by their order.
fn same_both_ways<S: Reader>(
    source: &S,
    left: u8,
    right: u8,
    log: &mut S::Log,
) -> Result<bool, usize>
    ensures { Settles (λ full. same_both_ways (S.picture source.now full) left right) (S.known source.now) result }
{
    Ok(
        rules::same_is_symmetric(source, left, right, log)?
            && rules::same_is_symmetric(source, right, left, log)?,
    )
}

// Two names of one node are the same for each name.
fn same_go_together<S: Reader>(
    source: &S,
    left: u8,
    right: u8,
    log: &mut S::Log,
) -> Result<bool, usize>
    ensures { Settles (λ full. same_go_together (S.frame source.now) (S.picture source.now full) left right) (S.known source.now) result }
{
    if !source.says(Part::Same { left, right }, log)? {
        return Ok(true);
    }
    each_name(source, Asked::SameAs { left, right }, log)
}

// A name that is null has no owner and no lock, and no chain leads to it.
fn null_has_no_node<S: Reader>(source: &S, name: u8, log: &mut S::Log) -> Result<bool, usize>
    ensures { Settles (λ full. null_has_no_node (S.frame source.now) (S.picture source.now full) name) (S.known source.now) result }
{
    if !source.says(Part::Null { name }, log)? {
        return Ok(true);
    }
    if source.says(Part::Shared { name }, log)?
        || source.says(Part::Mine { name }, log)?
        || source.says(Part::Locked { name }, log)?
    {
        return Ok(false);
    }
    each_name(source, Asked::NoChainTo { to: name }, log)
}

// A name that is null has no pointer.
fn null_has_no_pointer<S: Reader>(source: &S, at: Place, log: &mut S::Log) -> Result<bool, usize>
    ensures { Settles (λ full. null_has_no_pointer (S.frame source.now) (S.picture source.now full) at) (S.known source.now) result }
{
    if !source.says(Part::Null { name: at.name }, log)? {
        return Ok(true);
    }
    if source.says(Part::PointerNull { at }, log)? || source.says(Part::Beyond { at }, log)? {
        return Ok(false);
    }
    each_name(source, Asked::LeadsNowhere { at }, log)
}

/// Whether a rule of names holds.
pub(crate) fn name_rule<S: Reader>(
    source: &S,
    rule: NameRule,
    first: u8,
    second: u8,
    log: &mut S::Log,
) -> Result<bool, usize>
    ensures { Settles (λ full. name_rule_holds (S.frame source.now) (S.picture source.now full) rule first second) (S.known source.now) result }
{
    match rule {
        NameRule::Itself => rules::names_itself(source, first, log),
        NameRule::BothWays => same_both_ways(source, first, second, log),
        NameRule::Together => same_go_together(source, first, second, log),
        NameRule::NullNode => null_has_no_node(source, first, log),
        NameRule::NullFlag => {
            rules::null_is_bare(
                source,
                first,
                Part::Flag {
                    name: first,
                    flag: second,
                },
                log,
            )
        }
        NameRule::NullPointer => null_has_no_pointer(source, place_at(source, first), log),
        NameRule::Owned => rules::owned_once(source, first, log),
        NameRule::Held => rules::held_once(source, first, log),
    }
}
