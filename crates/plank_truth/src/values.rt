// Values of names and of pointers, and whose nodes are.
ghost use Rattle.plank_pic.specs.Truths.{same_value, has_value, is_owned, of_node, of_nodes};
ghost use Rattle.plank_pic.specs.Calls.{is_usable, is_others};
ghost use Rattle.plank_walk.specs.Settles.{Settles};

use plank_pic::{Part, Place};
use plank_walk::Reader;

/// Whether two names have one value: one node, or null.
pub fn same_value<S: Reader>(
    source: &S,
    left: u8,
    right: u8,
    log: &mut S::Log,
) -> Result<bool, usize>
    ensures { Settles (λ full. same_value (S.picture source.now full) left right) (S.known source.now) result }
{
    if source.says(Part::Null { name: left }, log)?
        && source.says(Part::Null { name: right }, log)?
    {
        return Ok(true);
    }
    source.says(Part::Same { left, right }, log)
}

/// Whether a pointer has the value of a name.
pub(crate) fn has_value<S: Reader>(
    source: &S,
    at: Place,
    name: u8,
    log: &mut S::Log,
) -> Result<bool, usize>
    ensures { Settles (λ full. has_value (S.picture source.now full) at name) (S.known source.now) result }
{
    if source.says(Part::PointerNull { at }, log)? && source.says(Part::Null { name }, log)? {
        return Ok(true);
    }
    source.says(Part::Leads { at, to: name }, log)
}

/// Whether a node is not shared, and is the own thread's, or else not.
pub fn is_owned<S: Reader>(source: &S, own: bool, name: u8, log: &mut S::Log) -> Result<bool, usize>
    ensures { Settles (λ full. is_owned (S.picture source.now full) own name) (S.known source.now) result }
{
    Ok(!source.says(Part::Shared { name }, log)? && source.says(Part::Mine { name }, log)? == own)
}

/// Whether a name is null, or its node shared or the own thread's.
pub fn is_usable<S: Reader>(source: &S, name: u8, log: &mut S::Log) -> Result<bool, usize>
    ensures { Settles (λ full. is_usable (S.picture source.now full) name) (S.known source.now) result }
{
    Ok(
        source.says(Part::Null { name }, log)?
            || source.says(Part::Shared { name }, log)?
            || source.says(Part::Mine { name }, log)?,
    )
}

/// Whether a name is null, or its node shared or not the own thread's.
pub fn is_others<S: Reader>(source: &S, name: u8, log: &mut S::Log) -> Result<bool, usize>
    ensures { Settles (λ full. is_others (S.picture source.now full) name) (S.known source.now) result }
{
    Ok(
        source.says(Part::Null { name }, log)?
            || source.says(Part::Shared { name }, log)?
            || !source.says(Part::Mine { name }, log)?,
    )
}
