// How keys lie. Of a name that is null nothing is true.
ghost use Rattle.std.specs.Prelude.{not, ◌&&◌};
ghost use Rattle.plank_pic.specs.declared.parts.Part.{Part};
ghost use Rattle.plank_pic.specs.declared.parts.Term.{Term};
ghost use Rattle.plank_pic.specs.Pictures.{is_below};
ghost use Rattle.plank_pic.specs.Truths.{key_below, key_at_most, key_above, key_at_least, key_is, of_nodes};
ghost use Rattle.plank_walk.specs.Settles.{Settles};

use plank_pic::{Part, Term};
use plank_walk::{Reader, has_same_key, is_below};

/// Whether a name is not null.
pub(crate) fn is_node<S: Reader>(source: &S, name: u8, log: &mut S::Log) -> Result<bool, usize>
    ensures { Settles (λ full. not (S.picture source.now full (Part.Null name))) (S.known source.now) result }
{
    Ok(!source.says(Part::Null { name }, log)?)
}

/// Whether the key of a node lies below a term.
pub(crate) fn key_below<S: Reader>(
    source: &S,
    name: u8,
    term: Term,
    log: &mut S::Log,
) -> Result<bool, usize>
    ensures { Settles (λ full. key_below (S.picture source.now full) name term) (S.known source.now) result }
{
    Ok(is_node(source, name, log)? && is_below(source, Term::Node(name), term, log)?)
}

/// Whether it lies at or below it.
pub(crate) fn key_at_most<S: Reader>(
    source: &S,
    name: u8,
    term: Term,
    log: &mut S::Log,
) -> Result<bool, usize>
    ensures { Settles (λ full. key_at_most (S.picture source.now full) name term) (S.known source.now) result }
{
    let (left, right) = (Term::Node(name), term);
    Ok(is_node(source, name, log)? && source.says(Part::AtMost { left, right }, log)?)
}

/// Whether it lies above it.
pub(crate) fn key_above<S: Reader>(
    source: &S,
    name: u8,
    term: Term,
    log: &mut S::Log,
) -> Result<bool, usize>
    ensures { Settles (λ full. key_above (S.picture source.now full) name term) (S.known source.now) result }
{
    Ok(is_node(source, name, log)? && is_below(source, term, Term::Node(name), log)?)
}

/// Whether it lies at or above it.
pub(crate) fn key_at_least<S: Reader>(
    source: &S,
    name: u8,
    term: Term,
    log: &mut S::Log,
) -> Result<bool, usize>
    ensures { Settles (λ full. key_at_least (S.picture source.now full) name term) (S.known source.now) result }
{
    let (left, right) = (term, Term::Node(name));
    Ok(is_node(source, name, log)? && source.says(Part::AtMost { left, right }, log)?)
}

/// Whether it is equal to it.
pub(crate) fn key_is<S: Reader>(
    source: &S,
    name: u8,
    term: Term,
    log: &mut S::Log,
) -> Result<bool, usize>
    ensures { Settles (λ full. key_is (S.picture source.now full) name term) (S.known source.now) result }
{
    Ok(is_node(source, name, log)? && has_same_key(source, Term::Node(name), term, log)?)
}

/// Whether the key of one node lies below that of another.
pub(crate) fn keys_rise<S: Reader>(
    source: &S,
    left: u8,
    right: u8,
    log: &mut S::Log,
) -> Result<bool, usize>
    ensures { Settles (λ full. of_nodes (S.picture source.now full) left right (is_below (S.picture source.now full) (Term.Node left) (Term.Node right))) (S.known source.now) result }
{
    Ok(
        is_node(source, left, log)?
            && is_node(source, right, log)?
            && is_below(source, Term::Node(left), Term::Node(right), log)?,
    )
}

/// Whether a part is so that speaks of two nodes.
pub(crate) fn are_so<S: Reader>(
    source: &S,
    left: u8,
    right: u8,
    part: Part,
    log: &mut S::Log,
) -> Result<bool, usize>
    ensures { Settles (λ full. of_nodes (S.picture source.now full) left right (S.picture source.now full part)) (S.known source.now) result }
{
    Ok(is_node(source, left, log)? && is_node(source, right, log)? && source.says(part, log)?)
}
