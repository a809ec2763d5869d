// What is true of the picture of any heap, and what keeps and orders ask besides.
ghost use Rattle.std.specs.Prelude.{◌≡◌};
ghost use Rattle.plank_pic.specs.Pictures.{is_below};
ghost use Rattle.plank_pic.specs.Lawful.{lies_between_ends, is_ordinary_key, is_root, root_term, root_is_right, root_is_visited, leads_to_shared, own_is_unvisited, own_is_unreached, keep_holds, keeps_hold, node_keeps, keys_ordered, key_leaves_room, order_of, edge_is_ordered, beyond_has_room, arrives, visit_goes_on};
ghost use Rattle.plank_walk.specs.Settles.{Settles};
ghost use Rattle.plank_walk.specs.Seen.{seen_view};

use crate::conditions::{has_same_key, value};
use crate::edges::target;
use crate::readers::Reader;
use crate::seen::Seen;
use plank_base::Key;
use plank_pic::{KeyName, Part, Place, Target, Term};
use plank_prog::KeyOrder;

/// Whether a name is the root's.
pub fn is_root<S: Reader>(source: &S, name: u8) -> bool
    ensures { result ≡ is_root (S.frame source.now) name }
{
    match source.root() {
        Some(root) => root == name,
        None => false,
    }
}

/// The term of the root's start key.
pub fn root_term<S: Reader>(source: &S) -> Term
    ensures { result ≡ root_term (S.frame source.now) }
{
    let header = source.header();
    match header.nodes.as_slice().get(header.root as usize) {
        Some(node) => match node.key {
            Key::Min => Term::Min,
            Key::Num(_) | Key::Max => Term::Max,
        },
        None => Term::Max,
    }
}

/// The order along a pointer field.
pub fn order_of<S: Reader>(source: &S, pointer: u8) -> KeyOrder
    ensures { result ≡ order_of (S.frame source.now) pointer }
{
    match source.header().pointers.as_slice().get(pointer as usize) {
        Some(field) => field.order,
        None => KeyOrder::Free,
    }
}

/// Whether one key lies below another.
pub fn is_below<S: Reader>(
    source: &S,
    left: Term,
    right: Term,
    log: &mut S::Log,
) -> Result<bool, usize>
    ensures { Settles (λ full. is_below (S.picture source.now full) left right) (S.known source.now) result }
{
    Ok(
        source.says(Part::AtMost { left, right }, log)?
            && !source.says(
                Part::AtMost {
                    left: right,
                    right: left,
                },
                log,
            )?,
    )
}

/// The least key lies at or below each, and the greatest at or above.
pub fn lies_between_ends<S: Reader>(source: &S, term: Term, log: &mut S::Log) -> Result<bool, usize>
    ensures { Settles (λ full. lies_between_ends (S.picture source.now full) term) (S.known source.now) result }
{
    let (least, greatest) = (Term::Min, Term::Max);
    Ok(
        source.says(
            Part::AtMost {
                left: least,
                right: term,
            },
            log,
        )? && source.says(
            Part::AtMost {
                left: term,
                right: greatest,
            },
            log,
        )?,
    )
}

/// A walked key lies strictly between the ends.
pub fn is_ordinary_key<S: Reader>(source: &S, key: KeyName, log: &mut S::Log) -> Result<bool, usize>
    ensures { Settles (λ full. is_ordinary_key (S.picture source.now full) key) (S.known source.now) result }
{
    Ok(
        is_below(source, Term::Min, Term::Walked(key), log)?
            && is_below(source, Term::Walked(key), Term::Max, log)?,
    )
}

/// The root is a shared node with its start key.
pub fn root_is_right<S: Reader>(source: &S, name: u8, log: &mut S::Log) -> Result<bool, usize>
    ensures { Settles (λ full. root_is_right (S.frame source.now) (S.picture source.now full) name) (S.known source.now) result }
{
    if !is_root(source, name) {
        return Ok(true);
    }
    Ok(
        !source.says(Part::Null { name }, log)?
            && source.says(Part::Shared { name }, log)?
            && has_same_key(source, Term::Node(name), root_term(source), log)?,
    )
}

/// Each walk visits the root.
pub fn root_is_visited<S: Reader>(
    source: &S,
    key: KeyName,
    name: u8,
    log: &mut S::Log,
) -> Result<bool, usize>
    ensures { Settles (λ full. root_is_visited (S.frame source.now) (S.picture source.now full) key name) (S.known source.now) result }
{
    Ok(!is_root(source, name) || source.says(Part::Visits { key, name }, log)?)
}

/// Pointers of shared nodes lead to shared nodes.
pub fn leads_to_shared<S: Reader>(
    source: &S,
    at: Place,
    to: u8,
    log: &mut S::Log,
) -> Result<bool, usize>
    ensures { Settles (λ full. leads_to_shared (S.picture source.now full) at to) (S.known source.now) result }
{
    if !source.says(Part::Shared { name: at.name }, log)?
        || !source.says(Part::Leads { at, to }, log)?
    {
        return Ok(true);
    }
    source.says(Part::Shared { name: to }, log)
}

/// No walk visits a node that is not shared.
pub fn own_is_unvisited<S: Reader>(
    source: &S,
    key: KeyName,
    name: u8,
    log: &mut S::Log,
) -> Result<bool, usize>
    ensures { Settles (λ full. own_is_unvisited (S.picture source.now full) key name) (S.known source.now) result }
{
    Ok(!source.says(Part::Visits { key, name }, log)? || source.says(Part::Shared { name }, log)?)
}

/// No other node leads to a node that is not shared.
pub fn own_is_unreached<S: Reader>(
    source: &S,
    at: Place,
    to: u8,
    log: &mut S::Log,
) -> Result<bool, usize>
    ensures { Settles (λ full. own_is_unreached (S.picture source.now full) at to) (S.known source.now) result }
{
    Ok(
        !source.says(Part::Leads { at, to }, log)?
            || source.says(Part::Shared { name: to }, log)?
            || source.says(
                Part::Same {
                    left: at.name,
                    right: to,
                },
                log,
            )?,
    )
}

/// Whether a keep holds, by its number.
pub fn keep_holds<S: Reader>(
    source: &S,
    seen: Seen,
    keep: u32,
    log: &mut S::Log,
) -> Result<bool, usize>
    ensures { Settles (λ full. keep_holds (S.frame source.now).header (seen_view (S.picture source.now full) seen) keep) (S.known source.now) result }
{
    match source.header().keeps.as_slice().get(keep as usize) {
        None => Ok(true),
        Some(keep) => value(source, seen, &keep.condition, log),
    }
}

/// Whether each keep holds.
pub fn keeps_hold<S: Reader>(source: &S, seen: Seen, log: &mut S::Log) -> Result<bool, usize>
    ensures { Settles (λ full. keeps_hold (S.frame source.now).header (seen_view (S.picture source.now full) seen)) (S.known source.now) result }
{
    for keep in source.header().keeps.as_slice() {
        if !value(source, seen, &keep.condition, log)? {
            return Ok(false);
        }
    }
    Ok(true)
}

/// A shared node meets a keep.
pub fn node_keeps<S: Reader>(
    source: &S,
    key: KeyName,
    name: u8,
    keep: u32,
    log: &mut S::Log,
) -> Result<bool, usize>
    ensures { Settles (λ full. node_keeps (S.frame source.now) (S.picture source.now full) key name keep) (S.known source.now) result }
{
    Ok(
        !source.says(Part::Shared { name }, log)?
            || keep_holds(source, Seen::Node { key, name }, keep, log)?,
    )
}

/// Two keys are as the order along a pointer says.
pub fn keys_ordered<S: Reader>(
    source: &S,
    order: KeyOrder,
    left: Term,
    right: Term,
    log: &mut S::Log,
) -> Result<bool, usize>
    ensures { Settles (λ full. keys_ordered order (S.picture source.now full) left right) (S.known source.now) result }
{
    match order {
        KeyOrder::Ascending => is_below(source, left, right, log),
        KeyOrder::Descending => is_below(source, right, left, log),
        KeyOrder::Free => Ok(true),
    }
}

/// A pointer to a named node is in its order.
pub fn edge_is_ordered<S: Reader>(
    source: &S,
    at: Place,
    to: u8,
    log: &mut S::Log,
) -> Result<bool, usize>
    ensures { Settles (λ full. edge_is_ordered (S.frame source.now) (S.picture source.now full) at to) (S.known source.now) result }
{
    if !source.says(Part::Leads { at, to }, log)? {
        return Ok(true);
    }
    let order = order_of(source, at.pointer);
    keys_ordered(source, order, Term::Node(at.name), Term::Node(to), log)
}

/// Another key may follow along a pointer of this order.
pub fn key_leaves_room<S: Reader>(
    source: &S,
    order: KeyOrder,
    term: Term,
    log: &mut S::Log,
) -> Result<bool, usize>
    ensures { Settles (λ full. key_leaves_room order (S.picture source.now full) term) (S.known source.now) result }
{
    match order {
        KeyOrder::Ascending => is_below(source, term, Term::Max, log),
        KeyOrder::Descending => is_below(source, Term::Min, term, log),
        KeyOrder::Free => Ok(true),
    }
}

/// A pointer to an outside node leaves room for its key.
pub fn beyond_has_room<S: Reader>(source: &S, at: Place, log: &mut S::Log) -> Result<bool, usize>
    ensures { Settles (λ full. beyond_has_room (S.frame source.now) (S.picture source.now full) at) (S.known source.now) result }
{
    if !source.says(Part::Beyond { at }, log)? {
        return Ok(true);
    }
    key_leaves_room(
        source,
        order_of(source, at.pointer),
        Term::Node(at.name),
        log,
    )
}

/// The walk arrives where it goes on to, or gives the set bit where it ends.
pub fn arrives<S: Reader>(
    source: &S,
    key: KeyName,
    name: u8,
    target: Target,
    log: &mut S::Log,
) -> Result<bool, usize>
    ensures { Settles (λ full. arrives (S.frame source.now) (S.picture source.now full) key name target) (S.known source.now) result }
{
    match target {
        Target::Ends => {
            let holds = value(
                source,
                Seen::Node { key, name },
                &source.header().holds,
                log,
            )?;
            Ok(source.says(Part::InSet { key }, log)? == holds)
        }
        Target::To(name) | Target::Jumps(name) => source.says(Part::Visits { key, name }, log),
        Target::Out(_) => Ok(true),
        Target::Stops { slot, .. } => source.says(Part::StopVisited { key, slot }, log),
    }
}

/// A visited name sends its key on.
pub fn visit_goes_on<S: Reader>(
    source: &S,
    key: KeyName,
    name: u8,
    log: &mut S::Log,
) -> Result<bool, usize>
    ensures { Settles (λ full. visit_goes_on (S.frame source.now) (S.picture source.now full) key name) (S.known source.now) result }
{
    if !source.says(Part::Visits { key, name }, log)? {
        return Ok(true);
    }
    let target = target(source, key, name, log)?;
    arrives(source, key, name, target, log)
}
