ghost use Rattle.std.specs.Prelude.{◌≡◌, ◌≤◌, ◌<◌, ◌^◌, ◌&&◌, length, map, IfOk};
ghost use Rattle.plank_base.specs.declared.limits.TheConstants.{FLAGS_LIMIT};
ghost use Rattle.plank_rules.specs.Declarations.{same_name};
ghost use Rattle.plank_type.specs.Headers.{start_key, is_set, starts_set, start_flags, node_of, start_pointer, start_node_of, root_of};

use crate::names::{Numbers, copied};
use plank_ast::{FlagLine, PointerLine, RootLine, StartItem, StartKey, StartLine, StartValue};
use plank_base::{Key, Label, OutOfMemory};
use plank_prog::StartNode;
use sqlite_items::Items;
use std::alloc::Global;

fn start_key(key: StartKey) -> Key
    ensures { result ≡ start_key key }
{
    match key {
        StartKey::Min => Key::Min,
        StartKey::Max => Key::Max,
    }
}

fn is_set(value: &StartValue) -> bool
    ensures { result ≡ is_set value.now }
{
    match value {
        StartValue::Flag(truth) => truth.value,
        StartValue::Null(_) => false,
        StartValue::Node(_) => false,
    }
}

fn sets(item: &StartItem, flag: &Label) -> bool
    ensures { result ≡ (same_name flag.now item.now.field.label && is_set item.now.value) }
{
    *flag == item.field.label && is_set(&item.value)
}

// Whether a flag is given, and as true.
fn starts_set(items: &[StartItem], flag: &Label) -> bool
    ensures { result ≡ starts_set items.now flag.now }
{
    items.iter().any(|item| sets(item, flag))
}

// Bit i for the i-th flag.
fn start_flags(items: &[StartItem], flags: &[FlagLine]) -> u8
    requires few { length flags.now ≤ FLAGS_LIMIT }
    ensures value { result ≡ start_flags items.now (map (λ line. line.name.label) flags.now) }
    ensures within { result < 2 ^ length flags.now }
{
    match flags {
        [] => 0,
        [flag, others @ ..] => {
            u8::from(starts_set(items, &flag.name.label)) + 2 * start_flags(items, others)
        }
    }
}

// The number of the start node that a value names.
fn node_of(names: &Numbers<'_>, value: &StartValue) -> Option<u32>
    ensures { result ≡ node_of names.now.nodes value.now }
{
    match value {
        StartValue::Flag(_) => None,
        StartValue::Null(_) => None,
        StartValue::Node(name) => names.node(&name.label),
    }
}

// Where a pointer field leads; one that is not given is null.
fn start_pointer(names: &Numbers<'_>, items: &[StartItem], pointer: &Label) -> Option<u32>
    ensures { result ≡ start_pointer names.now.nodes items.now pointer.now }
{
    for item in items {
        if *pointer == item.field.label {
            return node_of(names, &item.value);
        }
    }
    None
}

fn start_pointers(
    alloc: Global,
    names: &Numbers<'_>,
    items: &[StartItem],
    lines: &[PointerLine],
) -> Result<Items<Option<u32>>, OutOfMemory>
    ensures { IfOk result (λ pointers. pointers
        ≡ map (λ line. start_pointer names.now.nodes items.now line.name.label) lines.now) }
{
    let mut pointers = Vec::new(alloc);
    for line in lines {
        pointers.push(start_pointer(names, items, &line.name.label))?;
    }
    Ok(Items::from_vec(pointers))
}

fn start_node_of(
    alloc: Global,
    names: &Numbers<'_>,
    line: &StartLine,
) -> Result<StartNode, OutOfMemory>
    ensures { IfOk result (λ node. node ≡ start_node_of names.now line.now) }
{
    let items = line.items.as_slice();
    let name = copied(alloc, &line.name.label)?;
    let flags = start_flags(items, names.flags());
    let pointers = start_pointers(alloc, names, items, names.pointers())?;
    Ok(StartNode {
        name,
        key: start_key(line.key),
        flags,
        pointers,
    })
}

/// The nodes of the start heap.
pub(crate) fn start_nodes_of(
    alloc: Global,
    names: &Numbers<'_>,
    lines: &[StartLine],
) -> Result<Items<StartNode>, OutOfMemory>
    ensures { IfOk result (λ nodes. nodes ≡ map (start_node_of names.now) lines.now) }
{
    let mut nodes = Vec::new(alloc);
    for line in lines {
        nodes.push(start_node_of(alloc, names, line)?)?;
    }
    Ok(Items::from_vec(nodes))
}

/// The number of the node that the first root line names.
pub(crate) fn root_of(names: &Numbers<'_>, roots: &[RootLine]) -> u32
    ensures { result ≡ root_of names.now.nodes roots.now }
{
    match roots {
        [] => 0,
        [line, ..] => names.node(&line.name.label).unwrap_or(0),
    }
}
