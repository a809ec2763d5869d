ghost use Rattle.std.specs.Prelude.{◌≡◌, map, IfOk};
ghost use Rattle.plank_type.specs.Numbers.{names_of};
ghost use Rattle.plank_type.specs.Headers.{order_of, edge_of, pointer_of, keep_of, freeze_of, header_of};

use crate::conditions::condition_of;
use crate::limits::Limited;
use crate::names::{Numbers, copied, flag_names};
use crate::start_nodes::{root_of, start_nodes_of};
use plank_ast::{ConditionLine, Direction, NamedCondition, PointerLine, Text};
use plank_base::{Label, OutOfMemory};
use plank_prog::{Condition, Header, Keep, KeyOrder, Pointer};
use sqlite_items::Items;
use std::alloc::Global;

fn order_of(direction: Direction) -> KeyOrder
    ensures { result ≡ order_of direction }
{
    match direction {
        Direction::Ascending => KeyOrder::Ascending,
        Direction::Descending => KeyOrder::Descending,
        Direction::Free => KeyOrder::Free,
    }
}

// The condition of the first edge of a pointer field.
fn edge_of(
    alloc: Global,
    names: &Numbers<'_>,
    edges: &[NamedCondition],
    pointer: &Label,
) -> Result<Option<Condition>, OutOfMemory>
    ensures { IfOk result (λ edge. edge ≡ edge_of names.now edges.now pointer.now) }
{
    for line in edges {
        if *pointer == line.name.label {
            let condition = condition_of(alloc, names, &line.condition)?;
            return Ok(Some(condition));
        }
    }
    Ok(None)
}

fn pointer_of(
    alloc: Global,
    names: &Numbers<'_>,
    edges: &[NamedCondition],
    line: &PointerLine,
) -> Result<Pointer, OutOfMemory>
    ensures { IfOk result (λ pointer. pointer ≡ pointer_of names.now edges.now line.now) }
{
    let name = copied(alloc, &line.name.label)?;
    let edge = edge_of(alloc, names, edges, &line.name.label)?;
    Ok(Pointer {
        name,
        order: order_of(line.direction),
        edge,
    })
}

fn pointers_of(
    alloc: Global,
    names: &Numbers<'_>,
    edges: &[NamedCondition],
    lines: &[PointerLine],
) -> Result<Items<Pointer>, OutOfMemory>
    ensures { IfOk result (λ pointers. pointers ≡ map (pointer_of names.now edges.now) lines.now) }
{
    let mut pointers = Vec::new(alloc);
    for line in lines {
        pointers.push(pointer_of(alloc, names, edges, line)?)?;
    }
    Ok(Items::from_vec(pointers))
}

fn keep_of(alloc: Global, names: &Numbers<'_>, line: &NamedCondition) -> Result<Keep, OutOfMemory>
    ensures { IfOk result (λ keep. keep ≡ keep_of names.now line.now) }
{
    let name = copied(alloc, &line.name.label)?;
    let condition = condition_of(alloc, names, &line.condition)?;
    Ok(Keep { name, condition })
}

fn keeps_of(
    alloc: Global,
    names: &Numbers<'_>,
    lines: &[NamedCondition],
) -> Result<Items<Keep>, OutOfMemory>
    ensures { IfOk result (λ keeps. keeps ≡ map (keep_of names.now) lines.now) }
{
    let mut keeps = Vec::new(alloc);
    for line in lines {
        keeps.push(keep_of(alloc, names, line)?)?;
    }
    Ok(Items::from_vec(keeps))
}

fn freeze_of(
    alloc: Global,
    names: &Numbers<'_>,
    line: &Option<ConditionLine>,
) -> Result<Option<Condition>, OutOfMemory>
    ensures { IfOk result (λ freeze. freeze ≡ freeze_of names.now line.now) }
{
    match line {
        Some(line) => Ok(Some(condition_of(alloc, names, &line.condition)?)),
        None => Ok(None),
    }
}

/// The header of a well typed text within the limits.
pub(crate) fn header_of(alloc: Global, limited: Limited<'_>) -> Result<Header, OutOfMemory>
    ensures { IfOk result (λ header. header ≡ header_of limited.entry.typed.now.text.now) }
{
    let numbers = Numbers::new(limited);
    header_with(alloc, &numbers, limited.typed.text)
}

fn header_with(alloc: Global, names: &Numbers<'_>, text: &Text) -> Result<Header, OutOfMemory>
    requires names { names.now ≡ names_of text.now }
    ensures { IfOk result (λ header. header ≡ header_of text.now) }
{
    let pointers = pointers_of(
        alloc,
        names,
        text.edges.as_slice(),
        text.pointers.as_slice(),
    )?;
    let nodes = start_nodes_of(alloc, names, text.starts.as_slice())?;
    let holds = condition_of(alloc, names, &text.holds.condition)?;
    let keeps = keeps_of(alloc, names, text.keeps.as_slice())?;
    let freeze = freeze_of(alloc, names, &text.freeze)?;
    let flags = flag_names(alloc, text.flags.as_slice())?;
    Ok(Header {
        flags,
        pointers,
        has_lock: names.has_lock(),
        nodes,
        root: root_of(names, text.roots.as_slice()),
        holds,
        keeps,
        freeze,
    })
}
