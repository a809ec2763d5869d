//! The nodes that a walk visits.
ghost use Rattle.std.specs.Prelude.{◌≡◌, ◌<◌, ◌≤◌, ◌==◌, length, [], ◌∷◌, IfOk};
ghost use Rattle.std.specs.Option.{option_map};
ghost use Rattle.std.specs.List.{list_any};
ghost use Rattle.plank_prog.specs.declared.views.TheConstants.{POINTER_FIELDS};
ghost use Rattle.plank_prog.specs.Views.{admits};
ghost use Rattle.plank_heap.specs.Heaps.{IsClosed};
ghost use Rattle.plank_heap.specs.Walks.{first_admitted, next_from, next};
ghost use Rattle.plank_trace.specs.Paths.{path_of};

use plank_base::{NodeId, OutOfMemory};
use plank_heap::{Heap, Node};
use plank_prog::{POINTER_FIELDS, Pointer, Program};
use std::alloc::Global;

fn is_among(nodes: &[NodeId], at: NodeId) -> bool
    ensures { result ≡ list_any (λ x. x.0 == at.0) nodes.now }
{
    nodes.iter().any(|node| node.0 == at.0)
}

// Where the field leads, where it is not null and admits the key.
fn through(pointer: &Pointer, node: &Node, to: Option<NodeId>, j: i64) -> Option<NodeId>
    ensures { option_map (λ x. x.0) result ≡
        first_admitted (λ p. admits p node.now.key node.now.flags j) (pointer.now ∷ []) (to ∷ []) }
{
    match to {
        Some(target) if pointer.admits(node.key, node.flags, j) => Some(target),
        _ => None,
    }
}

// Where the walk of a key goes from a node, and none where it ends there.
fn next_from(pointers: &[Pointer], node: &Node, j: i64) -> Option<NodeId>
    requires { length pointers.now ≤ POINTER_FIELDS }
    ensures { option_map (λ x. x.0) result ≡
        first_admitted (λ p. admits p node.now.key node.now.flags j) pointers.now node.now.pointers }
{
    for (i, pointer) in pointers.iter().enumerate() {
        let to = node.pointer(i as u8);
        if let Some(target) = through(pointer, node, to, j) {
            return Some(target);
        }
    }
    None
}

fn next(program: &Program, heap: &Heap, j: i64, at: NodeId) -> Option<NodeId>
    requires { at.0 < length heap.now.nodes }
    ensures { option_map (λ x. x.0) result ≡ next program.now.header heap.now j at.0 }
{
    next_from(program.header.pointers.as_slice(), &heap.node(at), j)
}

/// The nodes that the walk of a key visits, in order, each once.
pub fn path(
    alloc: Global,
    program: &Program,
    heap: &Heap,
    j: i64,
) -> Result<Vec<NodeId>, OutOfMemory>
    requires { IsClosed heap.now }
    ensures { IfOk result (λ nodes. nodes.items ≡ path_of program.now.header heap.now j) }
{
    let mut nodes = Vec::new(alloc);
    let mut at = heap.root;
    for _turn in 0..heap.nodes.len() {
        if is_among(nodes.as_slice(), at) {
            return Ok(nodes);
        }
        nodes.push(at)?;
        match next(program, heap, j, at) {
            Some(to) => at = to,
            None => return Ok(nodes),
        }
    }
    Ok(nodes)
}
