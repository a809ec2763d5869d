ghost use Rattle.std.specs.Prelude.{◌≡◌, ◌↔◌, ◌<◌, ◌≤◌, pos, IsTrue, IfOk, length};
ghost use Rattle.std.specs.List.{list_all};
ghost use Rattle.plank_base.specs.declared.keys.Key.{Key};
ghost use Rattle.plank_prog.specs.Conditions.{value};
ghost use Rattle.plank_prog.specs.Views.{view_of};
ghost use Rattle.plank_base.specs.declared.limits.TheConstants.{NODES_LIMIT};
ghost use Rattle.plank_prog.specs.declared.views.TheConstants.{POINTER_FIELDS};
ghost use Rattle.plank_heap.specs.Heaps.{IsClosed};
ghost use Rattle.plank_pic.specs.Below.{some_below};
ghost use Rattle.plank_fact.specs.Start.{in_order, in_order_to, leads_in_order, meets_keeps, meets_rules, breaks_rules, StartFails};

use plank_base::{Key, NodeId, OutOfMemory};
use plank_heap::{Heap, Node};
use plank_prog::{KeyOrder, NodeView, POINTER_FIELDS, Program};
use std::alloc::Global;

// The walked key. It stands for every ordinary key, since the keys of start nodes are the ends.
const WALKED: i64 = 0;

// Whether a node meets every keep, by whether the walk visits it.
fn meets_each_keep(program: &Program, node: &NodeView, visited: bool) -> bool
    ensures { result ≡ list_all
        (λ k. value (view_of node.now.key node.now.flags node.now.nulls (Key.Num (pos 0)) visited) k.condition)
        program.now.header.keeps }
{
    program
        .header
        .keeps
        .as_slice()
        .iter()
        .all(|keep| keep.is_met(node, WALKED, visited))
}

// Whether a field of this order may lead from one key to another.
fn in_order(order: KeyOrder, key: Key, to: Key) -> bool
    ensures { result ≡ in_order order key to }
{
    match order {
        KeyOrder::Ascending => key.is_less(to),
        KeyOrder::Descending => to.is_less(key),
        KeyOrder::Free => true,
    }
}

// Whether a pointer that leads to this node is in its order.
fn in_order_to(heap: &Heap, order: KeyOrder, key: Key, to: NodeId) -> bool
    ensures { result ≡ in_order_to heap.now order key to.0 }
{
    match heap.nodes.get(to.0 as usize) {
        Some(node) => in_order(order, key, node.key),
        None => true,
    }
}

// Whether a pointer field of a node is null, or leads to a node in its order.
fn leads_in_order(program: &Program, heap: &Heap, node: &Node, f: u8) -> bool
    requires { f < POINTER_FIELDS }
    ensures { result ≡ leads_in_order program.now.header heap.now node.now f }
{
    match (program.header.pointers.get(f as usize), node.pointer(f)) {
        (Some(pointer), Some(to)) => in_order_to(heap, pointer.order, node.key, to),
        _ => true,
    }
}

// Whether a node meets every keep.
fn meets_keeps(program: &Program, heap: &Heap, x: NodeId, node: &Node) -> bool
    requires { IsClosed heap.now }
    ensures { result ≡ meets_keeps program.now.header heap.now (pos 0) x.0 node.now }
{
    let [first, second] = node.pointers;
    let view = NodeView {
        key: node.key,
        flags: node.flags,
        nulls: [first.is_none(), second.is_none()],
    };
    meets_each_keep(program, &view, heap.visits(program, WALKED, x))
}

// Whether a node meets every keep, and its pointers their order.
fn meets_rules(program: &Program, heap: &Heap, x: NodeId, node: &Node) -> bool
    requires { IsClosed heap.now }
    ensures { result ≡ meets_rules program.now.header heap.now (pos 0) x.0 node.now }
{
    meets_keeps(program, heap, x, node)
        && leads_in_order(program, heap, node, 0)
        && leads_in_order(program, heap, node, 1)
}

fn breaks_rules(program: &Program, heap: &Heap, x: u32) -> bool
    requires { IsClosed heap.now }
    ensures { result ≡ breaks_rules program.now.header heap.now (pos 0) x }
{
    match heap.nodes.get(x as usize) {
        Some(node) => !meets_rules(program, heap, NodeId(x), node),
        None => false,
    }
}

// Whether a node breaks a rule.
fn some_breaks_rules(program: &Program, heap: &Heap) -> bool
    requires closed { IsClosed heap.now }
    requires few { length heap.now.nodes ≤ NODES_LIMIT }
    ensures { result ≡ some_below (breaks_rules program.now.header heap.now (pos 0)) (length heap.now.nodes) }
{
    for x in 0..heap.nodes.len() {
        if breaks_rules(program, heap, x as u32) {
            return true;
        }
    }
    false
}

/// Whether the start heap is not as the program says: a node breaks a keep or the order of a pointer, or the set is
/// not empty.
pub fn start_fails(alloc: Global, program: &Program) -> Result<bool, OutOfMemory>
    ensures { IfOk result (λ fails. IsTrue fails ↔ StartFails program.now.header) }
{
    let heap = Heap::start(alloc, program)?;
    Ok(some_breaks_rules(program, &heap) || heap.in_set(program, WALKED))
}
