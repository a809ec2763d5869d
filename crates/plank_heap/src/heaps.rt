ghost use Rattle.std.specs.Prelude.{◌≡◌, ◌+◌, ◌-◌, ◌<◌, ◌^◌, length, slice_get, Some, IfOk, OnErr};
ghost use Rattle.plank_heap.specs.Heaps.{start_node, start_pointer};

use crate::nodes::Node;
use plank_base::{NodeId, OutOfMemory};
use plank_prog::{Program, StartNode};
use sqlite_items::Items;
use std::alloc::Global;

/// A heap: nodes that are named by their places, and the root among them.
#[derive(Debug, Drop)]
pub struct Heap {
    pub nodes: Items<Node>,
    pub root: NodeId,
}

// Where a pointer field of a start node leads.
fn start_pointer(node: &StartNode, f: usize) -> Option<NodeId>
    ensures { result ≡ start_pointer node.now f }
{
    match node.pointers.get(f) {
        Some(Some(to)) => Some(NodeId(*to)),
        _ => None,
    }
}

// The node that a start node declares.
fn start_node(node: &StartNode) -> Node
    ensures { result ≡ start_node node.now }
{
    Node {
        key: node.key,
        flags: node.flags,
        pointers: [start_pointer(node, 0), start_pointer(node, 1)],
        lock: None,
    }
}

impl Heap {
    ghost use Rattle.plank_heap.specs.Heaps.{start_heap, IsClosed};
    ghost use Rattle.plank_heap.specs.Changes.{with_node, with_fresh_node};

    /// The start heap of a program: its start nodes as they stand, with the numbers from 0.
    pub fn start(alloc: Global, program: &Program) -> Result<Heap, OutOfMemory>
        ensures heap { IfOk result (λ heap. heap ≡ start_heap program.now.header) }
        ensures closed { IfOk result (λ heap. IsClosed heap) }
    {
        let mut nodes = Items::new(alloc);
        for node in program.header.nodes.as_slice() {
            nodes.push(start_node(node))?;
        }
        Ok(Heap {
            nodes,
            root: NodeId(program.header.root),
        })
    }

    /// The node of this name.
    pub fn node(&self, at: NodeId) -> Node
        requires { at.0 < length self.now.nodes }
        ensures { slice_get self.now.nodes at.0 ≡ Some result }
    {
        self.nodes.as_slice()[at.0 as usize]
    }

    /// Puts another node in the place of the node of this name.
    pub fn set_node(&mut self, at: NodeId, node: Node)
        requires { at.0 < length self.old.nodes }
        ensures { self.new ≡ with_node self.old at.0 node }
    {
        self.nodes.set(at.0 as usize, node);
    }

    /// Adds a fresh node of a key, which gets the next number. Where memory is refused the heap is unchanged.
    pub fn add_fresh_node(&mut self, key: i64) -> Result<NodeId, OutOfMemory>
        requires { length self.old.nodes < 2 ^ 32 }
        ensures heap { IfOk result (λ _. self.new ≡ with_fresh_node self.old key) }
        ensures name { IfOk result (λ added. added.0 ≡ length self.old.nodes) }
        ensures err { OnErr result (self.new ≡ self.old) }
    {
        let added = NodeId(self.nodes.len() as u32);
        self.nodes.push(Node::fresh(key))?;
        Ok(added)
    }
}
