ghost use Rattle.std.specs.Prelude.{◌≡◌, ◌↔◌, ◌<◌, ◌≤◌, length, [], ◌∷◌, IsTrue};
ghost use Rattle.std.specs.Option.{option_map};
ghost use Rattle.plank_prog.specs.declared.views.TheConstants.{POINTER_FIELDS};
ghost use Rattle.plank_prog.specs.Views.{admits};
ghost use Rattle.plank_heap.specs.Heaps.{IsClosed};
ghost use Rattle.plank_heap.specs.Walks.{first_admitted, next_from, next, WalkVisits, WalkEndsAt, WalkNeverEnds, walk_visits, contains, Contains};

use crate::heaps::Heap;
use crate::nodes::Node;
use plank_base::NodeId;
use plank_prog::{POINTER_FIELDS, Pointer, Program};

/// Where a walk ends.
#[derive(Clone, Copy, Debug, PartialEq, Eq)]
pub enum WalkEnd {
    /// At this node, from which no field admits the key.
    At(NodeId),
    /// Nowhere: the walk never ends.
    Cycles,
}

// Where the field leads, where it is not null and admits the key.
fn through(pointer: &Pointer, node: &Node, to: Option<NodeId>, j: i64) -> Option<NodeId>
    ensures { option_map (λ x. x.0) result ≡
        first_admitted (λ p. admits p node.now.key node.now.flags j) (pointer.now ∷ []) (to ∷ []) }
{
    match to {
        Some(target) if pointer.admits(node.key, node.flags, j) => Some(target),
        _ => None,
    }
}

// Where the walk of a key goes from a node, and none where it ends there: the first declared field
// decides.
fn next_from(pointers: &[Pointer], node: &Node, j: i64) -> Option<NodeId>
    requires { length pointers.now ≤ POINTER_FIELDS }
    ensures { option_map (λ x. x.0) result ≡
        first_admitted (λ p. admits p node.now.key node.now.flags j) pointers.now node.now.pointers }
{
    for (i, pointer) in pointers.iter().enumerate() {
        let to = node.pointer(i as u8);
        if let Some(target) = through(pointer, node, to, j) {
            return Some(target);
        }
    }
    None
}

impl Heap {
    // Where the walk of a key goes from a node.
    fn next(&self, program: &Program, j: i64, at: NodeId) -> Option<NodeId>
        requires { at.0 < length self.now.nodes }
        ensures { option_map (λ x. x.0) result ≡ next program.now.header self.now j at.0 }
    {
        next_from(program.header.pointers.as_slice(), &self.node(at), j)
    }

    /// Where the walk of an ordinary key ends (after the search path of Shasha and Goodman 1988).
    ///
    /// It takes no memory, and makes at most as many moves as the heap has nodes.
    pub fn walk(&self, program: &Program, j: i64) -> WalkEnd
        requires { IsClosed self.now }
        ensures at { (y : NodeId) →
            (result ≡ WalkEnd.At y) ↔ WalkEndsAt program.now.header self.now j y.0 }
        ensures cycles { (result ≡ WalkEnd.Cycles) ↔ WalkNeverEnds program.now.header self.now j }
    {
        let mut at = self.root;
        for _turn in 0..self.nodes.len() {
            match self.next(program, j, at) {
                Some(to) => at = to,
                None => return WalkEnd::At(at),
            }
        }
        WalkEnd::Cycles
    }

    /// Whether the walk of an ordinary key visits a node. It takes no memory, as `walk` does.
    pub fn visits(&self, program: &Program, j: i64, x: NodeId) -> bool
        requires { IsClosed self.now }
        ensures exact { IsTrue result ↔ WalkVisits program.now.header self.now j x.0 }
        ensures test { result ≡ walk_visits program.now.header self.now j x.0 }
    {
        let mut at = self.root;
        for _move in 0..self.nodes.len() {
            if at.0 == x.0 {
                return true;
            }
            match self.next(program, j, at) {
                Some(to) => at = to,
                None => return false,
            }
        }
        at.0 == x.0
    }

    /// Whether the heap holds an ordinary key: whether the key's walk ends at a node that the `holds`
    /// condition accepts for it. It takes no memory, as `walk` does.
    pub fn in_set(&self, program: &Program, j: i64) -> bool
        requires { IsClosed self.now }
        ensures exact { IsTrue result ↔ Contains program.now.header self.now j }
        ensures test { result ≡ contains program.now.header self.now j }
    {
        match self.walk(program, j) {
            WalkEnd::At(end) => {
                let node = self.node(end);
                program.holds(node.key, node.flags, j)
            }
            WalkEnd::Cycles => false,
        }
    }
}
