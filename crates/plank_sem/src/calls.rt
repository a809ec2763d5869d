ghost use Rattle.std.specs.Prelude.{◌≡◌, ◌<◌, All};
ghost use Rattle.plank_sem.specs.Reads.{same_target, has_lock};

use plank_base::{Key, NodeId, ThreadId, VARIABLES_LIMIT};
use plank_heap::{Heap, Node};
use plank_prog::{Bind, FlagOperand, KeyOperand, PointerOperand, Reference, Test, Value, has_flag};

/// How many variables a call may have, as the length of an array.
pub const VARIABLES: usize = VARIABLES_LIMIT as usize;

/// A call that has not been answered yet.
#[derive(Clone, Copy, Debug, PartialEq, Eq)]
pub struct Call {
    /// The number of the method, from 0.
    pub method: u32,
    /// Where in the method the call stands: the number of the location of its next step.
    pub location: u32,
    /// The key that the method was called at.
    pub key: i64,
    /// The variables, null at the beginning; entries past those of the method are not used.
    pub variables: [Option<NodeId>; VARIABLES],
}

// What a call reads of a heap. None stands for the read of a field of null.
impl Call {
    ghost use Rattle.plank_sem.specs.Worlds.{fresh_call};
    ghost use Rattle.plank_sem.specs.Reads.{named, value_of, node_of, flag_of, pointer_of, key_of, target_of, test_value, tests_value};
    ghost use Rattle.plank_sem.specs.Actions.{bound};

    // A call that has just begun.
    pub(crate) fn fresh(method: u32, key: i64) -> Call
        ensures { result ≡ fresh_call method key }
    {
        Call {
            method,
            location: 0,
            key,
            variables: [None; VARIABLES],
        }
    }

    // The node that a name names, or null.
    pub(crate) fn named(&self, heap: &Heap, reference: Reference) -> Option<NodeId>
        ensures { result ≡ named heap.now self.now reference }
    {
        match reference {
            Reference::Root => Some(heap.root),
            Reference::Variable(v) => self.variables.get(v as usize).copied().flatten(),
        }
    }

    pub(crate) fn value(&self, heap: &Heap, value: Value) -> Option<NodeId>
        ensures { result ≡ value_of heap.now self.now value }
    {
        match value {
            Value::Null => None,
            Value::Node(reference) => self.named(heap, reference),
        }
    }

    pub(crate) fn node(&self, heap: &Heap, reference: Reference) -> Option<Node>
        ensures { result ≡ node_of heap.now self.now reference }
    {
        match self.named(heap, reference) {
            Some(at) => heap.nodes.as_slice().get(at.0 as usize).copied(),
            None => None,
        }
    }

    fn flag(&self, heap: &Heap, operand: FlagOperand) -> Option<bool>
        ensures { result ≡ flag_of heap.now self.now operand }
    {
        match self.node(heap, operand.node) {
            Some(node) => Some(has_flag(node.flags, operand.flag)),
            None => None,
        }
    }

    fn pointer(&self, heap: &Heap, reference: Reference, pointer: u8) -> Option<Option<NodeId>>
        ensures { result ≡ pointer_of heap.now self.now reference pointer }
    {
        match self.node(heap, reference) {
            Some(node) => node.pointers.get(pointer as usize).copied(),
            None => None,
        }
    }

    fn key_of(&self, heap: &Heap, operand: KeyOperand) -> Option<Key>
        ensures { result ≡ key_of heap.now self.now operand }
    {
        match operand {
            KeyOperand::Node(reference) => match self.node(heap, reference) {
                Some(node) => Some(node.key),
                None => None,
            },
            KeyOperand::Argument => Some(Key::Num(self.key)),
            KeyOperand::Min => Some(Key::Min),
            KeyOperand::Max => Some(Key::Max),
        }
    }

    fn target(&self, heap: &Heap, operand: PointerOperand) -> Option<Option<NodeId>>
        ensures { result ≡ target_of heap.now self.now operand }
    {
        match operand {
            PointerOperand::Null => Some(None),
            PointerOperand::Node(reference) => Some(self.named(heap, reference)),
            PointerOperand::Field { node, pointer } => self.pointer(heap, node, pointer),
        }
    }

    fn test(&self, heap: &Heap, thread: ThreadId, test: Test) -> Option<bool>
        ensures { result ≡ test_value heap.now thread self.now test }
    {
        match test {
            Test::Flag { flag, set } => match self.flag(heap, flag) {
                Some(has) => Some(has == set),
                None => None,
            },
            Test::Flags { left, right, equal } => match self.flag(heap, left) {
                Some(left) => match self.flag(heap, right) {
                    Some(right) => Some((left == right) == equal),
                    None => None,
                },
                None => None,
            },
            Test::Keys {
                left,
                relation,
                right,
            } => match self.key_of(heap, left) {
                Some(left) => match self.key_of(heap, right) {
                    Some(right) => Some(relation.holds(left, right)),
                    None => None,
                },
                None => None,
            },
            Test::Pointers { left, right, equal } => match self.target(heap, left) {
                Some(left) => match self.target(heap, right) {
                    Some(right) => Some(is_same_target(left, right) == equal),
                    None => None,
                },
                None => None,
            },
            Test::LockFree { node } => match self.node(heap, node) {
                Some(node) => Some(node.lock.is_none()),
                None => None,
            },
            Test::LockOwn { node } => match self.node(heap, node) {
                Some(node) => Some(has_lock(thread, &node)),
                None => None,
            },
        }
    }

    // Whether each test is true. Nothing is read beyond the first that is false.
    pub(crate) fn passes(&self, heap: &Heap, thread: ThreadId, tests: &[Test]) -> Option<bool>
        ensures { result ≡ tests_value heap.now thread self.now tests.now }
    {
        for test in tests {
            match self.test(heap, thread, *test) {
                Some(true) => {}
                Some(false) => return Some(false),
                None => return None,
            }
        }
        Some(true)
    }

    // The variables after binds. None where one reads a field of null.
    pub(crate) fn bind(&self, heap: &Heap, binds: &[Bind]) -> Option<[Option<NodeId>; VARIABLES]>
        requires { All (λ d. d.to < VARIABLES) binds.now }
        ensures { result ≡ bound heap.now self.now binds.now self.now.variables }
    {
        let mut variables = self.variables;
        for bind in binds {
            match self.pointer(heap, bind.from, bind.pointer) {
                Some(to) => variables[bind.to as usize] = to,
                None => return None,
            }
        }
        Some(variables)
    }
}

// Whether two pointers are equal.
fn is_same_target(left: Option<NodeId>, right: Option<NodeId>) -> bool
    ensures { result ≡ same_target left right }
{
    match (left, right) {
        (None, None) => true,
        (Some(left), Some(right)) => left.0 == right.0,
        (None, Some(_)) => false,
        (Some(_), None) => false,
    }
}

fn has_lock(thread: ThreadId, node: &Node) -> bool
    ensures { result ≡ has_lock thread node.now }
{
    match node.lock {
        Some(holder) => holder.0 == thread.0,
        None => false,
    }
}
