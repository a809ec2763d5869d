ghost use Rattle.std.specs.Prelude.{◌≡◌, ◌<◌, ◌^◌, All, Some, None, MatchOption, IfOk, OnErr, length};
ghost use Rattle.plank_prog.specs.Blocks.{written_node};

use crate::calls::{Call, VARIABLES};
use plank_base::{NodeId, OutOfMemory, ThreadId};
use plank_heap::{Heap, Node};
use plank_prog::{Block, Reference, Value, Write};

// What an action makes of a heap and of its call. None stands for a read or a write of a field of
// null, and the heap is then unchanged.
impl Call {
    ghost use Rattle.plank_sem.specs.Actions.{gone_to, HasRoom, changed, changed_by, written, taken_yes, block_run, copied, allocated};

    fn gone_to(&self, location: u32, variables: [Option<NodeId>; VARIABLES]) -> Call
        ensures { result ≡ gone_to self.now location variables }
    {
        Call {
            method: self.method,
            location,
            key: self.key,
            variables,
        }
    }

    fn change(&self, heap: &Heap, thread: ThreadId, write: Write, node: Node) -> Node
        requires { HasRoom write }
        ensures { result ≡ changed heap.now thread self.now write node }
    {
        let mut node = node;
        match write {
            Write::Flag { flag, value, .. } => node.set_flag(flag, value),
            Write::Pointer { pointer, value, .. } => {
                node.set_pointer(pointer, self.value(heap, value));
            }
            Write::TakeLock { .. } => node.set_lock(Some(thread)),
            Write::FreeLock { .. } => node.set_lock(None),
        }
        node
    }

    fn change_by(&self, heap: &Heap, thread: ThreadId, writes: &[Write], node: Node) -> Node
        requires { All HasRoom writes.now }
        ensures { result ≡ changed_by heap.now thread self.now writes.now node }
    {
        let mut node = node;
        for write in writes {
            node = self.change(heap, thread, *write, node);
        }
        node
    }

    // The writes of a block, which are all of one node.
    fn write(&self, heap: &mut Heap, thread: ThreadId, writes: &[Write]) -> Option<()>
        requires { All HasRoom writes.now }
        ensures { MatchOption result ((written heap.old thread self.now writes.now ≡ None) × (heap.new ≡ heap.old))
            (λ _. written heap.old thread self.now writes.now ≡ Some heap.new) }
    {
        let Some(first) = writes.first() else {
            return Some(());
        };
        let at = self.named(heap, node_of_write(*first))?;
        let node = heap.nodes.as_slice().get(at.0 as usize).copied()?;
        let node = self.change_by(heap, thread, writes, node);
        heap.set_node(at, node);
        Some(())
    }

    fn take_yes(&self, heap: &mut Heap, thread: ThreadId, block: &Block) -> Option<Call>
        requires binds { All (λ d. d.to < VARIABLES) block.now.binds }
        requires writes { All HasRoom block.now.writes }
        ensures { MatchOption result ((taken_yes heap.old thread self.now block.now ≡ None) × (heap.new ≡ heap.old))
            (λ call. taken_yes heap.old thread self.now block.now ≡ Some (record { heap = heap.new; call = call })) }
    {
        let variables = self.bind(heap, block.binds.as_slice())?;
        self.write(heap, thread, block.writes.as_slice())?;
        Some(self.gone_to(block.yes, variables))
    }

    pub(crate) fn run(&self, heap: &mut Heap, thread: ThreadId, block: &Block) -> Option<Call>
        requires binds { All (λ d. d.to < VARIABLES) block.now.binds }
        requires writes { All HasRoom block.now.writes }
        ensures { MatchOption result ((block_run heap.old thread self.now block.now ≡ None) × (heap.new ≡ heap.old))
            (λ call. block_run heap.old thread self.now block.now ≡ Some (record { heap = heap.new; call = call })) }
    {
        match self.passes(heap, thread, block.tests.as_slice()) {
            Some(true) => self.take_yes(heap, thread, block),
            Some(false) => Some(self.gone_to(block.no, self.variables)),
            None => None,
        }
    }

    pub(crate) fn copy(&self, heap: &Heap, to: u8, from: Value, next: u32) -> Call
        requires { to < VARIABLES }
        ensures { record { heap = heap.now; call = result } ≡ copied heap.now self.now to from next }
    {
        let mut variables = self.variables;
        variables[to as usize] = self.value(heap, from);
        self.gone_to(next, variables)
    }

    // Where memory is refused the heap is unchanged.
    pub(crate) fn allocate(&self, heap: &mut Heap, to: u8, next: u32) -> Result<Call, OutOfMemory>
        requires few { length heap.old.nodes < 2 ^ 32 }
        requires variable { to < VARIABLES }
        ensures ok { IfOk result (λ call. record { heap = heap.new; call = call } ≡ allocated heap.old self.now to next) }
        ensures err { OnErr result (heap.new ≡ heap.old) }
    {
        let fresh = heap.add_fresh_node(self.key)?;
        let mut variables = self.variables;
        variables[to as usize] = Some(fresh);
        Ok(self.gone_to(next, variables))
    }
}

// The node that a write changes.
fn node_of_write(write: Write) -> Reference
    ensures { result ≡ written_node write }
{
    match write {
        Write::Flag { node, .. } => node,
        Write::Pointer { node, .. } => node,
        Write::TakeLock { node } => node,
        Write::FreeLock { node } => node,
    }
}
