ghost use Rattle.std.specs.Prelude.{◌≡◌, ◌<◌, ◌^◌};
ghost use Rattle.plank_base.specs.declared.limits.TheConstants.{FLAGS_LIMIT};

use plank_base::{Key, NodeId, ThreadId};
use plank_prog::{POINTER_FIELDS, has_flag};

/// A node of a heap.
#[derive(Clone, Copy, Debug, PartialEq, Eq)]
pub struct Node {
    /// It never changes.
    pub key: Key,
    /// Bit i for the i-th declared flag.
    pub flags: u8,
    /// Where the i-th declared pointer field leads, or null; entries past the declared fields are not used.
    pub pointers: [Option<NodeId>; POINTER_FIELDS],
    /// The thread that has the lock, or none where it is free.
    pub lock: Option<ThreadId>,
}

impl Node {
    ghost use Rattle.std.specs.Prelude.{slice_get, Some};
    ghost use Rattle.plank_prog.specs.Views.{is_bit_set};
    ghost use Rattle.plank_heap.specs.Changes.{with_flag, with_pointer, with_lock, fresh_node};

    /// A node of a key: no flag, no pointer, a free lock.
    pub fn fresh(key: i64) -> Node
        ensures { result ≡ fresh_node key }
    {
        Node {
            key: Key::Num(key),
            flags: 0,
            pointers: [None; POINTER_FIELDS],
            lock: None,
        }
    }

    /// Whether the node has the flag of this number.
    pub fn has_flag(&self, flag: u8) -> bool
        ensures { result ≡ is_bit_set self.now.flags flag }
    {
        has_flag(self.flags, flag)
    }

    /// Where the pointer field of this number leads, or null.
    pub fn pointer(&self, pointer: u8) -> Option<NodeId>
        requires { pointer < POINTER_FIELDS }
        ensures { slice_get self.now.pointers pointer ≡ Some result }
    {
        self.pointers[pointer as usize]
    }

    /// Sets or clears the flag of this number.
    pub fn set_flag(&mut self, flag: u8, to: bool)
        requires { flag < FLAGS_LIMIT }
        ensures { self.new ≡ with_flag self.old flag to }
    {
        if to {
            self.flags |= 1 << flag;
        } else {
            self.flags &= !(1 << flag);
        }
    }

    /// Lets the pointer field of this number lead to a node, or to null.
    pub fn set_pointer(&mut self, pointer: u8, to: Option<NodeId>)
        requires { pointer < POINTER_FIELDS }
        ensures { self.new ≡ with_pointer self.old pointer to }
    {
        self.pointers[pointer as usize] = to;
    }

    /// Gives the lock to a thread, or frees it.
    pub fn set_lock(&mut self, holder: Option<ThreadId>)
        ensures { self.new ≡ with_lock self.old holder }
    {
        self.lock = holder;
    }
}
