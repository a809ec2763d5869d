ghost use Rattle.std.specs.Prelude.{◌≡◌, OnOk, OnErr, IsSome};
ghost use Rattle.std.specs.FinMap as map;

use plank_base::{OutOfMemory, ThreadId};
use std::alloc::Global;
use std::collections::BTreeMap;
use std::marker::Model;

/// What each thread has pending, at most one value for a thread. Contracts see it as the finite map
/// from the threads' numbers.
#[derive(Drop)]
pub struct Pending<C> {
    held: BTreeMap<u32, C>,
}

impl<C> Model for Pending<C> {
    ghost use Rattle.std.specs.Ordering.{nat_cmp};
    ghost use Rattle.std.specs.FinMap as map;
    ghost use Rattle.std.specs.Coded.{coded_ℕ};

    ghost Value = { map.FinMap nat_cmp C };

    ghost coded = { map.code coded_ℕ C.code };

    ghost view = { λ p. map.from_entries p.held.entries };
}

impl<C: Copy> Pending<C> {
    /// Nothing is pending; takes no memory.
    pub fn new(alloc: Global) -> Pending<C>
        ensures { result ≡ map.empty }
    {
        Pending {
            held: BTreeMap::new(alloc),
        }
    }

    /// What the thread has pending.
    pub fn get(&self, thread: ThreadId) -> Option<C>
        ensures { result ≡ map.get self.now thread.0 }
    {
        self.held.get(&thread.0).copied()
    }

    /// From now on the thread has this pending.
    pub fn insert(&mut self, thread: ThreadId, call: C) -> Result<(), OutOfMemory>
        ensures ok { OnOk result (self.new ≡ map.insert self.old thread.0 call) }
        ensures err { OnErr result (self.new ≡ self.old) }
    {
        self.held.insert(thread.0, call)?;
        Ok(())
    }

    /// From now on the thread, which has something pending, has this pending; takes no memory.
    pub fn replace(&mut self, thread: ThreadId, call: C)
        requires { IsSome (map.get self.old thread.0) }
        ensures { self.new ≡ map.insert self.old thread.0 call }
    {
        if let Some(held) = self.held.get_mut(&thread.0) {
            *held = call;
        }
    }

    /// From now on the thread has nothing pending; takes no memory.
    pub fn remove(&mut self, thread: ThreadId)
        ensures { self.new ≡ map.remove self.old thread.0 }
    {
        let _ = self.held.remove(&thread.0);
    }
}
