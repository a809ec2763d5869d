ghost use Rattle.std.specs.Prelude.{◌≡◌, ◌<◌, ◌≤◌, Some, length, IfOk};

use crate::calls::is_listed;
use crate::sinks::{Sink, Took};
use plank_base::OutOfMemory;
use std::alloc::Global;
use std::marker::Model;

/// A sink in memory, which fails at listed calls and once its room is used up. Contracts see it as a
/// record of the bytes taken, the calls made, the room in all, the most bytes a call, the calls that
/// fail, and the count of faults. The numbers of calls count from 1, and stay at the last value of
/// a u64.
#[derive(Debug, Drop)]
pub struct MemSink {
    taken: Vec<u8>,
    room: usize,
    most: usize,
    fails: Vec<u32>,
    calls: u64,
    faults: u64,
}

impl Model for MemSink {
    ghost use Rattle.std.specs.Prelude.{◌<◌, ◌≤◌, vec_len, vec_capacity};
    ghost use Rattle.plank_io.specs.MemSinkState.{MemSinkState};

    ghost Value = { MemSinkState };

    ghost view = { λ s. record { taken = s.taken.items; calls = s.calls; room = s.room; most = s.most; fails = s.fails.items; faults = s.faults } };

    ghost invariant = { λ s. (vec_len s.taken ≤ s.room) × (s.room ≤ vec_capacity s.taken) × (0 < s.most) };
}

impl MemSink {
    ghost use Rattle.plank_io.specs.MemSinkState.{fresh_sink};

    /// A sink with room for so many bytes, of which a call takes at most `most`. The calls whose
    /// numbers stand in `fails` answer `Failed`. The room is allocated here, and no later.
    pub fn new(
        alloc: Global,
        room: usize,
        most: usize,
        fails: &[u32],
    ) -> Result<MemSink, OutOfMemory>
        requires { 1 ≤ most }
        ensures { IfOk result (λ s. s ≡ fresh_sink room most fails.now) }
    {
        Ok(MemSink {
            taken: Vec::with_capacity(alloc, room)?,
            room,
            most,
            fails: Vec::from_slice(alloc, fails)?,
            calls: 0,
            faults: 0,
        })
    }

    /// What it took, in order.
    pub fn taken(&self) -> &[u8]
        ensures { result.now ≡ self.now.taken }
    {
        self.taken.as_slice()
    }
}

impl Sink for MemSink {
    ghost use Rattle.plank_io.specs.Faults.{Rose};
    ghost use Rattle.plank_io.specs.Sinks.{Writes};
    ghost use Rattle.plank_io.specs.MemSinkState.{write_answer, after_write};

    ghost taken = { λ s. Some s.taken };

    ghost faults = { λ s. s.faults };

    /// Takes as many bytes as the piece, `most` and what is left of the room allow. Takes no memory.
    fn write(&mut self, piece: &[u8]) -> Took
        requires { 0 < length piece.now }
        ensures write { Writes (Some self.old.taken) (Some self.new.taken) result piece.now }
        ensures failed { result ≡ Took.Failed → Rose self.old.faults self.new.faults }
        ensures never_falls { self.old.faults ≤ self.new.faults }
        // Which answer comes, and what the sink is then.
        ensures exactly { result ≡ write_answer self.old (length piece.now) }
        ensures after { self.new ≡ after_write self.old piece.now result }
    {
        self.calls = self.calls.saturating_add(1);
        if is_listed(self.fails.as_slice(), self.calls) || self.taken.len() == self.room {
            self.faults = self.faults.saturating_add(1);
            return Took::Failed;
        }
        let free = self.room - self.taken.len();
        let count = piece.len().min(self.most).min(free);
        self.taken.extend_from_slice(&piece[..count]).unwrap();
        Took::Bytes(count)
    }
}
