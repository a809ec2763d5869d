ghost use Rattle.std.specs.Prelude.{◌≡◌, ◌<◌, ◌≤◌, Some, length, IfOk};

use crate::calls::is_listed;
use crate::sources::{Got, Source};
use plank_base::OutOfMemory;
use std::alloc::Global;
use std::marker::Model;

/// A source in memory, which fails at listed calls. Contracts see it as a record of the bytes left,
/// the calls made, the most bytes a call, the calls that fail, and the count of faults. The numbers
/// of calls count from 1, and stay at the last value of a u64.
#[derive(Debug, Drop)]
pub struct MemSource {
    bytes: Vec<u8>,
    at: usize,
    most: usize,
    fails: Vec<u32>,
    calls: u64,
    faults: u64,
}

impl Model for MemSource {
    ghost use Rattle.std.specs.Prelude.{◌<◌, ◌≤◌, length, drop};
    ghost use Rattle.plank_io.specs.MemSourceState.{MemSourceState};

    ghost Value = { MemSourceState };

    ghost view = { λ s. record { left = drop s.at s.bytes.items; calls = s.calls; most = s.most; fails = s.fails.items; faults = s.faults } };

    ghost invariant = { λ s. (s.at ≤ length s.bytes.items) × (0 < s.most) };
}

impl MemSource {
    ghost use Rattle.plank_io.specs.MemSourceState.{fresh_source};

    /// A source of these bytes, of which a call hands out at most `most`. The calls whose numbers
    /// stand in `fails` answer `Failed`.
    pub fn new(
        alloc: Global,
        bytes: &[u8],
        most: usize,
        fails: &[u32],
    ) -> Result<MemSource, OutOfMemory>
        requires { 1 ≤ most }
        ensures { IfOk result (λ s. s ≡ fresh_source bytes.now most fails.now) }
    {
        Ok(MemSource {
            bytes: Vec::from_slice(alloc, bytes)?,
            at: 0,
            most,
            fails: Vec::from_slice(alloc, fails)?,
            calls: 0,
            faults: 0,
        })
    }
}

impl Source for MemSource {
    ghost use Rattle.plank_io.specs.Faults.{Rose};
    ghost use Rattle.plank_io.specs.Sources.{Reads};
    ghost use Rattle.plank_io.specs.MemSourceState.{read_answer, after_read};

    ghost left = { λ s. Some s.left };

    ghost faults = { λ s. s.faults };

    /// Hands out as many bytes as the slice, `most` and what is left allow. Takes no memory.
    fn read(&mut self, into: &mut [u8]) -> Got
        requires { 0 < length into.old }
        ensures read { Reads (Some self.old.left) (Some self.new.left) result into.new }
        ensures failed { result ≡ Got.Failed → Rose self.old.faults self.new.faults }
        ensures never_falls { self.old.faults ≤ self.new.faults }
        // Which answer comes, and what the source is then.
        ensures exactly { result ≡ read_answer self.old (length into.old) }
        ensures after { self.new ≡ after_read self.old result }
    {
        self.calls = self.calls.saturating_add(1);
        if is_listed(self.fails.as_slice(), self.calls) {
            self.faults = self.faults.saturating_add(1);
            return Got::Failed;
        }
        let left = &self.bytes[self.at..];
        if left.is_empty() {
            return Got::End;
        }
        let count = into.len().min(self.most).min(left.len());
        into[..count].copy_from_slice(&left[..count]);
        self.at += count;
        Got::Bytes(count)
    }
}
