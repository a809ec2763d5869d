ghost use Rattle.std.specs.Prelude.{◌≡◌, ◌+◌, ◌≤◌, IfOk, OnErr};
ghost use Rattle.plank_io.specs.Faults.{Rose};
ghost use Rattle.plank_io.specs.Whole.{ReadsUpTo, ConsumesUpTo, WritesAll, IsFailed};

use crate::sinks::{Sink, Took};
use crate::sources::{Got, Source};
use plank_base::OutOfMemory;
use std::alloc::Global;

/// The most bytes that one read asks for.
pub const PIECE_LIMIT: usize = 4_096;

/// How the reading of a source up to a limit ended.
#[derive(Debug, Drop)]
pub enum Reading {
    /// The source came to its end, within the limit: all its bytes.
    Whole(Vec<u8>),
    /// The source went past the limit: its bytes up to the first beyond.
    Over(Vec<u8>),
    /// The source failed before either.
    Failed,
}

/// How the writing of an output ended.
#[derive(Clone, Copy, Debug, PartialEq, Eq)]
pub enum Written {
    /// The sink took all.
    Whole,
    /// The sink failed, when it had taken so many bytes.
    Failed(usize),
}

/// Reads a source to its end, or to the first byte past `most`, in pieces of at most `PIECE_LIMIT`
/// bytes. No read asks for more than is still wanted, so the source never gives more than `most`
/// and one byte.
pub fn read_up_to<S: Source>(
    alloc: Global,
    source: &mut S,
    most: usize,
) -> Result<Reading, OutOfMemory>
    ensures read { IfOk result (ReadsUpTo (S.left source.old) (S.left source.new) most) }
    ensures failed { IfOk result (λ reading. reading ≡ Reading.Failed → Rose (S.faults source.old) (S.faults source.new)) }
    ensures never_falls { S.faults source.old ≤ S.faults source.new }
    ensures out_of_memory { OnErr result (ConsumesUpTo (S.left source.old) (S.left source.new) (most + 1)) }
{
    let mut bytes = Vec::new(alloc);
    let mut piece = [0u8; PIECE_LIMIT];
    while bytes.len() <= most {
        let wanted = (most - bytes.len()).saturating_add(1).min(PIECE_LIMIT);
        match source.read(&mut piece[..wanted]) {
            Got::Bytes(count) => bytes.extend_from_slice(&piece[..count])?,
            Got::End => return Ok(Reading::Whole(bytes)),
            Got::Failed => return Ok(Reading::Failed),
        }
    }
    Ok(Reading::Over(bytes))
}

/// Writes all of an output, in as many writes as the sink asks for. An empty output makes no write.
pub fn write_all<K: Sink>(sink: &mut K, output: &[u8]) -> Written
    ensures written { WritesAll (K.taken sink.old) (K.taken sink.new) output.now result }
    ensures failed { IsFailed result → Rose (K.faults sink.old) (K.faults sink.new) }
    ensures never_falls { K.faults sink.old ≤ K.faults sink.new }
{
    let mut taken = 0;
    while taken < output.len() {
        match sink.write(&output[taken..]) {
            Took::Bytes(count) => taken += count,
            Took::Failed => return Written::Failed(taken),
        }
    }
    Written::Whole
}
