//! Calls of `top` over memory: what it answers, and what it writes.
ghost use Rattle.std.specs.Prelude.{◌≤◌};

use plank_base::OutOfMemory;
use plank_io::{Gate, MemSink, MemSource, OpenGate};
use plank_top::{Status, top};
use std::alloc::Global;
use std::marker::Sync;
use std::thread::Threads;

/// A structure of one node whose one method answers false.
pub(crate) const ONE: &[u8] =
    b"structure one;\nroot a;\nstart a { key = MIN; }\nholds false;\nmethod contains(k) { return false; }\n";

/// A sorted list from a sentinel to a sentinel, with one method that walks it.
pub(crate) const ENDS: &[u8] =
    b"structure ends;\nptr next asc;\nroot head;\nstart head { key = MIN; next = tail; }\nstart tail { key = MAX; }\nedge next : x.key < j;\nholds x.key == j;\nkeep linked : x.key == MAX || x.next != null;\nmethod contains(k) {\n  var p, c;\n  p = root;\n  c = p.next;\n  while (c.key < k) {\n    p = c;\n    c = p.next;\n  }\n  if (c.key == k) { return true; } else { return false; }\n}\n";

/// How the outside behaves: the most bytes that a call moves, and the calls that fail.
#[derive(Clone, Copy)]
pub(crate) struct Outside<'a> {
    pub(crate) read_most: usize,
    pub(crate) read_fails: &'a [u32],
    pub(crate) write_most: usize,
    pub(crate) write_fails: &'a [u32],
    ghost reads: { 1 ≤ read_most },
    ghost writes: { 1 ≤ write_most },
}

pub(crate) const PLAIN: Outside<'static> = Outside {
    read_most: 4096,
    read_fails: &[],
    write_most: 4096,
    write_fails: &[],
};

/// What the call answers to the words and the text, where the workers pass this gate, and what it writes.
pub(crate) fn called_by<R: Threads + Sync, G: Gate>(
    rt: &R,
    alloc: Global,
    words: &[&str],
    text: &[u8],
    outside: &Outside<'_>,
    gate: &G,
) -> Result<(Status, Vec<u8>), OutOfMemory> {
    let mut owned = Vec::new(alloc);
    for word in words {
        owned.push(String::from_str(alloc, word)?)?;
    }
    let mut source = MemSource::new(alloc, text, outside.read_most, outside.read_fails)?;
    let mut sink = MemSink::new(alloc, 32_768, outside.write_most, outside.write_fails)?;
    let status = top(rt, alloc, &owned, &mut source, &mut sink, gate);
    let taken = Vec::from_slice(alloc, sink.taken())?;
    Ok((status, taken))
}

/// What the call answers to the words and the text, and what it writes.
pub(crate) fn called<R: Threads + Sync>(
    rt: &R,
    alloc: Global,
    words: &[&str],
    text: &[u8],
    outside: &Outside<'_>,
) -> Result<(Status, Vec<u8>), OutOfMemory> {
    called_by(rt, alloc, words, text, outside, &OpenGate)
}

/// The status with which the call ends.
pub(crate) fn status_of<R: Threads + Sync>(
    rt: &R,
    alloc: Global,
    words: &[&str],
    text: &[u8],
) -> Result<Status, OutOfMemory> {
    let (status, _) = called(rt, alloc, words, text, &PLAIN)?;
    Ok(status)
}

/// Whether the call writes this.
pub(crate) fn writes<R: Threads + Sync>(
    rt: &R,
    alloc: Global,
    words: &[&str],
    text: &[u8],
    output: &[u8],
) -> Result<bool, OutOfMemory> {
    let (_, taken) = called(rt, alloc, words, text, &PLAIN)?;
    Ok(taken.as_slice() == output)
}

/// A text, and what is written of it.
pub(crate) type Case = (&'static [u8], &'static [u8]);

/// The place of the first text of which the call writes something else.
pub(crate) fn first_wrong<R: Threads + Sync>(
    rt: &R,
    alloc: Global,
    words: &[&str],
    cases: &[Case],
) -> Result<Option<usize>, OutOfMemory> {
    for (i, case) in cases.iter().enumerate() {
        let (text, output) = *case;
        if !writes(rt, alloc, words, text, output)? {
            return Ok(Some(i));
        }
    }
    Ok(None)
}

/// Whether the report on the text begins so and ends so.
pub(crate) fn reports<R: Threads + Sync>(
    rt: &R,
    alloc: Global,
    text: &[u8],
    first: &[u8],
    last: &[u8],
) -> Result<bool, OutOfMemory> {
    let (_, taken) = called(rt, alloc, &["verify"], text, &PLAIN)?;
    let report = taken.as_slice();
    Ok(report.starts_with(first) && report.ends_with(last))
}

/// Whether the call answers this status and writes this.
pub(crate) fn answers<R: Threads + Sync>(
    rt: &R,
    alloc: Global,
    words: &[&str],
    text: &[u8],
    status: Status,
    output: &[u8],
) -> Result<bool, OutOfMemory> {
    let (ended, taken) = called(rt, alloc, words, text, &PLAIN)?;
    Ok(ended == status && taken.as_slice() == output)
}
