//! The lines of a trace.
ghost use Rattle.std.specs.Prelude.{◌≡◌, ◌++◌, is_none, codes, OnOk};
ghost use Rattle.std.specs.Fmt.{decimal, signed_decimal};
ghost use Rattle.plank_heap.specs.Heaps.{IsClosed};
ghost use Rattle.plank_heap.specs.Walks.{walk_end, contains};
ghost use Rattle.plank_sem.specs.Worlds.{WorldState};
ghost use Rattle.plank_trace.specs.Texts.{stands_at, place_text, optional_place_text, step_head, answer_text, step_text, thread_of, null_text, nodes_text, end_text, walk_head, walk_end_text, walk_text, walks_text};
ghost use Rattle.plank_trace.specs.Paths.{path_of};

use crate::lines::Line;
use crate::paths::path;
use plank_base::{NodeId, OutOfMemory, Place, ThreadId};
use plank_heap::{Heap, WalkEnd, walk_laws};
use plank_hist::Event;
use plank_prog::Program;
use plank_sem::World;
use std::alloc::Global;

fn append(out: &mut Vec<u8>, piece: &[u8]) -> Result<(), OutOfMemory>
    ensures { OnOk result (out.new.items ≡ out.old.items ++ piece.now) }
{
    out.extend_from_slice(piece)?;
    Ok(())
}

fn append_decimal(alloc: Global, out: &mut Vec<u8>, n: u32) -> Result<(), OutOfMemory>
    ensures { OnOk result (out.new.items ≡ out.old.items ++ decimal n) }
{
    let digits = n.to_string(alloc)?;
    append(out, digits.as_bytes())
}

fn append_key(alloc: Global, out: &mut Vec<u8>, key: i64) -> Result<(), OutOfMemory>
    ensures { OnOk result (out.new.items ≡ out.old.items ++ signed_decimal key) }
{
    let digits = key.to_string(alloc)?;
    append(out, digits.as_bytes())
}

fn append_place(alloc: Global, out: &mut Vec<u8>, place: Option<Place>) -> Result<(), OutOfMemory>
    ensures { OnOk result (out.new.items ≡ out.old.items ++ optional_place_text place) }
{
    match place {
        None => Ok(()),
        Some(place) => {
            append_decimal(alloc, out, place.line)?;
            append(out, b":")?;
            append_decimal(alloc, out, place.column)
        }
    }
}

fn append_head(
    alloc: Global,
    out: &mut Vec<u8>,
    n: u32,
    thread: ThreadId,
) -> Result<(), OutOfMemory>
    ensures { OnOk result (out.new.items ≡ out.old.items ++ step_head n thread) }
{
    append_decimal(alloc, out, n)?;
    append(out, b" ")?;
    append_decimal(alloc, out, thread.0)
}

fn answer_words(event: Option<Event>) -> &'static [u8]
    ensures { result.now ≡ answer_text event }
{
    match event {
        Some(Event::Respond { answer: true, .. }) => b" answer true",
        Some(Event::Respond { answer: false, .. }) => b" answer false",
        Some(Event::Invoke { .. }) => b"",
        None => b"",
    }
}

/// The line of a step: its number, the line of the schedule, where its thread stood, and what it told.
pub(crate) fn append_step(
    alloc: Global,
    out: &mut Vec<u8>,
    n: u32,
    line: &Line,
    place: Option<Place>,
    event: Option<Event>,
) -> Result<(), OutOfMemory>
    ensures { OnOk result (out.new.items ≡ out.old.items ++ step_text n line.now place event) }
{
    append_head(alloc, out, n, thread_of(line))?;
    match line {
        Line::Call { method, key, .. } => {
            append(out, b" call ")?;
            append(out, method.as_bytes())?;
            append(out, b" ")?;
            append_key(alloc, out, *key)?;
        }
        Line::Go { .. } => {
            append(out, b" go ")?;
            append_place(alloc, out, place)?;
            append(out, answer_words(event))?;
        }
    }
    append(out, b"\n")
}

/// The thread that a line moves.
pub(crate) fn thread_of(line: &Line) -> ThreadId
    ensures { result ≡ thread_of line.now }
{
    match line {
        Line::Call { thread, .. } => *thread,
        Line::Go { thread } => *thread,
    }
}

/// The line of a step that would read or write a field of null.
pub(crate) fn append_null(
    alloc: Global,
    out: &mut Vec<u8>,
    n: u32,
    line: &Line,
    place: Option<Place>,
) -> Result<(), OutOfMemory>
    ensures { OnOk result (out.new.items ≡ out.old.items ++ null_text n line.now place) }
{
    append_head(alloc, out, n, thread_of(line))?;
    append(out, b" null ")?;
    append_place(alloc, out, place)?;
    append(out, b"\n")
}

fn append_nodes(alloc: Global, out: &mut Vec<u8>, nodes: &[NodeId]) -> Result<(), OutOfMemory>
    ensures { OnOk result (out.new.items ≡ out.old.items ++ nodes_text nodes.now) }
{
    for node in nodes {
        append(out, b" ")?;
        append_decimal(alloc, out, node.0)?;
    }
    Ok(())
}

fn cycles(program: &Program, heap: &Heap, key: i64) -> bool
    requires { IsClosed heap.now }
    ensures { result ≡ is_none (walk_end program.now.header heap.now key) }
{
    walk_laws();
    match heap.walk(program, key) {
        WalkEnd::At(_) => false,
        WalkEnd::Cycles => true,
    }
}

fn end_words(cycles: bool, held: bool) -> &'static [u8]
    ensures { result.now ≡ end_text cycles held }
{
    match (cycles, held) {
        (true, true) => b" cycles in",
        (true, false) => b" cycles out",
        (false, true) => b" in",
        (false, false) => b" out",
    }
}

fn append_walk_head(alloc: Global, out: &mut Vec<u8>, key: i64) -> Result<(), OutOfMemory>
    ensures { OnOk result (out.new.items ≡ out.old.items ++ walk_head key) }
{
    append(out, b"  ")?;
    append_key(alloc, out, key)?;
    append(out, b" walk")
}

fn append_path(
    alloc: Global,
    out: &mut Vec<u8>,
    program: &Program,
    heap: &Heap,
    key: i64,
) -> Result<(), OutOfMemory>
    requires { IsClosed heap.now }
    ensures { OnOk result (out.new.items ≡ out.old.items ++ nodes_text (path_of program.now.header heap.now key)) }
{
    let nodes = path(alloc, program, heap, key)?;
    append_nodes(alloc, out, nodes.as_slice())
}

fn append_walk_end(
    out: &mut Vec<u8>,
    program: &Program,
    heap: &Heap,
    key: i64,
) -> Result<(), OutOfMemory>
    requires { IsClosed heap.now }
    ensures { OnOk result (out.new.items ≡ out.old.items ++ walk_end_text program.now.header heap.now key) }
{
    let cycles = cycles(program, heap, key);
    let held = heap.in_set(program, key);
    append(out, end_words(cycles, held))?;
    append(out, b"\n")
}

fn append_walk(
    alloc: Global,
    out: &mut Vec<u8>,
    program: &Program,
    heap: &Heap,
    key: &i64,
) -> Result<(), OutOfMemory>
    requires { IsClosed heap.now }
    ensures { OnOk result (out.new.items ≡ out.old.items ++ walk_text program.now.header heap.now key.now) }
{
    append_walk_head(alloc, out, *key)?;
    append_path(alloc, out, program, heap, *key)?;
    append_walk_end(out, program, heap, *key)
}

/// The lines of the walks of these keys.
pub(crate) fn append_walks(
    alloc: Global,
    out: &mut Vec<u8>,
    program: &Program,
    heap: &Heap,
    keys: &[i64],
) -> Result<(), OutOfMemory>
    requires { IsClosed heap.now }
    ensures { OnOk result (out.new.items ≡ out.old.items ++ walks_text program.now.header heap.now keys.now) }
{
    for key in keys {
        append_walk(alloc, out, program, heap, key)?;
    }
    Ok(())
}
