//! Schedules, and the text behind one.
ghost use Rattle.std.specs.Prelude.{◌≡◌, ◌≤◌, ℕ, ◌++◌, ◌∷◌, [], length, IfOk, OnOk, Err};
ghost use Rattle.plank_trace.specs.Schedules.{IsSchedule, IsBadSchedule};
ghost use Rattle.plank_trace.specs.Cuts.{IsFrontOf, IsFront};

use crate::lines::Line;
use crate::parts::cut_at;
use crate::reading::line_of;
use plank_base::{BYTES_LIMIT, OutOfMemory};
use std::alloc::Global;
use thiserror::Error;

/// The lines of a schedule, and the text that stands behind its line `text`.
#[derive(Drop)]
pub struct Schedule<'a> {
    pub lines: Vec<Line>,
    pub text: &'a [u8],
}

/// Why there is no schedule.
#[derive(Clone, Copy, Debug, PartialEq, Eq, Error)]
pub enum ScheduleFault {
    /// The line of this number, from 1, is the first that no line of a schedule is written as; or the bytes end
    /// before a line `text`, and it is one more than the whole lines.
    #[error("a line of no schedule")]
    BadLine(u32),
    /// Memory was refused.
    #[error("out of memory")]
    OutOfMemory,
}

// What the bytes of a schedule begin with.
#[derive(Drop)]
enum Front<'a> {
    /// A line, and what stands behind it.
    Line(Line, &'a [u8]),
    /// The line `text`, and the text behind it.
    Text(&'a [u8]),
    /// No line of a schedule.
    Bad,
}

// A line that is whole, and not the line `text`.
fn front_of<'a>(alloc: Global, line: &'a [u8], more: &'a [u8]) -> Result<Front<'a>, OutOfMemory>
    requires { length line.now ≤ BYTES_LIMIT }
    ensures { IfOk result (IsFrontOf line.now more.now) }
{
    if line == b"text".as_slice() {
        return Ok(Front::Text(more));
    }
    match line_of(alloc, line)? {
        Some(line) => Ok(Front::Line(line, more)),
        None => Ok(Front::Bad),
    }
}

fn front_at(alloc: Global, bytes: &[u8]) -> Result<Front<'_>, OutOfMemory>
    requires { length bytes.now ≤ BYTES_LIMIT }
    ensures { IfOk result (IsFront bytes.now) }
{
    match cut_at(bytes, b'\n') {
        Some((line, more)) => front_of(alloc, line, more),
        None => Ok(Front::Bad),
    }
}

fn push(lines: &mut Vec<Line>, line: Line) -> Result<(), OutOfMemory>
    ensures { OnOk result (lines.new.items ≡ lines.old.items ++ line ∷ []) }
{
    lines.push(line)?;
    Ok(())
}

/// Reads a schedule: lines `T call METHOD KEY` and `T go`, each with a line feed, up to the line `text`, and the
/// text behind that. T is a thread from 0 to 63, METHOD a name, KEY a number of 64 bits, each without a zero in
/// front.
pub fn read_schedule(alloc: Global, bytes: &[u8]) -> Result<Schedule<'_>, ScheduleFault>
    requires { length bytes.now ≤ BYTES_LIMIT }
    ensures read { IfOk result (λ s. IsSchedule bytes.now s.lines.items s.text.now) }
    ensures few { IfOk result (λ s. length s.lines.items ≤ length bytes.now) }
    ensures within { IfOk result (λ s. length s.text.now ≤ length bytes.now) }
    ensures bad { (i : ℕ) → result ≡ Err (ScheduleFault.BadLine i) → IsBadSchedule bytes.now i }
{
    let mut lines = Vec::new(alloc);
    let mut rest = bytes;
    loop {
        match front_at(alloc, rest) {
            Ok(Front::Line(line, more)) => {
                let Ok(()) = push(&mut lines, line) else {
                    return Err(ScheduleFault::OutOfMemory);
                };
                rest = more;
            }
            Ok(Front::Text(text)) => return Ok(Schedule { lines, text }),
            Ok(Front::Bad) => return Err(ScheduleFault::BadLine(lines.len() as u32 + 1)),
            Err(OutOfMemory) => return Err(ScheduleFault::OutOfMemory),
        }
    }
}
