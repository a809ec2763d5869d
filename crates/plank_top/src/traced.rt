//! The reply to a schedule with a text.
ghost use Rattle.std.specs.Prelude.{◌≡◌, ◌≤◌, length, None, IfOk};
ghost use Rattle.plank_ast.specs.declared.texts.Text.{Text};
ghost use Rattle.plank_type.specs.Checks.{IsProgramOf};
ghost use Rattle.plank_trace.specs.Limits.{first_overrun};
ghost use Rattle.plank_top.specs.Replies.{answer_in};
ghost use Rattle.plank_top.specs.Traced.{IsRunOf, IsScheduledAnswer, IsTraceAnswer};

use crate::replies::{Reply, refuse};
use crate::status::Status;
use crate::trees::{Tree, tree_of};
use plank_ast::Text;
use plank_base::{BYTES_LIMIT, OutOfMemory};
use plank_prog::Program;
use plank_trace::{Line, ScheduleFault, TraceFault, first_overrun, read_schedule};
use plank_type::{TypeFault, check};
use std::alloc::Global;

/// Runs a schedule on a program.
fn run_on(alloc: Global, program: &Program, lines: &[Line]) -> Result<Reply, OutOfMemory>
    requires { length lines.now ≤ 256 }
    ensures { IfOk result (λ r. (t : Text) → IsProgramOf t program.now → IsRunOf lines.now t (answer_in r)) }
{
    match plank_trace::trace(alloc, program, lines) {
        Ok(output) => {
            let status = Status::Done;
            Ok(Reply { status, output })
        }
        Err(TraceFault::BadStep(i)) => refuse(alloc, Status::BadStep(i)),
        Err(TraceFault::OutOfMemory) => Err(OutOfMemory),
    }
}

/// Types a text and runs a schedule on its program.
fn run_text(alloc: Global, text: &Text, lines: &[Line]) -> Result<Reply, OutOfMemory>
    requires { length lines.now ≤ 256 }
    ensures { IfOk result (λ r. IsRunOf lines.now text.now (answer_in r)) }
{
    match check(alloc, text) {
        Ok(program) => {
            let reply = run_on(alloc, &program, lines);
            drop(program);
            reply
        }
        Err(TypeFault::Broken(kind, place)) => refuse(alloc, Status::IllTyped(kind, place)),
        Err(TypeFault::TooMany(thing, count, limit)) => {
            refuse(alloc, Status::TooLarge(thing, count, limit))
        }
        Err(TypeFault::OutOfMemory) => Err(OutOfMemory),
    }
}

/// Reads a text and runs a schedule on it that is within its limits.
fn run_bytes(alloc: Global, bytes: &[u8], lines: &[Line]) -> Result<Reply, OutOfMemory>
    requires bytes { length bytes.now ≤ BYTES_LIMIT }
    requires within { first_overrun lines.now ≡ None }
    ensures { IfOk result (λ r. IsScheduledAnswer lines.now bytes.now (answer_in r)) }
{
    match tree_of(alloc, bytes)? {
        Tree::Text(text) => {
            let reply = run_text(alloc, &text, lines);
            drop(text);
            reply
        }
        Tree::Refused(status) => refuse(alloc, status),
    }
}

/// Runs a schedule on the text behind it, unless it is too long.
fn run_scheduled(alloc: Global, text: &[u8], lines: &[Line]) -> Result<Reply, OutOfMemory>
    requires bytes { length text.now ≤ BYTES_LIMIT }
    requires few { length lines.now ≤ BYTES_LIMIT }
    ensures { IfOk result (λ r. IsScheduledAnswer lines.now text.now (answer_in r)) }
{
    match first_overrun(alloc, lines)? {
        Some(over) => {
            let too_long = Status::TooLong(over.measure, over.count, over.limit);
            refuse(alloc, too_long)
        }
        None => run_bytes(alloc, text, lines),
    }
}

/// Reads a schedule and runs it on the text behind it.
pub fn trace(alloc: Global, bytes: &[u8]) -> Result<Reply, OutOfMemory>
    requires { length bytes.now ≤ BYTES_LIMIT }
    ensures { IfOk result (λ r. IsTraceAnswer bytes.now (answer_in r)) }
{
    match read_schedule(alloc, bytes) {
        Ok(schedule) => {
            let reply = run_scheduled(alloc, schedule.text, schedule.lines.as_slice());
            drop(schedule);
            reply
        }
        Err(ScheduleFault::BadLine(i)) => refuse(alloc, Status::BadSchedule(i)),
        Err(ScheduleFault::OutOfMemory) => Err(OutOfMemory),
    }
}
