//! Reading one line of a schedule.
ghost use Rattle.std.specs.Prelude.{◌≡◌, ◌≤◌, ◌<◌, ℕ, ℤ, ◌↔◌, length, IfOk, IsTrue, Some};
ghost use Rattle.std.specs.Fmt.{decimal, signed_decimal};
ghost use Rattle.std.specs.Int.RustNames.{FitsSigned};
ghost use mir.Syntax.{w64};
ghost use Rattle.plank_lex.specs.Spelling.{is_name};
ghost use Rattle.plank_trace.specs.Schedules.{thread_text, line_text, IsThread, IsLine, IsRead};
ghost use Rattle.plank_trace.specs.Cuts.{BeginsNamed, IsGoRead, IsCallRead};

use crate::lines::{Line, THREADS};
use crate::parts::{Parts, parts_of};
use plank_base::{BYTES_LIMIT, Label, OutOfMemory, ThreadId};
use plank_lex::{LexFault, Token, lex, tokens_are_those_of_parts};
use std::alloc::Global;

// The number that the text is, if it is one.
fn number_in(text: &str) -> Option<u8>
    ensures { (n : ℕ) → n < 64 → text.now ≡ decimal n → result ≡ Some n }
{
    match text.parse::<u8>() {
        Ok(number) => Some(number),
        Err(_) => None,
    }
}

// The number that the bytes may be: the one that is written so, if one is.
fn parsed_thread(bytes: &[u8]) -> Option<u8>
    ensures { (n : ℕ) → n < 64 → bytes.now ≡ decimal n → result ≡ Some n }
{
    match str::from_utf8(bytes) {
        Ok(text) => number_in(text),
        Err(_) => None,
    }
}

// The thread that is written so.
fn thread_of(alloc: Global, bytes: &[u8]) -> Result<Option<ThreadId>, OutOfMemory>
    ensures { IfOk result (IsRead IsThread thread_text bytes.now) }
{
    let Some(number) = parsed_thread(bytes) else {
        return Ok(None);
    };
    let digits = number.to_string(alloc)?;
    if (number as u32) < THREADS && digits.as_bytes() == bytes {
        return Ok(Some(ThreadId(number as u32)));
    }
    Ok(None)
}

// The key that the text is, if it is one.
fn key_in(text: &str) -> Option<i64>
    ensures { (k : ℤ) → FitsSigned w64 k → text.now ≡ signed_decimal k → result ≡ Some k }
{
    match text.parse::<i64>() {
        Ok(key) => Some(key),
        Err(_) => None,
    }
}

// The key that the bytes may be: the one that is written so, if one is.
fn parsed_key(bytes: &[u8]) -> Option<i64>
    ensures { (k : ℤ) → FitsSigned w64 k → bytes.now ≡ signed_decimal k → result ≡ Some k }
{
    match str::from_utf8(bytes) {
        Ok(text) => key_in(text),
        Err(_) => None,
    }
}

// The key that is written so.
fn key_of(alloc: Global, bytes: &[u8]) -> Result<Option<i64>, OutOfMemory>
    ensures { IfOk result (IsRead (FitsSigned w64) signed_decimal bytes.now) }
{
    let Some(key) = parsed_key(bytes) else {
        return Ok(None);
    };
    let digits = key.to_string(alloc)?;
    if digits.as_bytes() == bytes {
        return Ok(Some(key));
    }
    Ok(None)
}

// Whether the first token is a name of these bytes.
fn begins_named(tokens: &[Token], bytes: &[u8]) -> bool
    ensures { IsTrue result ↔ BeginsNamed tokens.now bytes.now }
{
    match tokens {
        [first, ..] => match first.kind.as_name() {
            Some(label) => label.as_bytes() == bytes,
            None => false,
        },
        [] => false,
    }
}

// Whether the bytes are a name.
fn is_name(alloc: Global, bytes: &[u8]) -> Result<bool, OutOfMemory>
    requires { length bytes.now ≤ BYTES_LIMIT }
    ensures { IfOk result (λ yes. yes ≡ is_name bytes.now) }
{
    tokens_are_those_of_parts();
    match lex(alloc, bytes) {
        Ok(tokens) => Ok(begins_named(tokens.as_slice(), bytes)),
        Err(LexFault::BadByte(_)) => Ok(false),
        Err(LexFault::OutOfMemory) => Err(OutOfMemory),
    }
}

// The line of a call with these parts.
fn call_of(
    alloc: Global,
    thread: &[u8],
    method: &[u8],
    key: &[u8],
) -> Result<Option<Line>, OutOfMemory>
    requires { length method.now ≤ BYTES_LIMIT }
    ensures { IfOk result (IsCallRead thread.now method.now key.now) }
{
    let Some(thread) = thread_of(alloc, thread)? else {
        return Ok(None);
    };
    let Some(key) = key_of(alloc, key)? else {
        return Ok(None);
    };
    if !is_name(alloc, method)? {
        return Ok(None);
    }
    let method = Label::new(alloc, method)?;
    Ok(Some(Line::Call {
        thread,
        method,
        key,
    }))
}

// The line of a step of this thread.
fn go_of(alloc: Global, thread: &[u8]) -> Result<Option<Line>, OutOfMemory>
    ensures { IfOk result (IsGoRead thread.now) }
{
    match thread_of(alloc, thread)? {
        Some(thread) => Ok(Some(Line::Go { thread })),
        None => Ok(None),
    }
}

/// The line that is written so, if one is.
pub(crate) fn line_of(alloc: Global, bytes: &[u8]) -> Result<Option<Line>, OutOfMemory>
    requires { length bytes.now ≤ BYTES_LIMIT }
    ensures { IfOk result (IsRead IsLine line_text bytes.now) }
{
    match parts_of(bytes) {
        Parts::Go { thread } => go_of(alloc, thread),
        Parts::Call {
            thread,
            method,
            key,
        } => call_of(alloc, thread, method, key),
        Parts::Other => Ok(None),
    }
}
