//! The parts of a line.
ghost use Rattle.std.specs.Prelude.{◌≡◌, ◌≤◌, ◌==◌, ◌++◌, ◌∷◌, true, length, MatchOption};
ghost use Rattle.std.specs.List.{position_or_len};
ghost use Rattle.plank_trace.specs.Schedules.{lacks};
ghost use Rattle.plank_trace.specs.Cuts.{AreBehind, AreParts};

/// The parts of a line, as far as the blanks between them tell.
pub(crate) enum Parts<'a> {
    /// One part before the word `go`.
    Go {
        thread: &'a [u8],
    },
    /// One part before the word `call`, and two behind it.
    Call {
        thread: &'a [u8],
        method: &'a [u8],
        key: &'a [u8],
    },
    /// The line is of neither form.
    Other,
}

// How many bytes stand before the first of this value.
fn before(bytes: &[u8], byte: u8) -> usize
    ensures place { result ≡ position_or_len (λ b. b == byte) bytes.now }
    ensures within { result ≤ length bytes.now }
{
    let mut end = 0;
    while end < bytes.len() && bytes[end] != byte {
        end += 1;
    }
    end
}

/// What stands before the first byte of this value, and what stands behind it.
pub(crate) fn cut_at(bytes: &[u8], byte: u8) -> Option<(&[u8], &[u8])>
    ensures { MatchOption result (lacks byte bytes.now ≡ true)
        (λ cut. (bytes.now ≡ cut.0.now ++ byte ∷ cut.1.now) × (lacks byte cut.0.now ≡ true)) }
{
    let end = before(bytes, byte);
    if end == bytes.len() {
        return None;
    }
    Some((&bytes[..end], &bytes[end + 1..]))
}

// The parts of a line behind its first.
fn parts_behind<'a>(thread: &'a [u8], bytes: &'a [u8]) -> Parts<'a>
    ensures { AreBehind thread.now bytes.now result }
{
    if bytes == b"go".as_slice() {
        return Parts::Go { thread };
    }
    let Some((word, rest)) = cut_at(bytes, b' ') else {
        return Parts::Other;
    };
    if word != b"call".as_slice() {
        return Parts::Other;
    }
    match cut_at(rest, b' ') {
        Some((method, key)) => Parts::Call {
            thread,
            method,
            key,
        },
        None => Parts::Other,
    }
}

/// The parts of a line.
pub(crate) fn parts_of(bytes: &[u8]) -> Parts<'_>
    ensures { AreParts bytes.now result }
{
    match cut_at(bytes, b' ') {
        Some((thread, rest)) => parts_behind(thread, rest),
        None => Parts::Other,
    }
}
