ghost use Rattle.std.specs.Prelude.{◌≡◌, ◌++◌, OnOk};
ghost use Rattle.plank_report.specs.Verdicts.{kind_word, is_of_whole_text, method_name, obligation_text, verdict_text};

use crate::pieces::{append, append_place, append_three};
use plank_base::{Kind, Obligation, OutOfMemory};
use plank_judge::Verdict;
use plank_prog::Method;
use std::alloc::Global;

/// The word of an obligation's kind.
pub fn kind_word(kind: Kind) -> &'static [u8]
    ensures { result.now ≡ kind_word kind }
{
    match kind {
        Kind::Start => b"start",
        Kind::Edges => b"edges",
        Kind::Null => b"null",
        Kind::Target => b"target",
        Kind::Publish => b"publish",
        Kind::Keep => b"keep",
        Kind::Order => b"order",
        Kind::Footprint => b"footprint",
        Kind::Change => b"change",
        Kind::Answer => b"answer",
    }
}

/// Whether an obligation of this kind stands for the whole text, and so has no place.
fn is_of_whole_text(kind: Kind) -> bool
    ensures { result ≡ is_of_whole_text kind }
{
    matches!(kind, Kind::Start | Kind::Edges)
}

// The name of a method by its number.
fn method_name(methods: &[Method], method: u32) -> &[u8]
    ensures { result.now ≡ method_name methods.now method }
{
    match methods.get(method as usize) {
        Some(method) => method.name.as_bytes(),
        None => &[],
    }
}

/// Adds an obligation as the last line of a report names it.
pub fn append_obligation(
    alloc: Global,
    out: &mut Vec<u8>,
    methods: &[Method],
    obligation: Obligation,
) -> Result<(), OutOfMemory>
    ensures { OnOk result (out.new.items ≡ out.old.items ++ obligation_text methods.now obligation) }
{
    append(out, kind_word(obligation.kind))?;
    if is_of_whole_text(obligation.kind) {
        return Ok(());
    }
    let method = method_name(methods, obligation.method);
    append_three(out, b" in ", method, b" at ")?;
    append_place(alloc, out, obligation.place)
}

/// Adds what the last line of a report says.
pub fn append_verdict(
    alloc: Global,
    out: &mut Vec<u8>,
    methods: &[Method],
    verdict: Verdict,
) -> Result<(), OutOfMemory>
    ensures { OnOk result (out.new.items ≡ out.old.items ++ verdict_text methods.now verdict) }
{
    match verdict {
        Verdict::Accepted => append(out, b"accepted"),
        Verdict::Rejected(obligation) => {
            append(out, b"rejected ")?;
            append_obligation(alloc, out, methods, obligation)
        }
    }
}
