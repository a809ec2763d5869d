ghost use Rattle.std.specs.Prelude.{◌≡◌, ◌++◌, OnOk, IfOk, codes};
ghost use Rattle.std.specs.Fmt.{decimal};
ghost use Rattle.plank_report.specs.Pieces.{place_text, line};
ghost use Rattle.plank_top.specs.Lines.{thing_word, measure_word, type_word, refusal_text};

use crate::status::Status;
use plank_base::{OutOfMemory, Place, Thing, TypeKind};
use plank_report::{append, append_decimal, append_place};
use plank_trace::Measure;
use std::alloc::Global;

/// The word of a thing in the line of a text that has too much of it.
pub fn thing_word(thing: Thing) -> &'static [u8]
    ensures { result.now ≡ thing_word thing }
{
    match thing {
        Thing::Bytes => b"bytes",
        Thing::Nesting => b"nesting",
        Thing::Methods => b"methods",
        Thing::Variables => b"variables",
        Thing::Flags => b"flags",
        Thing::Pointers => b"pointers",
        Thing::Nodes => b"nodes",
        Thing::Locations => b"locations",
        Thing::Sites => b"sites",
        Thing::EffectFacts => b"effect-facts",
    }
}

/// The word of a thing in the line of a schedule that has too much of it.
pub fn measure_word(measure: Measure) -> &'static [u8]
    ensures { result.now ≡ measure_word measure }
{
    match measure {
        Measure::Steps => b"steps",
        Measure::Keys => b"keys",
    }
}

/// The word of a broken typing rule.
pub fn type_word(kind: TypeKind) -> &'static [u8]
    ensures { result.now ≡ type_word kind }
{
    match kind {
        TypeKind::Unknown => b"unknown",
        TypeKind::Twice => b"twice",
        TypeKind::WrongKind => b"wrong-kind",
        TypeKind::BindReused => b"bind-reused",
        TypeKind::NoReturn => b"no-return",
        TypeKind::NotOneRoot => b"not-one-root",
    }
}

fn append_too_large(
    alloc: Global,
    out: &mut Vec<u8>,
    thing: &[u8],
    count: u32,
    limit: u32,
) -> Result<(), OutOfMemory>
    ensures { OnOk result (out.new.items ≡ out.old.items ++ codes "too large " ++ thing.now ++ codes " " ++ decimal count ++ codes " " ++ decimal limit) }
{
    append(out, b"too large ")?;
    append(out, thing)?;
    append(out, b" ")?;
    append_decimal(alloc, out, count)?;
    append(out, b" ")?;
    append_decimal(alloc, out, limit)
}

fn append_ill_typed(
    alloc: Global,
    out: &mut Vec<u8>,
    kind: TypeKind,
    place: Place,
) -> Result<(), OutOfMemory>
    ensures { OnOk result (out.new.items ≡ out.old.items ++ codes "ill-typed " ++ type_word kind ++ codes " at " ++ place_text place) }
{
    append(out, b"ill-typed ")?;
    append(out, type_word(kind))?;
    append(out, b" at ")?;
    append_place(alloc, out, place)
}

fn append_malformed(alloc: Global, out: &mut Vec<u8>, place: Place) -> Result<(), OutOfMemory>
    ensures { OnOk result (out.new.items ≡ out.old.items ++ codes "malformed at " ++ place_text place) }
{
    append(out, b"malformed at ")?;
    append_place(alloc, out, place)
}

fn append_bad_schedule(alloc: Global, out: &mut Vec<u8>, line: u32) -> Result<(), OutOfMemory>
    ensures { OnOk result (out.new.items ≡ out.old.items ++ codes "bad schedule " ++ decimal line) }
{
    append(out, b"bad schedule ")?;
    append_decimal(alloc, out, line)
}

fn append_bad_step(alloc: Global, out: &mut Vec<u8>, step: u32) -> Result<(), OutOfMemory>
    ensures { OnOk result (out.new.items ≡ out.old.items ++ codes "bad step " ++ decimal step) }
{
    append(out, b"bad step ")?;
    append_decimal(alloc, out, step)
}

/// Writes the line of a refusal without its line feed.
fn append_refusal(alloc: Global, out: &mut Vec<u8>, status: Status) -> Result<(), OutOfMemory>
    ensures { OnOk result (out.new.items ≡ out.old.items ++ refusal_text status) }
{
    match status {
        Status::Malformed(place) => append_malformed(alloc, out, place),
        Status::IllTyped(kind, place) => append_ill_typed(alloc, out, kind, place),
        Status::TooLarge(thing, count, limit) => {
            append_too_large(alloc, out, thing_word(thing), count, limit)
        }
        Status::TooLong(measure, count, limit) => {
            append_too_large(alloc, out, measure_word(measure), count, limit)
        }
        Status::BadSchedule(i) => append_bad_schedule(alloc, out, i),
        Status::BadStep(i) => append_bad_step(alloc, out, i),
        Status::Usage => append(out, b"usage fault"),
        _ => Ok(()),
    }
}

/// The line of a refusal, with its line feed.
pub fn refusal_line(alloc: Global, status: Status) -> Result<Vec<u8>, OutOfMemory>
    ensures { IfOk result (λ out. out.items ≡ line (refusal_text status)) }
{
    let mut out = Vec::new(alloc);
    append_refusal(alloc, &mut out, status)?;
    append(&mut out, b"\n")?;
    Ok(out)
}
