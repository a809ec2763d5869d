ghost use Rattle.std.specs.Prelude.{◌≡◌, ◌++◌, OnOk, IfOk};
ghost use Rattle.std.specs.Fmt.{decimal};
ghost use Rattle.plank_large.specs.Summaries.{counts_text, summary_text};

use plank_base::OutOfMemory;
use plank_judge::{Effect, Verdict};
use plank_marks::locations_before;
use plank_prog::Program;
use plank_report::{append, append_decimal, append_verdict};
use std::alloc::Global;

// Adds how many there are of what is in memory.
fn append_count(alloc: Global, out: &mut Vec<u8>, n: usize) -> Result<(), OutOfMemory>
    ensures { OnOk result (out.new.items ≡ out.old.items ++ decimal n) }
{
    let digits = n.to_string(alloc)?;
    append(out, digits.as_bytes())
}

fn append_counts(
    alloc: Global,
    out: &mut Vec<u8>,
    program: &Program,
    effects: &[Effect],
) -> Result<(), OutOfMemory>
    ensures { OnOk result (out.new.items ≡ out.old.items ++ counts_text program.now effects.now) }
{
    let methods = program.methods.len();
    let locations = locations_before(program, methods as u32);
    append(out, b"methods ")?;
    append_count(alloc, out, methods)?;
    append(out, b" locations ")?;
    append_decimal(alloc, out, locations)?;
    append(out, b" effects ")?;
    append_count(alloc, out, effects.len())
}

/// The summary of what is said of the large text of so many methods: how many methods, locations and effects
/// its program has, and the verdict.
pub fn summary(
    alloc: Global,
    methods: u32,
    program: &Program,
    effects: &[Effect],
    verdict: Verdict,
) -> Result<Vec<u8>, OutOfMemory>
    ensures { IfOk result (λ out. out.items ≡ summary_text methods program.now effects.now verdict) }
{
    let mut out = Vec::new(alloc);
    append(&mut out, b"large ")?;
    append_decimal(alloc, &mut out, methods)?;
    append(&mut out, b"\n")?;
    append_counts(alloc, &mut out, program, effects)?;
    append(&mut out, b"\n")?;
    append_verdict(alloc, &mut out, program.methods.as_slice(), verdict)?;
    append(&mut out, b"\n")?;
    Ok(out)
}
