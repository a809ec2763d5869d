ghost use Rattle.std.specs.Prelude.{◌≡◌, ◌+◌, ◌++◌, OnOk, IfOk};
ghost use Rattle.std.specs.Fmt.{decimal};
ghost use Rattle.plank_report.specs.Reports.{site_line, site_lines, method_effect_lines, effect_lines, effects_from, head_lines, effects_text, report_text};

use crate::names::Names;
use crate::pieces::{append, append_place, append_three};
use crate::verdicts::append_verdict;
use plank_base::OutOfMemory;
use plank_fact::Fact;
use plank_judge::{Effect, Verdict};
use plank_prog::{Location, Method, Program};
use std::alloc::Global;

// Adds how many there are of what is in memory.
fn append_count(alloc: Global, out: &mut Vec<u8>, n: usize) -> Result<(), OutOfMemory>
    ensures { OnOk result (out.new.items ≡ out.old.items ++ decimal n) }
{
    let digits = n.to_string(alloc)?;
    append(out, digits.as_bytes())
}

impl<'a> Names<'a> {
    fn append_site(
        &self,
        alloc: Global,
        out: &mut Vec<u8>,
        number: usize,
        location: &Location,
    ) -> Result<(), OutOfMemory>
        ensures { OnOk result (out.new.items
            ≡ out.old.items ++ site_line number self.now.method.now location.now) }
    {
        append(out, b"effect ")?;
        append_count(alloc, out, number)?;
        append_three(out, b" ", self.method.name.as_bytes(), b" ")?;
        append_place(alloc, out, location.place)?;
        append(out, b"\n")
    }

    // The lines of an effect.
    fn append_effect(
        &self,
        alloc: Global,
        out: &mut Vec<u8>,
        number: usize,
        location: &Location,
        facts: &[Fact],
    ) -> Result<(), OutOfMemory>
        ensures { OnOk result (out.new.items ≡ out.old.items
            ++ site_lines self.now.header.now number self.now.method.now location.now facts.now) }
    {
        self.append_site(alloc, out, number, location)?;
        self.append_action(out, &location.action)?;
        self.append_facts(out, facts)
    }
}

fn append_in_method(
    alloc: Global,
    out: &mut Vec<u8>,
    names: &Names<'_>,
    number: usize,
    effect: &Effect,
) -> Result<(), OutOfMemory>
    ensures { OnOk result (out.new.items ≡ out.old.items
        ++ method_effect_lines names.now.header.now number effect.now names.now.method.now) }
{
    match names.method.locations.get(effect.location as usize) {
        Some(location) => {
            names.append_effect(alloc, out, number, location, effect.facts.as_slice())
        }
        None => Ok(()),
    }
}

fn append_effect(
    alloc: Global,
    out: &mut Vec<u8>,
    program: &Program,
    number: usize,
    effect: &Effect,
) -> Result<(), OutOfMemory>
    ensures { OnOk result (out.new.items ≡ out.old.items ++ effect_lines program.now number effect.now) }
{
    match program.methods.get(effect.method as usize) {
        Some(method) => {
            let header = &program.header;
            append_in_method(alloc, out, &Names { header, method }, number, effect)
        }
        None => Ok(()),
    }
}

fn append_effects(
    alloc: Global,
    out: &mut Vec<u8>,
    program: &Program,
    effects: &[Effect],
) -> Result<(), OutOfMemory>
    ensures { OnOk result (out.new.items ≡ out.old.items ++ effects_from program.now 1 effects.now) }
{
    for (i, effect) in effects.iter().enumerate() {
        append_effect(alloc, out, program, i + 1, effect)?;
    }
    Ok(())
}

fn append_head(
    alloc: Global,
    out: &mut Vec<u8>,
    structure: &[u8],
    effects: usize,
) -> Result<(), OutOfMemory>
    ensures { OnOk result (out.new.items ≡ out.old.items ++ head_lines structure.now effects) }
{
    append_three(out, b"structure ", structure, b"\neffects ")?;
    append_count(alloc, out, effects)?;
    append(out, b"\n")
}

/// The report on the effects of a program, without its last line.
pub fn report_effects(
    alloc: Global,
    program: &Program,
    effects: &[Effect],
) -> Result<Vec<u8>, OutOfMemory>
    ensures { IfOk result (λ out. out.items ≡ effects_text program.now effects.now) }
{
    let mut out = Vec::new(alloc);
    append_head(alloc, &mut out, program.name.as_bytes(), effects.len())?;
    append_effects(alloc, &mut out, program, effects)?;
    Ok(out)
}

/// The whole report on a program: its effects, and the verdict.
pub fn report(
    alloc: Global,
    program: &Program,
    effects: &[Effect],
    verdict: Verdict,
) -> Result<Vec<u8>, OutOfMemory>
    ensures { IfOk result (λ out. out.items ≡ report_text program.now effects.now verdict) }
{
    let mut out = report_effects(alloc, program, effects)?;
    append_verdict(alloc, &mut out, program.methods.as_slice(), verdict)?;
    append(&mut out, b"\n")?;
    Ok(out)
}
