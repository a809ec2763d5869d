//! Every rule that a text breaks, part by part.
ghost use Rattle.std.specs.Prelude.{◌≡◌, ◌++◌, IfOk, OnOk, map};
ghost use Rattle.std.specs.List.{flat_map};
ghost use Rattle.plank_rules.specs.Faults.{Adds};
ghost use Rattle.plank_rules.specs.FirstOf.{first_of};
ghost use Rattle.plank_rules.specs.Headers.{flag_occurrence, pointer_occurrence, start_occurrence, start_rules};
ghost use Rattle.plank_rules.specs.MethodRules.{method_rules};
ghost use Rattle.plank_rules.specs.BrokenRules as spec;

use crate::broken::Broken;
use crate::findings::Findings;
use crate::headers::{
    add_edges_rules, add_holds_rules, add_keeps_rules, add_optional_freeze, add_roots_rules,
    add_start_rules,
};
use crate::method_rules::add_method_rules;
use crate::names::{Declared, Names};
use crate::occurrences::{Occurrence, add_repeats, distinct_names, push};
use plank_ast::{FlagLine, Method, PointerLine, StartLine, Text};
use plank_base::OutOfMemory;
use std::alloc::Global;

fn push_flags<'a>(names: &mut Vec<Occurrence<'a>>, flags: &'a [FlagLine]) -> Result<(), OutOfMemory>
    ensures { OnOk result (names.new.items ≡ names.old.items ++ map flag_occurrence flags.now) }
{
    for flag in flags {
        push(names, Occurrence::of_name(&flag.name))?;
    }
    Ok(())
}

fn push_pointers<'a>(
    names: &mut Vec<Occurrence<'a>>,
    pointers: &'a [PointerLine],
) -> Result<(), OutOfMemory>
    ensures { OnOk result (names.new.items ≡ names.old.items
        ++ map pointer_occurrence pointers.now) }
{
    for pointer in pointers {
        push(names, Occurrence::of_name(&pointer.name))?;
    }
    Ok(())
}

fn start_names<'a>(
    alloc: Global,
    starts: &'a [StartLine],
) -> Result<Vec<Occurrence<'a>>, OutOfMemory>
    ensures { IfOk result (λ names. names.items ≡ map start_occurrence starts.now) }
{
    let mut names = Vec::new(alloc);
    for start in starts {
        push(&mut names, Occurrence::of_name(&start.name))?;
    }
    Ok(names)
}

fn push_methods<'a>(
    names: &mut Vec<Occurrence<'a>>,
    methods: &'a [Method],
) -> Result<(), OutOfMemory>
    ensures { OnOk result (names.new.items ≡ names.old.items
        ++ map spec.method_occurrence methods.now) }
{
    for method in methods {
        push(names, Occurrence::of_name(&method.name))?;
    }
    Ok(())
}

/// The names that the header of a text declares, each once.
#[tactic(auto, unfolding(crate::specs::BrokenRules::declared_by))]
pub(crate) fn declared_by(alloc: Global, text: &Text) -> Result<Declared<'_>, OutOfMemory>
    ensures { IfOk result (λ header. header ≡ spec.declared_by text.now) }
{
    let mut flags = Vec::new(alloc);
    push_flags(&mut flags, text.flags.as_slice())?;
    let mut pointers = Vec::new(alloc);
    push_pointers(&mut pointers, text.pointers.as_slice())?;
    let nodes = start_names(alloc, text.starts.as_slice())?;
    Ok(Declared {
        flags: distinct_names(alloc, &flags)?,
        pointers: distinct_names(alloc, &pointers)?,
        nodes: distinct_names(alloc, &nodes)?,
        has_lock: text.lock.is_some(),
    })
}

/// A field that is declared twice.
#[tactic(auto, unfolding(crate::specs::BrokenRules::field_repeats))]
fn add_field_repeats(found: &mut Findings, alloc: Global, text: &Text) -> Result<(), OutOfMemory>
    ensures { OnOk result (Adds found.old found.new (spec.field_repeats text.now)) }
{
    let mut fields = Vec::new(alloc);
    push_flags(&mut fields, text.flags.as_slice())?;
    push_pointers(&mut fields, text.pointers.as_slice())?;
    add_repeats(found, alloc, &fields)
}

fn add_each_start(
    found: &mut Findings,
    alloc: Global,
    header: &Declared<'_>,
    starts: &Names<'_>,
    lines: &[StartLine],
) -> Result<(), OutOfMemory>
    ensures { OnOk result (Adds found.old found.new
        (flat_map (start_rules header.now starts.now) lines.now)) }
{
    for line in lines {
        add_start_rules(found, alloc, header, starts, line)?;
    }
    Ok(())
}

#[tactic(auto, unfolding(crate::specs::BrokenRules::start_node_rules))]
fn add_start_node_rules(
    found: &mut Findings,
    alloc: Global,
    header: &Declared<'_>,
    text: &Text,
) -> Result<(), OutOfMemory>
    ensures { OnOk result (Adds found.old found.new
        (spec.start_node_rules header.now text.now)) }
{
    let names = start_names(alloc, text.starts.as_slice())?;
    add_roots_rules(found, &header.nodes, text.place, text.roots.as_slice());
    add_each_start(found, alloc, header, &header.nodes, text.starts.as_slice())?;
    add_repeats(found, alloc, &names)
}

#[tactic(auto, unfolding(crate::specs::BrokenRules::condition_line_rules))]
fn add_condition_line_rules(
    found: &mut Findings,
    alloc: Global,
    header: &Declared<'_>,
    text: &Text,
) -> Result<(), OutOfMemory>
    ensures { OnOk result (Adds found.old found.new
        (spec.condition_line_rules header.now text.now)) }
{
    add_edges_rules(found, alloc, header, text.edges.as_slice())?;
    add_holds_rules(found, alloc, header, &text.holds)?;
    add_keeps_rules(found, alloc, header, text.keeps.as_slice())?;
    add_optional_freeze(found, alloc, header, &text.freeze)
}

fn add_each_method(
    found: &mut Findings,
    alloc: Global,
    header: &Declared<'_>,
    methods: &[Method],
) -> Result<(), OutOfMemory>
    ensures { OnOk result (Adds found.old found.new
        (flat_map (method_rules header.now) methods.now)) }
{
    for method in methods {
        add_method_rules(found, alloc, header, method)?;
    }
    Ok(())
}

#[tactic(auto, unfolding(crate::specs::BrokenRules::methods_rules))]
fn add_methods_rules(
    found: &mut Findings,
    alloc: Global,
    header: &Declared<'_>,
    text: &Text,
) -> Result<(), OutOfMemory>
    ensures { OnOk result (Adds found.old found.new
        (spec.methods_rules header.now text.now)) }
{
    let mut names = Vec::new(alloc);
    push(&mut names, Occurrence::of_name(&text.methods.first.name))?;
    push_methods(&mut names, text.methods.others.as_slice())?;
    add_repeats(found, alloc, &names)?;
    add_method_rules(found, alloc, header, &text.methods.first)?;
    add_each_method(found, alloc, header, text.methods.others.as_slice())
}

#[tactic(auto, unfolding(crate::specs::BrokenRules::broken_rules))]
fn add_text_rules(
    found: &mut Findings,
    alloc: Global,
    header: &Declared<'_>,
    text: &Text,
) -> Result<(), OutOfMemory>
    requires { header.now ≡ spec.declared_by text.now }
    ensures { OnOk result (Adds found.old found.new (spec.broken_rules text.now)) }
{
    add_field_repeats(found, alloc, text)?;
    add_start_node_rules(found, alloc, header, text)?;
    add_condition_line_rules(found, alloc, header, text)?;
    add_methods_rules(found, alloc, header, text)
}

/// The first rule of typing that a text breaks, by its place and at one place by its kind; none where
/// the text is well typed. The names are those that [`declared_by`] gives of the text.
pub(crate) fn first_broken(
    alloc: Global,
    header: &Declared<'_>,
    text: &Text,
) -> Result<Option<Broken>, OutOfMemory>
    requires { header.now ≡ spec.declared_by text.now }
    ensures { IfOk result (λ first. first ≡ first_of (spec.broken_rules text.now)) }
{
    let mut found = Findings::new();
    add_text_rules(&mut found, alloc, header, text)?;
    Ok(found.first)
}
