//! The rules on the lines of a header.
ghost use Rattle.std.specs.Prelude.{◌≡◌, IfOk, OnOk, map};
ghost use Rattle.std.specs.List.{flat_map};
ghost use Rattle.plank_rules.specs.Faults.{Adds};
ghost use Rattle.plank_rules.specs.Headers as spec;

use crate::conditions::add_condition_rules;
use crate::findings::Findings;
use crate::meanings::{FieldMeaning, add_unknown_field_name};
use crate::names::{Declared, Names};
use crate::occurrences::{Occurrence, add_repeats, push};
use crate::scopes::{Scope, Setting};
use plank_ast::{ConditionLine, Name, NamedCondition, RootLine, StartItem, StartLine, StartValue};
use plank_base::{OutOfMemory, Place, TypeKind};
use std::alloc::Global;

/// What names mean in a condition of the header: `x` is the node and `j` the walked key.
fn header_scope(alloc: Global, setting: Setting) -> Result<Scope<'static>, OutOfMemory>
    ensures { IfOk result (λ scope. scope ≡ spec.header_scope setting) }
{
    let mut nodes = Names::new(alloc);
    nodes.add(b"x".as_slice())?;
    let mut keys = Names::new(alloc);
    keys.add(b"j".as_slice())?;
    Ok(Scope {
        setting,
        nodes,
        keys,
    })
}

fn add_unknown_start(found: &mut Findings, starts: &Names<'_>, name: &Name)
    ensures { Adds found.old found.new
        (spec.unknown_start starts.now name.now) }
{
    let is_unknown = !starts.contains(name.label.as_bytes());
    found.add_when(is_unknown, TypeKind::Unknown, name.place)
}

fn add_second_roots(found: &mut Findings, roots: &[RootLine])
    ensures { Adds found.old found.new (flat_map spec.second_root roots.now) }
{
    for root in roots {
        found.add(TypeKind::NotOneRoot, root.name.place);
    }
}

/// No root, at `structure`, or more than one.
fn add_one_root(found: &mut Findings, structure: Place, roots: &[RootLine])
    ensures { Adds found.old found.new (spec.one_root structure roots.now) }
{
    match roots {
        [] => found.add(TypeKind::NotOneRoot, structure),
        [_, rest @ ..] => add_second_roots(found, rest),
    }
}

fn add_unknown_roots(found: &mut Findings, starts: &Names<'_>, roots: &[RootLine])
    ensures { Adds found.old found.new
        (flat_map (spec.root_rules starts.now) roots.now) }
{
    for root in roots {
        add_unknown_start(found, starts, &root.name);
    }
}

pub(crate) fn add_roots_rules(
    found: &mut Findings,
    starts: &Names<'_>,
    structure: Place,
    roots: &[RootLine],
)
    ensures { Adds found.old found.new
        (spec.roots_rules starts.now structure roots.now) }
{
    add_one_root(found, structure, roots);
    add_unknown_roots(found, starts, roots)
}

/// A start node where a flag's value is needed.
fn add_no_start(found: &mut Findings, starts: &Names<'_>, name: &Name)
    ensures { Adds found.old found.new (spec.no_start starts.now name.now) }
{
    if starts.contains(name.label.as_bytes()) {
        found.add(TypeKind::WrongKind, name.place)
    } else {
        found.add(TypeKind::Unknown, name.place)
    }
}

fn add_flag_item(found: &mut Findings, starts: &Names<'_>, value: &StartValue)
    ensures { Adds found.old found.new
        (spec.flag_item_rules starts.now value.now) }
{
    match value {
        StartValue::Flag(_) => {}
        StartValue::Null(place) => found.add(TypeKind::WrongKind, *place),
        StartValue::Node(name) => add_no_start(found, starts, name),
    }
}

fn add_pointer_item(found: &mut Findings, starts: &Names<'_>, value: &StartValue)
    ensures { Adds found.old found.new
        (spec.pointer_item_rules starts.now value.now) }
{
    match value {
        StartValue::Flag(truth) => found.add(TypeKind::WrongKind, truth.place),
        StartValue::Null(_) => {}
        StartValue::Node(name) => add_unknown_start(found, starts, name),
    }
}

/// The value of a field that is unknown.
fn add_any_item(found: &mut Findings, starts: &Names<'_>, value: &StartValue)
    ensures { Adds found.old found.new
        (spec.any_item_rules starts.now value.now) }
{
    match value {
        StartValue::Flag(_) | StartValue::Null(_) => {}
        StartValue::Node(name) => add_unknown_start(found, starts, name),
    }
}

fn add_value_rules(
    found: &mut Findings,
    starts: &Names<'_>,
    field: FieldMeaning,
    value: &StartValue,
)
    ensures { Adds found.old found.new
        (spec.value_rules starts.now field value.now) }
{
    match field {
        FieldMeaning::Flag => add_flag_item(found, starts, value),
        FieldMeaning::Pointer => add_pointer_item(found, starts, value),
        FieldMeaning::Unknown | FieldMeaning::Key => add_any_item(found, starts, value),
    }
}

fn add_items(found: &mut Findings, header: &Declared<'_>, starts: &Names<'_>, items: &[StartItem])
    ensures { Adds found.old found.new
        (flat_map (spec.item_rules header.now starts.now) items.now) }
{
    for item in items {
        add_unknown_field_name(found, header, &item.field);
        add_value_rules(
            found,
            starts,
            header.label_meaning(&item.field),
            &item.value,
        );
    }
}

fn item_fields<'a>(
    alloc: Global,
    items: &'a [StartItem],
) -> Result<Vec<Occurrence<'a>>, OutOfMemory>
    ensures { IfOk result (λ fields. fields.items ≡ map spec.item_occurrence items.now) }
{
    let mut fields = Vec::new(alloc);
    for item in items {
        push(&mut fields, Occurrence::of_name(&item.field))?;
    }
    Ok(fields)
}

pub(crate) fn add_start_rules(
    found: &mut Findings,
    alloc: Global,
    header: &Declared<'_>,
    starts: &Names<'_>,
    line: &StartLine,
) -> Result<(), OutOfMemory>
    ensures { OnOk result (Adds found.old found.new
        (spec.start_rules header.now starts.now line.now)) }
{
    add_items(found, header, starts, line.items.as_slice());
    let fields = item_fields(alloc, line.items.as_slice())?;
    add_repeats(found, alloc, &fields)
}

/// A name where a pointer is needed.
fn add_pointer_rules(found: &mut Findings, field: FieldMeaning, place: Place)
    ensures { Adds found.old found.new (spec.pointer_rules field place) }
{
    match field {
        FieldMeaning::Unknown => found.add(TypeKind::Unknown, place),
        FieldMeaning::Pointer => {}
        FieldMeaning::Flag | FieldMeaning::Key => found.add(TypeKind::WrongKind, place),
    }
}

fn add_each_edge(
    found: &mut Findings,
    header: &Declared<'_>,
    scope: &Scope<'_>,
    edges: &[NamedCondition],
)
    ensures { Adds found.old found.new
        (flat_map (spec.edge_rules header.now scope.now) edges.now) }
{
    for edge in edges {
        add_pointer_rules(found, header.label_meaning(&edge.name), edge.name.place);
        add_condition_rules(found, header, scope, &edge.condition);
    }
}

fn named_conditions<'a>(
    alloc: Global,
    lines: &'a [NamedCondition],
) -> Result<Vec<Occurrence<'a>>, OutOfMemory>
    ensures { IfOk result (λ names. names.items ≡ map spec.named_occurrence lines.now) }
{
    let mut names = Vec::new(alloc);
    for line in lines {
        push(&mut names, Occurrence::of_name(&line.name))?;
    }
    Ok(names)
}

pub(crate) fn add_edges_rules(
    found: &mut Findings,
    alloc: Global,
    header: &Declared<'_>,
    edges: &[NamedCondition],
) -> Result<(), OutOfMemory>
    ensures { OnOk result (Adds found.old found.new
        (spec.edges_rules header.now edges.now)) }
{
    let scope = header_scope(alloc, Setting::Edge)?;
    add_each_edge(found, header, &scope, edges);
    let names = named_conditions(alloc, edges)?;
    add_repeats(found, alloc, &names)
}

pub(crate) fn add_holds_rules(
    found: &mut Findings,
    alloc: Global,
    header: &Declared<'_>,
    line: &ConditionLine,
) -> Result<(), OutOfMemory>
    ensures { OnOk result (Adds found.old found.new
        (spec.holds_rules header.now line.now)) }
{
    let scope = header_scope(alloc, Setting::Holds)?;
    add_condition_rules(found, header, &scope, &line.condition);
    Ok(())
}

fn add_each_keep(
    found: &mut Findings,
    header: &Declared<'_>,
    scope: &Scope<'_>,
    keeps: &[NamedCondition],
)
    ensures { Adds found.old found.new
        (flat_map (spec.keep_rules header.now scope.now) keeps.now) }
{
    for keep in keeps {
        add_condition_rules(found, header, scope, &keep.condition);
    }
}

pub(crate) fn add_keeps_rules(
    found: &mut Findings,
    alloc: Global,
    header: &Declared<'_>,
    keeps: &[NamedCondition],
) -> Result<(), OutOfMemory>
    ensures { OnOk result (Adds found.old found.new
        (spec.keeps_rules header.now keeps.now)) }
{
    let scope = header_scope(alloc, Setting::Keep)?;
    add_each_keep(found, header, &scope, keeps);
    let names = named_conditions(alloc, keeps)?;
    add_repeats(found, alloc, &names)
}

fn add_freeze_rules(
    found: &mut Findings,
    alloc: Global,
    header: &Declared<'_>,
    line: &ConditionLine,
) -> Result<(), OutOfMemory>
    ensures { OnOk result (Adds found.old found.new
        (spec.freeze_rules header.now line.now)) }
{
    let scope = header_scope(alloc, Setting::Freeze)?;
    add_condition_rules(found, header, &scope, &line.condition);
    Ok(())
}

pub(crate) fn add_optional_freeze(
    found: &mut Findings,
    alloc: Global,
    header: &Declared<'_>,
    freeze: &Option<ConditionLine>,
) -> Result<(), OutOfMemory>
    ensures { OnOk result (Adds found.old found.new
        (spec.optional_freeze_rules header.now freeze.now)) }
{
    match freeze {
        None => Ok(()),
        Some(line) => add_freeze_rules(found, alloc, header, line),
    }
}
