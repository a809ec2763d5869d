//! The rules on the parts of a block.
ghost use Rattle.std.specs.Prelude.{◌≡◌, IfOk, OnOk, map};
ghost use Rattle.std.specs.List.{flat_map};
ghost use Rattle.plank_rules.specs.Faults.{Adds};
ghost use Rattle.plank_rules.specs.StatementRules as spec;

use crate::accesses::{access_meaning, add_name_rules, add_node_rules, add_read_rules};
use crate::block_names::{block_names, bound_by, push_with};
use crate::findings::Findings;
use crate::meanings::{
    FieldMeaning, NodeMeaning, add_misplaced, add_unknown_field_name, add_unknown_reference,
};
use crate::method_tests::{add_test_rules, push_head};
use crate::names::Declared;
use crate::occurrences::{
    Occurrence, add_others_than_first, add_repeats, add_reuses, push, reference_place,
};
use crate::scopes::Scope;
use plank_ast::{Bind, Block, Reference, TestLine, With, Write, Written};
use plank_base::{OutOfMemory, Place, TypeKind};
use std::alloc::Global;

fn add_each_node(found: &mut Findings, scope: &Scope<'_>, references: &[Reference])
    ensures { Adds found.old found.new
        (flat_map (spec.node_rules scope.now) references.now) }
{
    for reference in references {
        add_node_rules(found, scope, reference);
    }
}

fn add_with_rules(
    found: &mut Findings,
    alloc: Global,
    scope: &Scope<'_>,
    with: &With,
) -> Result<(), OutOfMemory>
    ensures { OnOk result (Adds found.old found.new (spec.with_rules scope.now with.now)) }
{
    add_node_rules(found, scope, &with.first);
    add_each_node(found, scope, with.others.as_slice());
    let mut names = Vec::new(alloc);
    push_with(&mut names, with)?;
    add_repeats(found, alloc, &names)
}

fn add_optional_with(
    found: &mut Findings,
    alloc: Global,
    scope: &Scope<'_>,
    with: &Option<With>,
) -> Result<(), OutOfMemory>
    ensures { OnOk result (Adds found.old found.new
        (spec.optional_with_rules scope.now with.now)) }
{
    match with {
        None => Ok(()),
        Some(with) => add_with_rules(found, alloc, scope, with),
    }
}

fn add_test_lines(
    found: &mut Findings,
    header: &Declared<'_>,
    scope: &Scope<'_>,
    lines: &[TestLine],
)
    ensures { Adds found.old found.new
        (flat_map (spec.test_line_rules header.now scope.now) lines.now) }
{
    for line in lines {
        add_test_rules(found, header, scope, &line.test);
    }
}

fn add_binds(found: &mut Findings, header: &Declared<'_>, scope: &Scope<'_>, binds: &[Bind])
    ensures { Adds found.old found.new
        (flat_map (spec.bind_rules header.now scope.now) binds.now) }
{
    for bind in binds {
        add_name_rules(found, scope, &bind.variable);
        add_read_rules(found, header, scope, &bind.node, &bind.field);
    }
}

/// A node where a flag is needed.
fn add_no_truth(found: &mut Findings, node: NodeMeaning, place: Place)
    ensures { Adds found.old found.new (spec.no_truth node place) }
{
    match node {
        NodeMeaning::Unknown => found.add(TypeKind::Unknown, place),
        _ => found.add(TypeKind::WrongKind, place),
    }
}

/// What is written to a flag.
fn add_flag_value(found: &mut Findings, scope: &Scope<'_>, value: &Written)
    ensures { Adds found.old found.new
        (spec.flag_value_rules scope.now value.now) }
{
    match value {
        Written::Flag(_) => {}
        Written::Null(place) => found.add(TypeKind::WrongKind, *place),
        Written::Node(node) => {
            add_no_truth(found, scope.reference_meaning(node), reference_place(node))
        }
    }
}

/// What is written to a pointer.
fn add_pointer_value(found: &mut Findings, scope: &Scope<'_>, value: &Written)
    ensures { Adds found.old found.new
        (spec.pointer_value_rules scope.now value.now) }
{
    match value {
        Written::Flag(truth) => found.add(TypeKind::WrongKind, truth.place),
        Written::Null(_) => {}
        Written::Node(node) => add_node_rules(found, scope, node),
    }
}

/// What is written to a field that is unknown.
fn add_any_value(found: &mut Findings, scope: &Scope<'_>, value: &Written)
    ensures { Adds found.old found.new
        (spec.any_value_rules scope.now value.now) }
{
    match value {
        Written::Flag(_) | Written::Null(_) => {}
        Written::Node(node) => add_unknown_reference(found, scope, node),
    }
}

fn add_written(found: &mut Findings, scope: &Scope<'_>, field: FieldMeaning, value: &Written)
    ensures { Adds found.old found.new
        (spec.written_rules scope.now field value.now) }
{
    match field {
        FieldMeaning::Flag => add_flag_value(found, scope, value),
        FieldMeaning::Pointer => add_pointer_value(found, scope, value),
        FieldMeaning::Unknown | FieldMeaning::Key => add_any_value(found, scope, value),
    }
}

fn add_write(found: &mut Findings, header: &Declared<'_>, scope: &Scope<'_>, write: &Write)
    ensures { Adds found.old found.new
        (spec.write_rules header.now scope.now write.now) }
{
    add_unknown_reference(found, scope, &write.node);
    add_unknown_field_name(found, header, &write.field);
    let meaning = access_meaning(header, scope, &write.node, &write.field);
    add_misplaced(found, meaning, reference_place(&write.node));
    add_written(
        found,
        scope,
        header.label_meaning(&write.field),
        &write.value,
    )
}

fn add_each_write(found: &mut Findings, header: &Declared<'_>, scope: &Scope<'_>, writes: &[Write])
    ensures { Adds found.old found.new
        (flat_map (spec.write_rules header.now scope.now) writes.now) }
{
    for write in writes {
        add_write(found, header, scope, write);
    }
}

/// The names that are written to, unless one is unknown or its field is.
fn write_heads<'a>(
    alloc: Global,
    header: &Declared<'_>,
    scope: &Scope<'_>,
    writes: &'a [Write],
) -> Result<Vec<Occurrence<'a>>, OutOfMemory>
    ensures { IfOk result (λ heads. heads.items
        ≡ flat_map (spec.write_heads header.now scope.now) writes.now) }
{
    let mut heads = Vec::new(alloc);
    for write in writes {
        let meaning = access_meaning(header, scope, &write.node, &write.field);
        push_head(&mut heads, meaning, &write.node)?;
    }
    Ok(heads)
}

fn written_fields<'a>(
    alloc: Global,
    writes: &'a [Write],
) -> Result<Vec<Occurrence<'a>>, OutOfMemory>
    ensures { IfOk result (λ fields. fields.items ≡ map spec.written_field writes.now) }
{
    let mut fields = Vec::new(alloc);
    for write in writes {
        push(&mut fields, Occurrence::of_name(&write.field))?;
    }
    Ok(fields)
}

/// The writes of a block: each by itself, to one name, and to a field once.
fn add_writes(
    found: &mut Findings,
    alloc: Global,
    header: &Declared<'_>,
    scope: &Scope<'_>,
    writes: &[Write],
) -> Result<(), OutOfMemory>
    ensures { OnOk result (Adds found.old found.new
        (spec.writes_rules header.now scope.now writes.now)) }
{
    add_each_write(found, header, scope, writes);
    let heads = write_heads(alloc, header, scope, writes)?;
    add_others_than_first(found, &heads);
    let fields = written_fields(alloc, writes)?;
    add_repeats(found, alloc, &fields)
}

fn add_block_reuses(
    found: &mut Findings,
    alloc: Global,
    scope: &Scope<'_>,
    block: &Block,
) -> Result<(), OutOfMemory>
    ensures { OnOk result (Adds found.old found.new (spec.block_reuses scope.now block.now)) }
{
    let bound = bound_by(alloc, scope, block.binds.as_slice())?;
    let names = block_names(alloc, block)?;
    add_reuses(found, alloc, &bound, &names)
}

pub(crate) fn add_block_rules(
    found: &mut Findings,
    alloc: Global,
    header: &Declared<'_>,
    scope: &Scope<'_>,
    block: &Block,
) -> Result<(), OutOfMemory>
    ensures { OnOk result (Adds found.old found.new
        (spec.block_rules header.now scope.now block.now)) }
{
    add_optional_with(found, alloc, scope, &block.with)?;
    add_test_lines(found, header, scope, block.tests.as_slice());
    add_binds(found, header, scope, block.binds.as_slice());
    add_writes(found, alloc, header, scope, block.writes.as_slice())?;
    add_block_reuses(found, alloc, scope, block)
}
