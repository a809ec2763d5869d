//! The names that occur in a block, and those that it binds.
ghost use Rattle.std.specs.Prelude.{◌≡◌, ◌++◌, IfOk, OnOk, map};
ghost use Rattle.std.specs.List.{flat_map};
ghost use Rattle.plank_rules.specs.Occurrences.{reference_occurrence};
ghost use Rattle.plank_rules.specs.StatementRules as spec;

use crate::names::Names;
use crate::occurrences::{Occurrence, push};
use crate::scopes::Scope;
use plank_ast::{
    AtomEnd, Bind, Block, Name, Operand, Reference, Test, TestLine, With, Write, Written,
};
use plank_base::OutOfMemory;
use std::alloc::Global;

fn push_operand<'a>(
    names: &mut Vec<Occurrence<'a>>,
    operand: &'a Operand,
) -> Result<(), OutOfMemory>
    ensures { OnOk result (names.new.items ≡ names.old.items ++ spec.operand_names operand.now) }
{
    match operand {
        Operand::Node { node, .. } => push(names, Occurrence::of_reference(node)),
        Operand::Min(_) | Operand::Max(_) | Operand::Null(_) => Ok(()),
    }
}

fn push_atom_end<'a>(names: &mut Vec<Occurrence<'a>>, end: &'a AtomEnd) -> Result<(), OutOfMemory>
    ensures { OnOk result (names.new.items ≡ names.old.items ++ spec.atom_end_names end.now) }
{
    match end {
        AtomEnd::Nothing => Ok(()),
        AtomEnd::Compared { operand, .. } => push_operand(names, operand),
        AtomEnd::In { node, .. } => push(names, Occurrence::of_name(node)),
    }
}

fn push_test<'a>(names: &mut Vec<Occurrence<'a>>, test: &'a Test) -> Result<(), OutOfMemory>
    ensures { OnOk result (names.new.items ≡ names.old.items ++ spec.test_names test.now) }
{
    match test {
        Test::Not { node, .. } => push(names, Occurrence::of_reference(node)),
        Test::Atom(atom) => {
            push_operand(names, &atom.operand)?;
            push_atom_end(names, &atom.end)
        }
    }
}

fn push_tests<'a>(names: &mut Vec<Occurrence<'a>>, lines: &'a [TestLine]) -> Result<(), OutOfMemory>
    ensures { OnOk result (names.new.items ≡ names.old.items
        ++ flat_map spec.test_line_names lines.now) }
{
    for line in lines {
        push_test(names, &line.test)?;
    }
    Ok(())
}

fn push_binds<'a>(names: &mut Vec<Occurrence<'a>>, binds: &'a [Bind]) -> Result<(), OutOfMemory>
    ensures { OnOk result (names.new.items ≡ names.old.items
        ++ flat_map spec.bind_names binds.now) }
{
    for bind in binds {
        push(names, Occurrence::of_name(&bind.variable))?;
        push(names, Occurrence::of_reference(&bind.node))?;
    }
    Ok(())
}

fn push_written<'a>(names: &mut Vec<Occurrence<'a>>, value: &'a Written) -> Result<(), OutOfMemory>
    ensures { OnOk result (names.new.items ≡ names.old.items ++ spec.written_names value.now) }
{
    match value {
        Written::Flag(_) | Written::Null(_) => Ok(()),
        Written::Node(node) => push(names, Occurrence::of_reference(node)),
    }
}

fn push_writes<'a>(names: &mut Vec<Occurrence<'a>>, writes: &'a [Write]) -> Result<(), OutOfMemory>
    ensures { OnOk result (names.new.items ≡ names.old.items
        ++ flat_map spec.write_names writes.now) }
{
    for write in writes {
        push(names, Occurrence::of_reference(&write.node))?;
        push_written(names, &write.value)?;
    }
    Ok(())
}

fn push_references<'a>(
    names: &mut Vec<Occurrence<'a>>,
    references: &'a [Reference],
) -> Result<(), OutOfMemory>
    ensures { OnOk result (names.new.items ≡ names.old.items
        ++ map reference_occurrence references.now) }
{
    for reference in references {
        push(names, Occurrence::of_reference(reference))?;
    }
    Ok(())
}

/// The names of a `with`.
pub(crate) fn push_with<'a>(
    names: &mut Vec<Occurrence<'a>>,
    with: &'a With,
) -> Result<(), OutOfMemory>
    ensures { OnOk result (names.new.items ≡ names.old.items
        ++ map reference_occurrence (spec.with_list with.now)) }
{
    push(names, Occurrence::of_reference(&with.first))?;
    push_references(names, with.others.as_slice())
}

fn push_optional_with<'a>(
    names: &mut Vec<Occurrence<'a>>,
    with: &'a Option<With>,
) -> Result<(), OutOfMemory>
    ensures { OnOk result (names.new.items ≡ names.old.items ++ spec.with_names with.now) }
{
    match with {
        None => Ok(()),
        Some(with) => push_with(names, with),
    }
}

/// The names that occur in a block, in the order of the text.
pub(crate) fn block_names<'a>(
    alloc: Global,
    block: &'a Block,
) -> Result<Vec<Occurrence<'a>>, OutOfMemory>
    ensures { IfOk result (λ names. names.items ≡ spec.block_names block.now) }
{
    let mut names = Vec::new(alloc);
    push_optional_with(&mut names, &block.with)?;
    push_tests(&mut names, block.tests.as_slice())?;
    push_binds(&mut names, block.binds.as_slice())?;
    push_writes(&mut names, block.writes.as_slice())?;
    Ok(names)
}

/// A bound name joins those of a block, if it is a variable.
pub(crate) fn add_bound<'a>(
    bound: &mut Names<'a>,
    scope: &Scope<'_>,
    variable: &'a Name,
) -> Result<(), OutOfMemory>
    ensures { OnOk result (bound.new ≡ spec.with_bound scope.now bound.old variable.now.label) }
{
    let label = variable.label.as_bytes();
    if scope.nodes.contains(label) {
        bound.add(label)?;
    }
    Ok(())
}

/// The variables that a block binds.
pub(crate) fn bound_by<'a>(
    alloc: Global,
    scope: &Scope<'_>,
    binds: &'a [Bind],
) -> Result<Names<'a>, OutOfMemory>
    ensures { IfOk result (λ bound. bound ≡ spec.bound_by scope.now binds.now) }
{
    let mut bound = Names::new(alloc);
    for bind in binds {
        add_bound(&mut bound, scope, &bind.variable)?;
    }
    Ok(bound)
}
