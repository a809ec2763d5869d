//! The rules on the tests of a method.
ghost use Rattle.std.specs.Prelude.{◌≡◌, ◌++◌, OnOk};
ghost use Rattle.std.specs.List.{flat_map};
ghost use Rattle.plank_rules.specs.Faults.{Adds};
ghost use Rattle.plank_rules.specs.StatementRules as spec;

use crate::accesses::access_meaning;
use crate::atoms::add_atom_rules;
use crate::findings::Findings;
use crate::meanings::{
    Meaning, add_no_flag, add_unknown_field_name, add_unknown_reference, dotted,
};
use crate::names::Declared;
use crate::occurrences::{Occurrence, add_others_than_first, push, reference_place};
use crate::scopes::Scope;
use plank_ast::{AtomEnd, Name, Operand, Reference, Test, Tests};
use plank_base::OutOfMemory;
use std::alloc::Global;

fn add_negation_rules(
    found: &mut Findings,
    header: &Declared<'_>,
    scope: &Scope<'_>,
    node: &Reference,
    field: &Name,
)
    ensures { Adds found.old found.new
        (spec.refusal_rules header.now scope.now node.now field.now) }
{
    add_unknown_reference(found, scope, node);
    add_unknown_field_name(found, header, field);
    let meaning = access_meaning(header, scope, node, field);
    add_no_flag(found, meaning, reference_place(node))
}

pub(crate) fn add_test_rules(
    found: &mut Findings,
    header: &Declared<'_>,
    scope: &Scope<'_>,
    test: &Test,
)
    ensures { Adds found.old found.new
        (spec.test_rules header.now scope.now test.now) }
{
    match test {
        Test::Not { node, field, .. } => add_negation_rules(found, header, scope, node, field),
        Test::Atom(atom) => add_atom_rules(found, header, scope, atom),
    }
}

/// A name before `.`, unless it is unknown or its field is.
pub(crate) fn push_head<'a>(
    heads: &mut Vec<Occurrence<'a>>,
    meaning: Meaning,
    node: &'a Reference,
) -> Result<(), OutOfMemory>
    ensures { OnOk result (heads.new.items ≡ heads.old.items ++ spec.head_of meaning node.now) }
{
    if meaning.is_unknown() {
        return Ok(());
    }
    push(heads, Occurrence::of_reference(node))
}

fn push_operand_heads<'a>(
    heads: &mut Vec<Occurrence<'a>>,
    header: &Declared<'_>,
    scope: &Scope<'_>,
    operand: &'a Operand,
) -> Result<(), OutOfMemory>
    ensures { OnOk result (heads.new.items ≡ heads.old.items
        ++ spec.operand_heads header.now scope.now operand.now) }
{
    match operand {
        Operand::Node {
            node,
            field: Some(field),
        } => {
            let meaning = dotted(
                scope.setting,
                scope.reference_meaning(node),
                header.field_meaning(field),
            );
            push_head(heads, meaning, node)
        }
        _ => Ok(()),
    }
}

fn push_atom_end_heads<'a>(
    heads: &mut Vec<Occurrence<'a>>,
    header: &Declared<'_>,
    scope: &Scope<'_>,
    end: &'a AtomEnd,
) -> Result<(), OutOfMemory>
    ensures { OnOk result (heads.new.items ≡ heads.old.items
        ++ spec.atom_end_heads header.now scope.now end.now) }
{
    match end {
        AtomEnd::Compared { operand, .. } => push_operand_heads(heads, header, scope, operand),
        AtomEnd::Nothing | AtomEnd::In { .. } => Ok(()),
    }
}

/// The names before `.` in a test.
fn push_test_heads<'a>(
    heads: &mut Vec<Occurrence<'a>>,
    header: &Declared<'_>,
    scope: &Scope<'_>,
    test: &'a Test,
) -> Result<(), OutOfMemory>
    ensures { OnOk result (heads.new.items ≡ heads.old.items
        ++ spec.test_heads header.now scope.now test.now) }
{
    match test {
        Test::Not { node, field, .. } => {
            push_head(heads, access_meaning(header, scope, node, field), node)
        }
        Test::Atom(atom) => {
            push_operand_heads(heads, header, scope, &atom.operand)?;
            push_atom_end_heads(heads, header, scope, &atom.end)
        }
    }
}

fn add_each_test(found: &mut Findings, header: &Declared<'_>, scope: &Scope<'_>, tests: &[Test])
    ensures { Adds found.old found.new
        (flat_map (spec.test_rules header.now scope.now) tests.now) }
{
    for test in tests {
        add_test_rules(found, header, scope, test);
    }
}

fn push_each_head<'a>(
    heads: &mut Vec<Occurrence<'a>>,
    header: &Declared<'_>,
    scope: &Scope<'_>,
    tests: &'a [Test],
) -> Result<(), OutOfMemory>
    ensures { OnOk result (heads.new.items ≡ heads.old.items
        ++ flat_map (spec.test_heads header.now scope.now) tests.now) }
{
    for test in tests {
        push_test_heads(heads, header, scope, test)?;
    }
    Ok(())
}

/// The tests of an `if` or a `while`, which read fields of one node.
pub(crate) fn add_tests_rules(
    found: &mut Findings,
    alloc: Global,
    header: &Declared<'_>,
    scope: &Scope<'_>,
    tests: &Tests,
) -> Result<(), OutOfMemory>
    ensures { OnOk result (Adds found.old found.new
        (spec.tests_rules header.now scope.now tests.now)) }
{
    add_test_rules(found, header, scope, &tests.first);
    add_each_test(found, header, scope, tests.others.as_slice());
    let mut heads = Vec::new(alloc);
    push_test_heads(&mut heads, header, scope, &tests.first)?;
    push_each_head(&mut heads, header, scope, tests.others.as_slice())?;
    add_others_than_first(found, &heads);
    Ok(())
}
