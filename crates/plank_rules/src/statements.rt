//! The rules on statements, but for those on loops and returns.
ghost use Rattle.std.specs.Prelude.{OnOk};
ghost use Rattle.plank_rules.specs.Faults.{Adds};
ghost use Rattle.plank_rules.specs.StatementRules as spec;

use crate::accesses::{add_name_rules, add_node_rules, add_read_rules};
use crate::block_names::add_bound;
use crate::blocks::add_block_rules;
use crate::findings::Findings;
use crate::method_tests::add_tests_rules;
use crate::names::{Declared, Names};
use crate::occurrences::{Occurrence, add_reuses, push};
use crate::scopes::Scope;
use plank_ast::{Assigned, Body, Else, Name, Reference, Statement};
use plank_base::{OutOfMemory, Place, TypeKind};
use std::alloc::Global;

/// `p = q.f;`, where p is to be another than q.
fn add_read_reuses(
    found: &mut Findings,
    alloc: Global,
    scope: &Scope<'_>,
    variable: &Name,
    node: &Reference,
) -> Result<(), OutOfMemory>
    ensures { OnOk result (Adds found.old found.new
        (spec.read_reuses scope.now variable.now node.now)) }
{
    let mut bound = Names::new(alloc);
    add_bound(&mut bound, scope, variable)?;
    let mut names = Vec::new(alloc);
    push(&mut names, Occurrence::of_name(variable))?;
    push(&mut names, Occurrence::of_reference(node))?;
    add_reuses(found, alloc, &bound, &names)
}

fn add_assign_rules(
    found: &mut Findings,
    alloc: Global,
    header: &Declared<'_>,
    scope: &Scope<'_>,
    variable: &Name,
    value: &Assigned,
) -> Result<(), OutOfMemory>
    ensures { OnOk result (Adds found.old found.new
        (spec.assign_rules header.now scope.now variable.now value.now)) }
{
    add_name_rules(found, scope, variable);
    match value {
        Assigned::New(_) | Assigned::Null(_) => Ok(()),
        Assigned::Node { node, field: None } => {
            add_node_rules(found, scope, node);
            Ok(())
        }
        Assigned::Node {
            node,
            field: Some(field),
        } => {
            add_read_rules(found, header, scope, node, field);
            add_read_reuses(found, alloc, scope, variable, node)
        }
    }
}

/// `lock` and `unlock`, unknown where the header has no lock.
fn add_lock_rules(
    found: &mut Findings,
    header: &Declared<'_>,
    scope: &Scope<'_>,
    place: Place,
    node: &Reference,
)
    ensures { Adds found.old found.new
        (spec.lock_rules header.now scope.now place node.now) }
{
    found.add_when(!header.has_lock, TypeKind::Unknown, place);
    add_node_rules(found, scope, node)
}

#[cycle(statements)]
fn add_body_rules(
    found: &mut Findings,
    alloc: Global,
    header: &Declared<'_>,
    scope: &Scope<'_>,
    body: &Body,
) -> Result<(), OutOfMemory>
    ensures { OnOk result (Adds found.old found.new
        (spec.body_rules header.now scope.now body.now)) }
{
    for statement in body.statements.as_slice() {
        add_statement_rules(found, alloc, header, scope, statement)?;
    }
    Ok(())
}

#[cycle(statements)]
fn add_else_rules(
    found: &mut Findings,
    alloc: Global,
    header: &Declared<'_>,
    scope: &Scope<'_>,
    otherwise: &Else,
) -> Result<(), OutOfMemory>
    ensures { OnOk result (Adds found.old found.new
        (spec.else_rules header.now scope.now otherwise.now)) }
{
    match otherwise {
        Else::Nothing => Ok(()),
        Else::Body { body, .. } => add_body_rules(found, alloc, header, scope, body),
    }
}

#[cycle(statements)]
pub(crate) fn add_statement_rules(
    found: &mut Findings,
    alloc: Global,
    header: &Declared<'_>,
    scope: &Scope<'_>,
    statement: &Statement,
) -> Result<(), OutOfMemory>
    ensures { OnOk result (Adds found.old found.new
        (spec.statement_rules header.now scope.now statement.now)) }
{
    match statement {
        Statement::Assign { variable, value } => {
            add_assign_rules(found, alloc, header, scope, variable, value)
        }
        Statement::Atomic {
            block,
            otherwise,
            ..
        } => {
            add_block_rules(found, alloc, header, scope, block)?;
            add_else_rules(found, alloc, header, scope, otherwise)
        }
        Statement::Lock { place, node } | Statement::Unlock { place, node } => {
            add_lock_rules(found, header, scope, *place, node);
            Ok(())
        }
        Statement::If {
            tests,
            body,
            otherwise,
            ..
        } => {
            add_tests_rules(found, alloc, header, scope, tests)?;
            add_body_rules(found, alloc, header, scope, body)?;
            add_else_rules(found, alloc, header, scope, otherwise)
        }
        Statement::While { tests, body, .. } => {
            add_tests_rules(found, alloc, header, scope, tests)?;
            add_body_rules(found, alloc, header, scope, body)
        }
        Statement::Loop { body, .. } => add_body_rules(found, alloc, header, scope, body),
        Statement::Break(_) | Statement::Continue(_) | Statement::Return { .. } => Ok(()),
    }
}
