//! The rules on loops: what leads out of one stands in one, and none stands still.
ghost use Rattle.std.specs.Prelude.{◌≡◌};
ghost use Rattle.plank_rules.specs.Faults.{Adds};
ghost use Rattle.plank_rules.specs.Loops as spec;

use crate::findings::Findings;
use plank_ast::{Body, Else, Statement};
use plank_base::TypeKind;

#[cycle(stray)]
fn add_body_stray(found: &mut Findings, body: &Body)
    ensures { Adds found.old found.new (spec.body_stray body.now) }
{
    for statement in body.statements.as_slice() {
        add_stray(found, statement);
    }
}

#[cycle(stray)]
fn add_else_stray(found: &mut Findings, otherwise: &Else)
    ensures { Adds found.old found.new (spec.else_stray otherwise.now) }
{
    match otherwise {
        Else::Nothing => {}
        Else::Body { body, .. } => add_body_stray(found, body),
    }
}

/// `break` and `continue` outside a loop.
#[cycle(stray)]
pub(crate) fn add_stray(found: &mut Findings, statement: &Statement)
    ensures { Adds found.old found.new (spec.stray statement.now) }
{
    match statement {
        Statement::Break(place) | Statement::Continue(place) => {
            found.add(TypeKind::WrongKind, *place)
        }
        Statement::Atomic { otherwise, .. } => add_else_stray(found, otherwise),
        Statement::If {
            body,
            otherwise,
            ..
        } => {
            add_body_stray(found, body);
            add_else_stray(found, otherwise)
        }
        _ => {}
    }
}

fn leaves(statement: &Statement) -> bool
    ensures { result ≡ (spec.still statement.now).leaves }
{
    matches!(statement, Statement::Break(_) | Statement::Continue(_))
}

/// Whether a body is empty or begins with `break` or `continue`.
fn is_still(body: &Body) -> bool
    ensures { result ≡ (spec.body_still body.now).is_still }
{
    match body.statements.as_slice() {
        [] => true,
        [first, ..] => leaves(first),
    }
}

#[cycle(still)]
fn add_still_in_body(found: &mut Findings, body: &Body)
    ensures { Adds found.old found.new (spec.body_still body.now).loops }
{
    for statement in body.statements.as_slice() {
        add_still(found, statement);
    }
}

#[cycle(still)]
fn add_still_in_else(found: &mut Findings, otherwise: &Else)
    ensures { Adds found.old found.new (spec.else_still otherwise.now) }
{
    match otherwise {
        Else::Nothing => {}
        Else::Body { body, .. } => add_still_in_body(found, body),
    }
}

/// A `loop` whose body is empty or begins with `break` or `continue`.
#[cycle(still)]
pub(crate) fn add_still(found: &mut Findings, statement: &Statement)
    ensures { Adds found.old found.new (spec.still statement.now).loops }
{
    match statement {
        Statement::Atomic { otherwise, .. } => add_still_in_else(found, otherwise),
        Statement::If {
            body,
            otherwise,
            ..
        } => {
            add_still_in_body(found, body);
            add_still_in_else(found, otherwise)
        }
        Statement::While { body, .. } => add_still_in_body(found, body),
        Statement::Loop { place, body } => {
            found.add_when(is_still(body), TypeKind::WrongKind, *place);
            add_still_in_body(found, body)
        }
        _ => {}
    }
}
