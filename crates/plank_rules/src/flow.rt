//! Whether statements can be completed.
ghost use Rattle.std.specs.Prelude.{◌≡◌, map};
ghost use Rattle.plank_rules.specs.Flow as spec;

use plank_ast::{Body, Else, Statement};

/// Whether a part of a method can be completed, and whether it has a `break` of the loop around it.
#[derive(Clone, Copy, Debug, PartialEq, Eq)]
pub(crate) struct Flow {
    pub(crate) completes: bool,
    pub(crate) breaks: bool,
}

impl Flow {
    ghost use Rattle.plank_rules.specs.Flow as spec;

    fn of(completes: bool, breaks: bool) -> Flow
        ensures { result ≡ spec.flow completes breaks }
    {
        Flow { completes, breaks }
    }

    /// What comes after what: both are completed, and either has the `break`.
    fn then(self, next: Flow) -> Flow
        ensures { result ≡ spec.then self next }
    {
        Flow {
            completes: self.completes && next.completes,
            breaks: self.breaks || next.breaks,
        }
    }

    /// One or the other.
    fn or(self, other: Flow) -> Flow
        ensures { result ≡ spec.either self other }
    {
        Flow {
            completes: self.completes || other.completes,
            breaks: self.breaks || other.breaks,
        }
    }
}

#[cycle(flow)]
fn body_flow(body: &Body) -> Flow
    ensures { result ≡ spec.body_flow body.now }
{
    let mut flow = Flow::of(true, false);
    for statement in body.statements.as_slice() {
        flow = flow.then(statement_flow(statement));
    }
    flow
}

#[cycle(flow)]
fn else_flow(otherwise: &Else) -> Flow
    ensures { result ≡ spec.else_flow otherwise.now }
{
    match otherwise {
        Else::Nothing => Flow::of(true, false),
        Else::Body { body, .. } => body_flow(body),
    }
}

#[cycle(flow)]
fn statement_flow(statement: &Statement) -> Flow
    ensures { result ≡ spec.statement_flow statement.now }
{
    match statement {
        Statement::Atomic { otherwise, .. } => Flow::of(true, else_flow(otherwise).breaks),
        Statement::If {
            body,
            otherwise,
            ..
        } => body_flow(body).or(else_flow(otherwise)),
        Statement::Loop { body, .. } => Flow::of(body_flow(body).breaks, false),
        Statement::Break(_) => Flow::of(false, true),
        Statement::Continue(_) | Statement::Return { .. } => Flow::of(false, false),
        _ => Flow::of(true, false),
    }
}

/// Whether statements can be completed: each of them can.
pub(crate) fn can_complete(statements: &[Statement]) -> bool
    ensures { result ≡ (spec.list_flow (map spec.statement_flow statements.now)).completes }
{
    let mut flow = Flow::of(true, false);
    for statement in statements {
        flow = flow.then(statement_flow(statement));
    }
    flow.completes
}
