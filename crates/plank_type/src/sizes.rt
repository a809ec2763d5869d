ghost use Rattle.std.specs.Prelude.{◌≡◌};
ghost use Rattle.plank_type.specs.Limits.{told};
ghost use Rattle.plank_type.specs.Statements.{statement_part, body_part, else_part, statements_size, statements_entry};

use crate::exits::Exits;
use plank_ast::{Body, Else, Statement};

/// How many locations a statement has, as far as 32 bits tell it.
#[cycle(sizes)]
pub(crate) fn statement_size(statement: &Statement) -> u32
    ensures { result ≡ told (statement_part statement.now).size }
{
    match statement {
        Statement::Assign { .. } => 1,
        Statement::Atomic { otherwise, .. } => else_size(otherwise).saturating_add(1),
        Statement::Lock { .. } => 1,
        Statement::Unlock { .. } => 1,
        Statement::If {
            body,
            otherwise,
            ..
        } => body_size(body)
            .saturating_add(else_size(otherwise))
            .saturating_add(1),
        Statement::While { body, .. } => body_size(body).saturating_add(1),
        Statement::Loop { body, .. } => body_size(body),
        Statement::Break(_) => 0,
        Statement::Continue(_) => 0,
        Statement::Return { .. } => 1,
    }
}

#[cycle(sizes)]
pub(crate) fn else_size(otherwise: &Else) -> u32
    ensures { result ≡ told (else_part otherwise.now).size }
{
    match otherwise {
        Else::Nothing => 0,
        Else::Body { body, .. } => body_size(body),
    }
}

#[cycle(sizes)]
pub(crate) fn body_size(body: &Body) -> u32
    ensures { result ≡ told (body_part body.now).size }
{
    let mut size: u32 = 0;
    for statement in body.statements.as_slice() {
        size = size.saturating_add(statement_size(statement));
    }
    size
}

/// How many locations statements have, as far as 32 bits tell it.
pub(crate) fn statements_size(statements: &[Statement]) -> u32
    ensures { result ≡ told (statements_size statements.now) }
{
    let mut size: u32 = 0;
    for statement in statements {
        size = size.saturating_add(statement_size(statement));
    }
    size
}

/// The location where a statement that stands at a location is entered.
fn statement_entry(statement: &Statement, at: u32, exits: Exits) -> u32
    ensures { result ≡ (statement_part statement.now).entry at exits }
{
    match statement {
        Statement::Assign { .. } => at,
        Statement::Atomic { .. } => at,
        Statement::Lock { .. } => at,
        Statement::Unlock { .. } => at,
        Statement::If { .. } => at,
        Statement::While { .. } => at,
        Statement::Loop { .. } => at,
        Statement::Break(_) => exits.of_break,
        Statement::Continue(_) => exits.of_continue,
        Statement::Return { .. } => at,
    }
}

/// The location where statements that stand at a location are entered.
pub(crate) fn statements_entry(statements: &[Statement], at: u32, exits: Exits) -> u32
    ensures { result ≡ statements_entry statements.now at exits }
{
    match statements {
        [] => exits.next,
        [first, ..] => statement_entry(first, at, exits),
    }
}

pub(crate) fn body_entry(body: &Body, at: u32, exits: Exits) -> u32
    ensures { result ≡ (body_part body.now).entry at exits }
{
    statements_entry(body.statements.as_slice(), at, exits)
}

pub(crate) fn else_entry(otherwise: &Else, at: u32, exits: Exits) -> u32
    ensures { result ≡ (else_part otherwise.now).entry at exits }
{
    match otherwise {
        Else::Nothing => exits.next,
        Else::Body { body, .. } => body_entry(body, at, exits),
    }
}
