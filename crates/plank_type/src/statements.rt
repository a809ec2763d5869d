ghost use Rattle.std.specs.Prelude.{◌≡◌, ◌≤◌, ◌+◌, ◌++◌, ◌∷◌, [], OnOk};
ghost use Rattle.plank_prog.specs.declared.methods.Action.TheVariants as action;
ghost use Rattle.plank_type.specs.Statements.{exit_within, tests_block, statement_part, body_part, else_part, statements_size, statements_locations};

use crate::exits::{Exits, exit_within};
use crate::operands::reference_of;
use crate::sizes::{body_entry, body_size, else_entry, statement_size, statements_entry};
use crate::steps::{Setting, assignment, atomic_block, free_lock, take_lock, tests_block};
use plank_ast::{Body, Else, Statement, Tests};
use plank_base::{OutOfMemory, Place};
use plank_prog::{Action, Location};

fn add_location(out: &mut Vec<Location>, place: Place, action: Action) -> Result<(), OutOfMemory>
    ensures { OnOk result (out.new.items ≡ out.old.items ++ (record { place = place; action = action }) ∷ []) }
{
    out.push(Location { place, action })?;
    Ok(())
}

/// Adds the locations of statements that stand at a location.
#[cycle(statements)]
pub(crate) fn add_statements(
    out: &mut Vec<Location>,
    statements: &[Statement],
    setting: Setting<'_>,
    at: u32,
    exits: Exits,
) -> Result<(), OutOfMemory>
    requires room { at + statements_size statements.now ≤ setting.locations }
    ensures { OnOk result (out.new.items ≡ out.old.items
        ++ statements_locations statements.now setting.entry.names.now setting.entry.variables.now setting.entry.locations at exits) }
{
    let mut at = at;
    for (i, statement) in statements.iter().enumerate() {
        let after = at + statement_size(statement);
        let next = statements_entry(&statements[i + 1..], after, exits);
        add_statement(out, statement, setting, at, exits.before(next))?;
        at = after;
    }
    Ok(())
}

#[cycle(statements)]
fn add_body(
    out: &mut Vec<Location>,
    body: &Body,
    setting: Setting<'_>,
    at: u32,
    exits: Exits,
) -> Result<(), OutOfMemory>
    requires room { at + (body_part body.now).size ≤ setting.locations }
    ensures { OnOk result (out.new.items ≡ out.old.items
        ++ (body_part body.now).locations setting.entry.names.now setting.entry.variables.now setting.entry.locations at exits) }
{
    add_statements(out, body.statements.as_slice(), setting, at, exits)
}

#[cycle(statements)]
fn add_else(
    out: &mut Vec<Location>,
    otherwise: &Else,
    setting: Setting<'_>,
    at: u32,
    exits: Exits,
) -> Result<(), OutOfMemory>
    requires room { at + (else_part otherwise.now).size ≤ setting.locations }
    ensures { OnOk result (out.new.items ≡ out.old.items
        ++ (else_part otherwise.now).locations setting.entry.names.now setting.entry.variables.now setting.entry.locations at exits) }
{
    match otherwise {
        Else::Nothing => Ok(()),
        Else::Body { body, .. } => add_body(out, body, setting, at, exits),
    }
}

/// Adds the location of the tests of an `if` or a `while`.
fn add_tests(
    out: &mut Vec<Location>,
    place: Place,
    tests: &Tests,
    setting: Setting<'_>,
    yes: u32,
    no: u32,
) -> Result<(), OutOfMemory>
    ensures { OnOk result (out.new.items ≡ out.old.items ++ (record {
      place = place;
      action = action.Block (tests_block setting.entry.names.now setting.entry.variables.now tests.now yes no);
    }) ∷ []) }
{
    let block = tests_block(setting, tests, yes, no)?;
    add_location(out, place, Action::Block(block))
}

#[cycle(statements)]
fn add_statement(
    out: &mut Vec<Location>,
    statement: &Statement,
    setting: Setting<'_>,
    at: u32,
    exits: Exits,
) -> Result<(), OutOfMemory>
    requires room { at + (statement_part statement.now).size ≤ setting.locations }
    ensures { OnOk result (out.new.items ≡ out.old.items
        ++ (statement_part statement.now).locations setting.entry.names.now setting.entry.variables.now setting.entry.locations at exits) }
{
    let next = exit_within(setting.locations, at, exits.next);
    match statement {
        Statement::Assign { variable, value } => {
            let action = assignment(setting, &variable.label, value, next)?;
            add_location(out, variable.place, action)
        }
        Statement::Atomic {
            place,
            block,
            otherwise,
        } => {
            let no = exit_within(setting.locations, at, else_entry(otherwise, at + 1, exits));
            let block = atomic_block(setting, block, next, no)?;
            add_location(out, *place, Action::Block(block))?;
            add_else(out, otherwise, setting, at + 1, exits)
        }
        Statement::Lock { place, node } => {
            let node = reference_of(setting.variables, node);
            let block = take_lock(setting, node, next, at)?;
            add_location(out, *place, Action::Block(block))
        }
        Statement::Unlock { place, node } => {
            let node = reference_of(setting.variables, node);
            let block = free_lock(setting, node, next, next)?;
            add_location(out, *place, Action::Block(block))
        }
        Statement::If {
            place,
            tests,
            body,
            otherwise,
        } => {
            let after = at + 1 + body_size(body);
            let yes = exit_within(setting.locations, at, body_entry(body, at + 1, exits));
            let no = exit_within(setting.locations, at, else_entry(otherwise, after, exits));
            add_tests(out, *place, tests, setting, yes, no)?;
            add_body(out, body, setting, at + 1, exits)?;
            add_else(out, otherwise, setting, after, exits)
        }
        Statement::While { place, tests, body } => {
            let inner = exits.of_loop_body(at);
            let yes = exit_within(setting.locations, at, body_entry(body, at + 1, inner));
            add_tests(out, *place, tests, setting, yes, next)?;
            add_body(out, body, setting, at + 1, inner)
        }
        Statement::Loop { body, .. } => add_body(out, body, setting, at, exits.of_loop_body(at)),
        Statement::Break(_) => Ok(()),
        Statement::Continue(_) => Ok(()),
        Statement::Return { place, answer } => {
            add_location(out, *place, Action::Return(answer.value))
        }
    }
}
