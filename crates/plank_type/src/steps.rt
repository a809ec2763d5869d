ghost use Rattle.std.specs.Prelude.{◌≡◌, ◌∷◌, map, IfOk};
ghost use Rattle.plank_type.specs.Operands.{test_of};
ghost use Rattle.plank_prog.specs.declared.methods.Action.TheVariants as action;
ghost use Rattle.plank_type.specs.Statements.{assigned, idle_block, read_block, assignment, atomic_block, tests_block, lock_block, take_lock, free_lock};

use crate::names::{Numbers, VariableNumbers};
use crate::operands::{
    binds_of, push_given, read_of, reference_of, test_of, tests_of_lines, with_of, writes_of,
};
use plank_ast::{Assigned, Block as BlockTree, Reference as ReferenceTree, Tests};
use plank_base::{Label, OutOfMemory};
use plank_prog::{Action, Block, Reference, Test, Value, Write};
use sqlite_items::Items;
use std::alloc::Global;

/// What the statements of a method are read in.
#[derive(Clone, Copy)]
pub(crate) struct Setting<'a> {
    pub alloc: Global,
    pub names: &'a Numbers<'a>,
    pub variables: &'a VariableNumbers<'a>,
    /// How many locations the method has.
    pub locations: u32,
}

// A step that does nothing.
fn idle_block(alloc: Global, yes: u32, no: u32) -> Block
    ensures { result ≡ idle_block yes no }
{
    Block {
        with: Items::new(alloc),
        tests: Items::new(alloc),
        binds: Items::new(alloc),
        writes: Items::new(alloc),
        yes,
        no,
    }
}

fn read_block(
    setting: Setting<'_>,
    variable: &Label,
    node: &ReferenceTree,
    field: &Label,
    next: u32,
) -> Result<Block, OutOfMemory>
    ensures { IfOk result (λ b. b ≡ read_block setting.entry.names.now setting.entry.variables.now variable.now node.now field.now next) }
{
    let alloc = setting.alloc;
    let mut binds = Vec::new(alloc);
    push_given(
        &mut binds,
        read_of(setting.names, setting.variables, variable, node, field),
    )?;
    Ok(Block {
        with: Items::new(alloc),
        tests: Items::new(alloc),
        binds: Items::from_vec(binds),
        writes: Items::new(alloc),
        yes: next,
        no: next,
    })
}

/// The step of an assignment.
pub(crate) fn assignment(
    setting: Setting<'_>,
    variable: &Label,
    value: &Assigned,
    next: u32,
) -> Result<Action, OutOfMemory>
    ensures { IfOk result (λ a. a ≡ assignment setting.entry.names.now setting.entry.variables.now variable.now value.now next) }
{
    let to = setting.variables.number(variable);
    match value {
        Assigned::New(_) => Ok(allocation(setting.alloc, to, next)),
        Assigned::Null(_) => Ok(copy(setting.alloc, to, Value::Null, next)),
        Assigned::Node { node, field: None } => {
            let from = Value::Node(reference_of(setting.variables, node));
            Ok(copy(setting.alloc, to, from, next))
        }
        Assigned::Node {
            node,
            field: Some(field),
        } => Ok(Action::Block(read_block(setting, variable, node, &field.label, next)?)),
    }
}

fn allocation(alloc: Global, to: Option<u8>, next: u32) -> Action
    ensures { result ≡ assigned to (λ v. action.New v next) next }
{
    match to {
        Some(to) => Action::New { to, next },
        None => Action::Block(idle_block(alloc, next, next)),
    }
}

fn copy(alloc: Global, to: Option<u8>, from: Value, next: u32) -> Action
    ensures { result ≡ assigned to (λ v. action.Copy v from next) next }
{
    match to {
        Some(to) => Action::Copy { to, from, next },
        None => Action::Block(idle_block(alloc, next, next)),
    }
}

/// The block of an `atomic` statement, with its exits.
pub(crate) fn atomic_block(
    setting: Setting<'_>,
    tree: &BlockTree,
    yes: u32,
    no: u32,
) -> Result<Block, OutOfMemory>
    ensures { IfOk result (λ b. b ≡ atomic_block setting.entry.names.now setting.entry.variables.now tree.now yes no) }
{
    let Setting {
        alloc,
        names,
        variables,
        ..
    } = setting;
    Ok(Block {
        with: with_of(alloc, variables, &tree.with)?,
        tests: tests_of_lines(alloc, names, variables, tree.tests.as_slice())?,
        binds: binds_of(alloc, names, variables, tree.binds.as_slice())?,
        writes: writes_of(alloc, names, variables, tree.writes.as_slice())?,
        yes,
        no,
    })
}

fn tests_of(setting: Setting<'_>, tests: &Tests) -> Result<Items<Test>, OutOfMemory>
    ensures { IfOk result (λ ts. ts ≡ test_of setting.entry.names.now setting.entry.variables.now tests.now.first
        ∷ map (test_of setting.entry.names.now setting.entry.variables.now) tests.now.others) }
{
    let mut out = Vec::new(setting.alloc);
    out.push(test_of(setting.names, setting.variables, &tests.first))?;
    for test in tests.others.as_slice() {
        out.push(test_of(setting.names, setting.variables, test))?;
    }
    Ok(Items::from_vec(out))
}

/// The block of the tests of an `if` or a `while`.
pub(crate) fn tests_block(
    setting: Setting<'_>,
    tests: &Tests,
    yes: u32,
    no: u32,
) -> Result<Block, OutOfMemory>
    ensures { IfOk result (λ b. b ≡ tests_block setting.entry.names.now setting.entry.variables.now tests.now yes no) }
{
    let alloc = setting.alloc;
    Ok(Block {
        with: Items::new(alloc),
        tests: tests_of(setting, tests)?,
        binds: Items::new(alloc),
        writes: Items::new(alloc),
        yes,
        no,
    })
}

// A lock or unlock statement; without locks it does nothing.
fn lock_block(
    setting: Setting<'_>,
    test: Test,
    write: Write,
    yes: u32,
    no: u32,
) -> Result<Block, OutOfMemory>
    ensures { IfOk result (λ b. b ≡ lock_block setting.entry.names.now test write yes no) }
{
    let alloc = setting.alloc;
    if !setting.names.has_lock() {
        return Ok(idle_block(alloc, yes, no));
    }
    let mut tests = Vec::new(alloc);
    tests.push(test)?;
    let mut writes = Vec::new(alloc);
    writes.push(write)?;
    Ok(Block {
        with: Items::new(alloc),
        tests: Items::from_vec(tests),
        binds: Items::new(alloc),
        writes: Items::from_vec(writes),
        yes,
        no,
    })
}

/// The block of a `lock` statement, with its exits.
pub(crate) fn take_lock(
    setting: Setting<'_>,
    node: Reference,
    yes: u32,
    no: u32,
) -> Result<Block, OutOfMemory>
    ensures { IfOk result (λ b. b ≡ take_lock setting.entry.names.now node yes no) }
{
    let test = Test::LockFree { node };
    lock_block(setting, test, Write::TakeLock { node }, yes, no)
}

/// The block of an `unlock` statement, with its exits.
pub(crate) fn free_lock(
    setting: Setting<'_>,
    node: Reference,
    yes: u32,
    no: u32,
) -> Result<Block, OutOfMemory>
    ensures { IfOk result (λ b. b ≡ free_lock setting.entry.names.now node yes no) }
{
    let test = Test::LockOwn { node };
    lock_block(setting, test, Write::FreeLock { node }, yes, no)
}
