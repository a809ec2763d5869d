//! From statements and methods to the tokens that spell them.
ghost use Rattle.std.specs.Prelude.{OnOk};
ghost use Rattle.std.specs.List.{flat_map};
ghost use Rattle.std.specs.Option.{option_map_or, option_copied};
ghost use Rattle.plank_ast.specs.Spelled.{Adds};
ghost use Rattle.plank_ast.specs.Spelling.{assigned_tokens, more_reference_tokens, with_tokens, test_tokens, more_test_tokens, block_tokens, node_line_tokens, word_line_tokens, test_line_tokens, tests_tokens, bind_tokens, written_tokens, write_tokens, body_tokens, else_tokens, statement_tokens};

use crate::names::Reference;
use crate::spelling::{Spelled, add_atom, add_mark, add_name, add_reference, add_truth, add_word};
use crate::statements::{
    Assigned, Bind, Block, Body, Else, Statement, Test, TestLine, Tests, With, Write, Written,
};
use plank_base::OutOfMemory;
use plank_lex::{Reserved, Symbol};

fn add_assigned<'a>(out: &mut Vec<Spelled<'a>>, value: &'a Assigned) -> Result<(), OutOfMemory>
    ensures { OnOk result (Adds out.old.items out.new.items (assigned_tokens value.now)) }
{
    match value {
        Assigned::New(_) => add_word(out, Reserved::New),
        Assigned::Null(_) => add_word(out, Reserved::Null),
        Assigned::Node { node, field: None } => add_reference(out, node),
        Assigned::Node {
            node,
            field: Some(field),
        } => {
            add_reference(out, node)?;
            add_mark(out, Symbol::Dot)?;
            add_name(out, field)
        }
    }
}

/// References, each after a comma.
fn add_more_references<'a>(
    out: &mut Vec<Spelled<'a>>,
    references: &'a [Reference],
) -> Result<(), OutOfMemory>
    ensures { OnOk result (Adds out.old.items out.new.items (more_reference_tokens references.now)) }
{
    for reference in references {
        add_mark(out, Symbol::Comma)?;
        add_reference(out, reference)?;
    }
    Ok(())
}

fn add_with<'a>(out: &mut Vec<Spelled<'a>>, with: &'a With) -> Result<(), OutOfMemory>
    ensures { OnOk result (Adds out.old.items out.new.items (with_tokens with.now)) }
{
    add_word(out, Reserved::With)?;
    add_reference(out, &with.first)?;
    add_more_references(out, with.others.as_slice())?;
    add_mark(out, Symbol::Semicolon)
}

fn add_test<'a>(out: &mut Vec<Spelled<'a>>, test: &'a Test) -> Result<(), OutOfMemory>
    ensures { OnOk result (Adds out.old.items out.new.items (test_tokens test.now)) }
{
    match test {
        Test::Not { node, field, .. } => {
            add_mark(out, Symbol::Not)?;
            add_reference(out, node)?;
            add_mark(out, Symbol::Dot)?;
            add_name(out, field)
        }
        Test::Atom(atom) => add_atom(out, atom),
    }
}

fn add_test_line<'a>(out: &mut Vec<Spelled<'a>>, line: &'a TestLine) -> Result<(), OutOfMemory>
    ensures { OnOk result (Adds out.old.items out.new.items (test_line_tokens line.now)) }
{
    add_word(out, Reserved::Test)?;
    add_test(out, &line.test)?;
    add_mark(out, Symbol::Semicolon)
}

fn add_test_lines<'a>(out: &mut Vec<Spelled<'a>>, lines: &'a [TestLine]) -> Result<(), OutOfMemory>
    ensures { OnOk result (Adds out.old.items out.new.items (flat_map test_line_tokens lines.now)) }
{
    for line in lines {
        add_test_line(out, line)?;
    }
    Ok(())
}

/// Tests, each after `&&`.
fn add_more_tests<'a>(out: &mut Vec<Spelled<'a>>, tests: &'a [Test]) -> Result<(), OutOfMemory>
    ensures { OnOk result (Adds out.old.items out.new.items (more_test_tokens tests.now)) }
{
    for test in tests {
        add_mark(out, Symbol::And)?;
        add_test(out, test)?;
    }
    Ok(())
}

fn add_tests<'a>(out: &mut Vec<Spelled<'a>>, tests: &'a Tests) -> Result<(), OutOfMemory>
    ensures { OnOk result (Adds out.old.items out.new.items (tests_tokens tests.now)) }
{
    add_mark(out, Symbol::OpenParenthesis)?;
    add_test(out, &tests.first)?;
    add_more_tests(out, tests.others.as_slice())?;
    add_mark(out, Symbol::CloseParenthesis)
}

fn add_bind<'a>(out: &mut Vec<Spelled<'a>>, bind: &'a Bind) -> Result<(), OutOfMemory>
    ensures { OnOk result (Adds out.old.items out.new.items (bind_tokens bind.now)) }
{
    add_name(out, &bind.variable)?;
    add_mark(out, Symbol::Assign)?;
    add_reference(out, &bind.node)?;
    add_mark(out, Symbol::Dot)?;
    add_name(out, &bind.field)?;
    add_mark(out, Symbol::Semicolon)
}

fn add_binds<'a>(out: &mut Vec<Spelled<'a>>, binds: &'a [Bind]) -> Result<(), OutOfMemory>
    ensures { OnOk result (Adds out.old.items out.new.items (flat_map bind_tokens binds.now)) }
{
    for bind in binds {
        add_bind(out, bind)?;
    }
    Ok(())
}

fn add_written<'a>(out: &mut Vec<Spelled<'a>>, value: &'a Written) -> Result<(), OutOfMemory>
    ensures { OnOk result (Adds out.old.items out.new.items (written_tokens value.now)) }
{
    match value {
        Written::Flag(truth) => add_truth(out, *truth),
        Written::Null(_) => add_word(out, Reserved::Null),
        Written::Node(node) => add_reference(out, node),
    }
}

fn add_write<'a>(out: &mut Vec<Spelled<'a>>, write: &'a Write) -> Result<(), OutOfMemory>
    ensures { OnOk result (Adds out.old.items out.new.items (write_tokens write.now)) }
{
    add_word(out, Reserved::Write)?;
    add_reference(out, &write.node)?;
    add_mark(out, Symbol::Dot)?;
    add_name(out, &write.field)?;
    add_mark(out, Symbol::Assign)?;
    add_written(out, &write.value)?;
    add_mark(out, Symbol::Semicolon)
}

fn add_writes<'a>(out: &mut Vec<Spelled<'a>>, writes: &'a [Write]) -> Result<(), OutOfMemory>
    ensures { OnOk result (Adds out.old.items out.new.items (flat_map write_tokens writes.now)) }
{
    for write in writes {
        add_write(out, write)?;
    }
    Ok(())
}

/// What stands between the braces of an atomic block.
fn add_block_lines<'a>(out: &mut Vec<Spelled<'a>>, block: &'a Block) -> Result<(), OutOfMemory>
    ensures { OnOk result (Adds out.old.items out.new.items (block_tokens block.now)) }
{
    if let Some(with) = &block.with {
        add_with(out, with)?;
    }
    add_test_lines(out, block.tests.as_slice())?;
    add_binds(out, block.binds.as_slice())?;
    add_writes(out, block.writes.as_slice())
}

#[cycle(statements)]
fn add_body<'a>(out: &mut Vec<Spelled<'a>>, body: &'a Body) -> Result<(), OutOfMemory>
    ensures { OnOk result (Adds out.old.items out.new.items (body_tokens body.now)) }
{
    add_mark(out, Symbol::OpenBrace)?;
    for statement in body.statements.as_slice() {
        add_statement(out, statement)?;
    }
    add_mark(out, Symbol::CloseBrace)
}

#[cycle(statements)]
fn add_else<'a>(out: &mut Vec<Spelled<'a>>, otherwise: &'a Else) -> Result<(), OutOfMemory>
    ensures { OnOk result (Adds out.old.items out.new.items (else_tokens otherwise.now)) }
{
    match otherwise {
        Else::Nothing => Ok(()),
        Else::Body { body, .. } => {
            add_word(out, Reserved::Else)?;
            add_body(out, body)
        }
    }
}

#[cycle(statements)]
pub(crate) fn add_statement<'a>(
    out: &mut Vec<Spelled<'a>>,
    statement: &'a Statement,
) -> Result<(), OutOfMemory>
    ensures { OnOk result (Adds out.old.items out.new.items (statement_tokens statement.now)) }
{
    match statement {
        Statement::Assign { variable, value } => {
            add_name(out, variable)?;
            add_mark(out, Symbol::Assign)?;
            add_assigned(out, value)?;
            add_mark(out, Symbol::Semicolon)
        }
        Statement::Atomic {
            block,
            otherwise,
            ..
        } => {
            add_word(out, Reserved::Atomic)?;
            add_mark(out, Symbol::OpenBrace)?;
            add_block_lines(out, block)?;
            add_mark(out, Symbol::CloseBrace)?;
            add_else(out, otherwise)
        }
        Statement::Lock { node, .. } => add_node_line(out, Reserved::Lock, node),
        Statement::Unlock { node, .. } => add_node_line(out, Reserved::Unlock, node),
        Statement::If {
            tests,
            body,
            otherwise,
            ..
        } => {
            add_word(out, Reserved::If)?;
            add_tests(out, tests)?;
            add_body(out, body)?;
            add_else(out, otherwise)
        }
        Statement::While { tests, body, .. } => {
            add_word(out, Reserved::While)?;
            add_tests(out, tests)?;
            add_body(out, body)
        }
        Statement::Loop { body, .. } => {
            add_word(out, Reserved::Loop)?;
            add_body(out, body)
        }
        Statement::Break(_) => add_word_line(out, Reserved::Break),
        Statement::Continue(_) => add_word_line(out, Reserved::Continue),
        Statement::Return { answer, .. } => {
            add_word(out, Reserved::Return)?;
            add_truth(out, *answer)?;
            add_mark(out, Symbol::Semicolon)
        }
    }
}

/// A word, a node and a semicolon.
fn add_node_line<'a>(
    out: &mut Vec<Spelled<'a>>,
    word: Reserved,
    node: &'a Reference,
) -> Result<(), OutOfMemory>
    ensures { OnOk result (Adds out.old.items out.new.items (node_line_tokens word node.now)) }
{
    add_word(out, word)?;
    add_reference(out, node)?;
    add_mark(out, Symbol::Semicolon)
}

/// A word and a semicolon.
fn add_word_line(out: &mut Vec<Spelled<'_>>, word: Reserved) -> Result<(), OutOfMemory>
    ensures { OnOk result (Adds out.old.items out.new.items (word_line_tokens word)) }
{
    add_word(out, word)?;
    add_mark(out, Symbol::Semicolon)
}
