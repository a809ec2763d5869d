//! Statements, by the number of brackets that may still be opened.
ghost use Rattle.plank_lex.specs.declared.symbols.Symbol.TheVariants as symbols;
ghost use Rattle.plank_lex.specs.declared.tokens.TokenKind.TheVariants as kind;
ghost use Rattle.plank_lex.specs.declared.words.Reserved.TheVariants as words;
ghost use Rattle.plank_ast.specs.declared.statements.Statement.TheVariants as statements;
ghost use Rattle.plank_parse.specs.Gives.{Gives};
ghost use Rattle.plank_parse.specs.Readers as readers;
ghost use Rattle.plank_parse.specs.Statements as spec;

use crate::blocks::{braced_block, tests};
use crate::front::{
    begins_with_word, blocked, expect_symbol, expect_word, goes_on_before, name, peek, take,
};
use crate::names::{dotted_name, reference, truth};
use crate::stops::{Reading, Stop};
use plank_ast::{Assigned, Body, Else, Statement};
use plank_lex::{Reserved, Symbol, Token, TokenKind};
use sqlite_items::Items;
use std::alloc::Global;

/// A node, or the node that one of its pointers leads to.
#[tactic(auto, unfolding(crate::specs::Statements::assigned_node))]
fn assigned_node<'a>(alloc: Global, tokens: &'a [Token]) -> Reading<'a, Assigned>
    ensures { Gives result (spec.assigned_node tokens.now) }
{
    let (node, rest) = reference(alloc, tokens)?;
    let (field, rest) = dotted_name(alloc, rest)?;
    Ok((Assigned::Node { node, field }, rest))
}

#[tactic(auto, unfolding(crate::specs::Statements::assigned))]
fn assigned<'a>(alloc: Global, tokens: &'a [Token]) -> Reading<'a, Assigned>
    ensures { Gives result (spec.assigned tokens.now) }
{
    match peek(tokens)? {
        TokenKind::Reserved(Reserved::New) => {
            let (place, rest) = take(tokens)?;
            Ok((Assigned::New(place), rest))
        }
        TokenKind::Reserved(Reserved::Null) => {
            let (place, rest) = take(tokens)?;
            Ok((Assigned::Null(place), rest))
        }
        _ => assigned_node(alloc, tokens),
    }
}

#[tactic(auto, unfolding(crate::specs::Statements::assignment))]
fn assignment<'a>(alloc: Global, tokens: &'a [Token]) -> Reading<'a, Statement>
    ensures { Gives result (spec.assignment tokens.now) }
{
    let (variable, rest) = name(alloc, tokens)?;
    let (_, rest) = expect_symbol(rest, Symbol::Assign)?;
    let (value, rest) = assigned(alloc, rest)?;
    let (_, rest) = expect_symbol(rest, Symbol::Semicolon)?;
    Ok((Statement::Assign { variable, value }, rest))
}

#[tactic(auto, unfolding(crate::specs::Statements::node_line))]
fn lock<'a>(alloc: Global, tokens: &'a [Token]) -> Reading<'a, Statement>
    ensures { Gives result (spec.node_line words.Lock statements.Lock tokens.now) }
{
    let (place, rest) = expect_word(tokens, Reserved::Lock)?;
    let (node, rest) = reference(alloc, rest)?;
    let (_, rest) = expect_symbol(rest, Symbol::Semicolon)?;
    Ok((Statement::Lock { place, node }, rest))
}

#[tactic(auto, unfolding(crate::specs::Statements::node_line))]
fn unlock<'a>(alloc: Global, tokens: &'a [Token]) -> Reading<'a, Statement>
    ensures { Gives result (spec.node_line words.Unlock statements.Unlock tokens.now) }
{
    let (place, rest) = expect_word(tokens, Reserved::Unlock)?;
    let (node, rest) = reference(alloc, rest)?;
    let (_, rest) = expect_symbol(rest, Symbol::Semicolon)?;
    Ok((Statement::Unlock { place, node }, rest))
}

#[tactic(auto, unfolding(crate::specs::Statements::word_line))]
fn break_line<'a>(tokens: &'a [Token]) -> Reading<'a, Statement>
    ensures { Gives result (spec.word_line words.Break statements.Break tokens.now) }
{
    let (place, rest) = expect_word(tokens, Reserved::Break)?;
    let (_, rest) = expect_symbol(rest, Symbol::Semicolon)?;
    Ok((Statement::Break(place), rest))
}

#[tactic(auto, unfolding(crate::specs::Statements::word_line))]
fn continue_line<'a>(tokens: &'a [Token]) -> Reading<'a, Statement>
    ensures { Gives result (spec.word_line words.Continue statements.Continue tokens.now) }
{
    let (place, rest) = expect_word(tokens, Reserved::Continue)?;
    let (_, rest) = expect_symbol(rest, Symbol::Semicolon)?;
    Ok((Statement::Continue(place), rest))
}

#[tactic(auto, unfolding(crate::specs::Statements::return_line))]
fn return_line<'a>(tokens: &'a [Token]) -> Reading<'a, Statement>
    ensures { Gives result (spec.return_line tokens.now) }
{
    let (place, rest) = expect_word(tokens, Reserved::Return)?;
    let (answer, rest) = truth(rest)?;
    let (_, rest) = expect_symbol(rest, Symbol::Semicolon)?;
    Ok((Statement::Return { place, answer }, rest))
}

/// `else` and its body, where there is an `else`.
#[cycle(statements)]
#[tactic(auto, unfolding(crate::specs::Statements::otherwise_over))]
fn otherwise<'a>(alloc: Global, tokens: &'a [Token], levels: u32) -> Reading<'a, Else>
    ensures { Gives result (spec.otherwise levels tokens.now) }
{
    if !begins_with_word(tokens, Reserved::Else) {
        return Ok((Else::Nothing, tokens));
    }
    let (place, rest) = expect_word(tokens, Reserved::Else)?;
    let (body, rest) = body(alloc, rest, levels)?;
    Ok((Else::Body { place, body }, rest))
}

#[cycle(statements)]
#[tactic(auto, unfolding(crate::specs::Statements::atomic_over))]
fn atomic<'a>(alloc: Global, tokens: &'a [Token], levels: u32) -> Reading<'a, Statement>
    ensures { Gives result (spec.atomic_over levels (spec.body levels) tokens.now) }
{
    let (place, rest) = expect_word(tokens, Reserved::Atomic)?;
    let (block, rest) = braced_block(alloc, rest, levels)?;
    let (otherwise, rest) = otherwise(alloc, rest, levels)?;
    let statement = Statement::Atomic {
        place,
        block,
        otherwise,
    };
    Ok((statement, rest))
}

#[cycle(statements)]
#[tactic(auto, unfolding(crate::specs::Statements::if_over))]
fn if_statement<'a>(alloc: Global, tokens: &'a [Token], levels: u32) -> Reading<'a, Statement>
    ensures { Gives result (spec.if_over levels (spec.body levels) tokens.now) }
{
    let (place, rest) = expect_word(tokens, Reserved::If)?;
    let (tests, rest) = tests(alloc, rest, levels)?;
    let (body, rest) = body(alloc, rest, levels)?;
    let (otherwise, rest) = otherwise(alloc, rest, levels)?;
    let statement = Statement::If {
        place,
        tests,
        body,
        otherwise,
    };
    Ok((statement, rest))
}

#[cycle(statements)]
#[tactic(auto, unfolding(crate::specs::Statements::while_over))]
fn while_statement<'a>(alloc: Global, tokens: &'a [Token], levels: u32) -> Reading<'a, Statement>
    ensures { Gives result (spec.while_over levels (spec.body levels) tokens.now) }
{
    let (place, rest) = expect_word(tokens, Reserved::While)?;
    let (tests, rest) = tests(alloc, rest, levels)?;
    let (body, rest) = body(alloc, rest, levels)?;
    Ok((Statement::While { place, tests, body }, rest))
}

#[cycle(statements)]
#[tactic(auto, unfolding(crate::specs::Statements::loop_over))]
fn loop_statement<'a>(alloc: Global, tokens: &'a [Token], levels: u32) -> Reading<'a, Statement>
    ensures { Gives result (spec.loop_over (spec.body levels) tokens.now) }
{
    let (place, rest) = expect_word(tokens, Reserved::Loop)?;
    let (body, rest) = body(alloc, rest, levels)?;
    Ok((Statement::Loop { place, body }, rest))
}

#[cycle(statements)]
#[tactic(auto, unfolding(crate::specs::Statements::statement_over))]
fn statement<'a>(alloc: Global, tokens: &'a [Token], levels: u32) -> Reading<'a, Statement>
    ensures { Gives result (spec.statement levels tokens.now) }
{
    match peek(tokens)? {
        TokenKind::Name(_) => assignment(alloc, tokens),
        TokenKind::Reserved(Reserved::Atomic) => atomic(alloc, tokens, levels),
        TokenKind::Reserved(Reserved::Lock) => lock(alloc, tokens),
        TokenKind::Reserved(Reserved::Unlock) => unlock(alloc, tokens),
        TokenKind::Reserved(Reserved::If) => if_statement(alloc, tokens, levels),
        TokenKind::Reserved(Reserved::While) => while_statement(alloc, tokens, levels),
        TokenKind::Reserved(Reserved::Loop) => loop_statement(alloc, tokens, levels),
        TokenKind::Reserved(Reserved::Break) => break_line(tokens),
        TokenKind::Reserved(Reserved::Continue) => continue_line(tokens),
        TokenKind::Reserved(Reserved::Return) => return_line(tokens),
        _ => Err(Stop::Unexpected(tokens)),
    }
}

/// The statements up to a closing brace.
#[cycle(statements)]
pub(crate) fn statements<'a>(
    alloc: Global,
    tokens: &'a [Token],
    levels: u32,
) -> Reading<'a, Items<Statement>>
    ensures { Gives result
        (readers.many_until (kind.Symbol symbols.CloseBrace) (spec.statement levels) tokens.now) }
{
    let mut parts = Items::new(alloc);
    let mut rest = tokens;
    for _turn in 0..tokens.len() {
        if !goes_on_before(rest, Symbol::CloseBrace) {
            return Ok((parts, rest));
        }
        let (part, after) = statement(alloc, rest, levels)?;
        parts.push(part)?;
        rest = after;
    }
    Ok((parts, rest))
}

/// Statements in braces, where so many brackets may be opened.
#[cycle(statements)]
fn body<'a>(alloc: Global, tokens: &'a [Token], levels: u32) -> Reading<'a, Body>
    ensures { Gives result (spec.body levels tokens.now) }
{
    if levels == 0 {
        return blocked(tokens, Symbol::OpenBrace);
    }
    braced(alloc, tokens, levels - 1)
}

/// Statements in braces, inside which so many brackets may be opened.
#[cycle(statements)]
#[tactic(auto, unfolding(crate::specs::Statements::braced))]
fn braced<'a>(alloc: Global, tokens: &'a [Token], levels: u32) -> Reading<'a, Body>
    ensures { Gives result (spec.braced (spec.statement levels) tokens.now) }
{
    let (place, rest) = expect_symbol(tokens, Symbol::OpenBrace)?;
    let (statements, rest) = statements(alloc, rest, levels)?;
    let (_, rest) = expect_symbol(rest, Symbol::CloseBrace)?;
    Ok((Body { place, statements }, rest))
}
