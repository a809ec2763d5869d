//! Tests, and what stands between the braces of an atomic block.
ghost use Rattle.plank_parse.specs.Gives.{Gives};
ghost use Rattle.plank_parse.specs.Readers as readers;
ghost use Rattle.plank_lex.specs.declared.tokens.TokenKind.TheVariants as kind;
ghost use Rattle.plank_lex.specs.declared.words.Reserved.TheVariants as words;
ghost use Rattle.plank_parse.specs.Statements as spec;

use crate::atoms::atom;
use crate::front::{begins_with_word, expect_symbol, expect_word, name, open, peek, take};
use crate::lists::{Part, each_after, many_from, many_named};
use crate::names::{reference, truth};
use crate::stops::Reading;
use plank_ast::{Bind, Block, Name, Reference, Test, TestLine, Tests, With, Write, Written};
use plank_lex::{Reserved, Symbol, Token, TokenKind};
use std::alloc::Global;

/// `!`, a node, a dot and a field.
#[tactic(auto, unfolding(crate::specs::Statements::negated_test))]
fn negated_test<'a>(alloc: Global, tokens: &'a [Token]) -> Reading<'a, Test>
    ensures { Gives result (spec.negated_test tokens.now) }
{
    let (place, rest) = expect_symbol(tokens, Symbol::Not)?;
    let (node, rest) = reference(alloc, rest)?;
    let (_, rest) = expect_symbol(rest, Symbol::Dot)?;
    let (field, rest) = name(alloc, rest)?;
    Ok((Test::Not { place, node, field }, rest))
}

#[tactic(auto, unfolding(crate::specs::Statements::plain_test))]
fn test<'a>(alloc: Global, tokens: &'a [Token]) -> Reading<'a, Test>
    ensures { Gives result (spec.plain_test tokens.now) }
{
    match peek(tokens)? {
        TokenKind::Symbol(Symbol::Not) => negated_test(alloc, tokens),
        _ => {
            let (atom, rest) = atom(alloc, tokens)?;
            Ok((Test::Atom(atom), rest))
        }
    }
}

impl Part for Test {
    ghost use Rattle.plank_parse.specs.Statements as spec;

    ghost reader = { spec.plain_test };

    fn read<'a>(alloc: Global, tokens: &'a [Token]) -> Reading<'a, Test> {
        test(alloc, tokens)
    }
}

/// The tests of an `if` or a `while`, with their parentheses.
#[tactic(auto, unfolding(crate::specs::Statements::tests))]
pub(crate) fn tests<'a>(alloc: Global, tokens: &'a [Token], levels: u32) -> Reading<'a, Tests>
    ensures { Gives result (spec.tests levels tokens.now) }
{
    let (_, rest) = open(tokens, levels, Symbol::OpenParenthesis)?;
    let (first, rest) = test(alloc, rest)?;
    let (others, rest) = each_after::<Test>(alloc, rest, Symbol::And)?;
    let (_, rest) = expect_symbol(rest, Symbol::CloseParenthesis)?;
    Ok((Tests { first, others }, rest))
}

#[tactic(auto, unfolding(crate::specs::Statements::with_line))]
fn with_line<'a>(alloc: Global, tokens: &'a [Token]) -> Reading<'a, With>
    ensures { Gives result (spec.with_line tokens.now) }
{
    let (place, rest) = expect_word(tokens, Reserved::With)?;
    let (first, rest) = reference(alloc, rest)?;
    let (others, rest) = each_after::<Reference>(alloc, rest, Symbol::Comma)?;
    let (_, rest) = expect_symbol(rest, Symbol::Semicolon)?;
    let line = With {
        place,
        first,
        others,
    };
    Ok((line, rest))
}

/// The line `with`, where there is one.
fn with_if_any<'a>(alloc: Global, tokens: &'a [Token]) -> Reading<'a, Option<With>>
    ensures { Gives result (readers.optional (kind.Reserved words.With) spec.with_line tokens.now) }
{
    if !begins_with_word(tokens, Reserved::With) {
        return Ok((None, tokens));
    }
    let (line, rest) = with_line(alloc, tokens)?;
    Ok((Some(line), rest))
}

impl Part for TestLine {
    ghost use Rattle.plank_parse.specs.Statements as spec;

    ghost reader = { spec.test_line };

    #[tactic(auto, unfolding(crate::specs::Statements::test_line))]
    fn read<'a>(alloc: Global, tokens: &'a [Token]) -> Reading<'a, TestLine> {
        let (place, rest) = expect_word(tokens, Reserved::Test)?;
        let (test, rest) = test(alloc, rest)?;
        let (_, rest) = expect_symbol(rest, Symbol::Semicolon)?;
        Ok((TestLine { place, test }, rest))
    }
}

/// A node, a dot and a field.
#[tactic(auto, unfolding(crate::specs::Statements::selection))]
fn selection<'a>(alloc: Global, tokens: &'a [Token]) -> Reading<'a, (Reference, Name)>
    ensures { Gives result (spec.selection tokens.now) }
{
    let (node, rest) = reference(alloc, tokens)?;
    let (_, rest) = expect_symbol(rest, Symbol::Dot)?;
    let (field, rest) = name(alloc, rest)?;
    Ok(((node, field), rest))
}

impl Part for Bind {
    ghost use Rattle.plank_parse.specs.Statements as spec;

    ghost reader = { spec.bind };

    #[tactic(auto, unfolding(crate::specs::Statements::bind))]
    fn read<'a>(alloc: Global, tokens: &'a [Token]) -> Reading<'a, Bind> {
        let (variable, rest) = name(alloc, tokens)?;
        let (_, rest) = expect_symbol(rest, Symbol::Assign)?;
        let ((node, field), rest) = selection(alloc, rest)?;
        let (_, rest) = expect_symbol(rest, Symbol::Semicolon)?;
        let bind = Bind {
            variable,
            node,
            field,
        };
        Ok((bind, rest))
    }
}

#[tactic(auto, unfolding(crate::specs::Statements::written))]
fn written<'a>(alloc: Global, tokens: &'a [Token]) -> Reading<'a, Written>
    ensures { Gives result (spec.written tokens.now) }
{
    match peek(tokens)? {
        TokenKind::Reserved(Reserved::True) | TokenKind::Reserved(Reserved::False) => {
            let (truth, rest) = truth(tokens)?;
            Ok((Written::Flag(truth), rest))
        }
        TokenKind::Reserved(Reserved::Null) => {
            let (place, rest) = take(tokens)?;
            Ok((Written::Null(place), rest))
        }
        _ => {
            let (node, rest) = reference(alloc, tokens)?;
            Ok((Written::Node(node), rest))
        }
    }
}

impl Part for Write {
    ghost use Rattle.plank_parse.specs.Statements as spec;

    ghost reader = { spec.write };

    #[tactic(auto, unfolding(crate::specs::Statements::write))]
    fn read<'a>(alloc: Global, tokens: &'a [Token]) -> Reading<'a, Write> {
        let (place, rest) = expect_word(tokens, Reserved::Write)?;
        let ((node, field), rest) = selection(alloc, rest)?;
        let (_, rest) = expect_symbol(rest, Symbol::Assign)?;
        let (value, rest) = written(alloc, rest)?;
        let (_, rest) = expect_symbol(rest, Symbol::Semicolon)?;
        let write = Write {
            place,
            node,
            field,
            value,
        };
        Ok((write, rest))
    }
}

/// What stands between the braces of an atomic block.
#[tactic(auto, unfolding(crate::specs::Statements::block))]
fn block<'a>(alloc: Global, tokens: &'a [Token]) -> Reading<'a, Block>
    ensures { Gives result (spec.block tokens.now) }
{
    let (with, rest) = with_if_any(alloc, tokens)?;
    let (tests, rest) = many_from::<TestLine>(alloc, rest, Reserved::Test)?;
    let (binds, rest) = many_named::<Bind>(alloc, rest)?;
    let (writes, rest) = many_from::<Write>(alloc, rest, Reserved::Write)?;
    let block = Block {
        with,
        tests,
        binds,
        writes,
    };
    Ok((block, rest))
}

/// An atomic block with its braces.
#[tactic(auto, unfolding(crate::specs::Statements::braced_block))]
pub(crate) fn braced_block<'a>(
    alloc: Global,
    tokens: &'a [Token],
    levels: u32,
) -> Reading<'a, Block>
    ensures { Gives result (spec.braced_block levels tokens.now) }
{
    let (_, rest) = open(tokens, levels, Symbol::OpenBrace)?;
    let (found, rest) = block(alloc, rest)?;
    let (_, rest) = expect_symbol(rest, Symbol::CloseBrace)?;
    Ok((found, rest))
}
