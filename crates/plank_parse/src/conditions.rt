//! Conditions, by the number of brackets that may still be opened.
ghost use Rattle.plank_lex.specs.declared.symbols.Symbol.TheVariants as symbols;
ghost use Rattle.plank_lex.specs.declared.tokens.TokenKind.TheVariants as kind;
ghost use Rattle.plank_parse.specs.Gives.{Gives};
ghost use Rattle.plank_parse.specs.Readers as readers;
ghost use Rattle.plank_parse.specs.Conditions as spec;

use crate::atoms::atom;
use crate::front::{begins_with_symbol, blocked, expect_symbol, name, peek, take};
use crate::stops::Reading;
use plank_ast::{Condition, Conjunction, Literal};
use plank_lex::{Reserved, Symbol, Token, TokenKind};
use sqlite_items::{Boxed, Items};
use std::alloc::Global;

/// `!`, a node, a dot and a field.
#[tactic(auto, unfolding(crate::specs::Conditions::negation))]
fn negation<'a>(alloc: Global, tokens: &'a [Token]) -> Reading<'a, Literal>
    ensures { Gives result (spec.negation tokens.now) }
{
    let (place, rest) = expect_symbol(tokens, Symbol::Not)?;
    let (node, rest) = name(alloc, rest)?;
    let (_, rest) = expect_symbol(rest, Symbol::Dot)?;
    let (field, rest) = name(alloc, rest)?;
    Ok((Literal::Not { place, node, field }, rest))
}

#[cycle(conditions)]
#[tactic(auto, unfolding(crate::specs::Conditions::condition_over))]
pub(crate) fn condition<'a>(
    alloc: Global,
    tokens: &'a [Token],
    levels: u32,
) -> Reading<'a, Condition>
    ensures { Gives result (spec.condition levels tokens.now) }
{
    let (first, rest) = conjunction(alloc, tokens, levels)?;
    let (others, rest) = more_conjunctions(alloc, rest, levels)?;
    Ok((Condition { first, others }, rest))
}

/// Conjunctions each behind `||`.
#[cycle(conditions)]
fn more_conjunctions<'a>(
    alloc: Global,
    tokens: &'a [Token],
    levels: u32,
) -> Reading<'a, Items<Conjunction>>
    ensures { Gives result
        (readers.each_after (kind.Symbol symbols.Or) (spec.conjunction levels) tokens.now) }
{
    let mut parts = Items::new(alloc);
    let mut rest = tokens;
    for _turn in 0..tokens.len() {
        if !begins_with_symbol(rest, Symbol::Or) {
            return Ok((parts, rest));
        }
        let (part, after) = other_conjunction(alloc, rest, levels)?;
        parts.push(part)?;
        rest = after;
    }
    Ok((parts, rest))
}

#[cycle(conditions)]
fn other_conjunction<'a>(
    alloc: Global,
    tokens: &'a [Token],
    levels: u32,
) -> Reading<'a, Conjunction>
    ensures { Gives result
        (readers.behind (kind.Symbol symbols.Or) (spec.conjunction levels) tokens.now) }
{
    let (_, rest) = expect_symbol(tokens, Symbol::Or)?;
    conjunction(alloc, rest, levels)
}

#[cycle(conditions)]
#[tactic(auto, unfolding(crate::specs::Conditions::conjunction_over))]
fn conjunction<'a>(alloc: Global, tokens: &'a [Token], levels: u32) -> Reading<'a, Conjunction>
    ensures { Gives result (spec.conjunction levels tokens.now) }
{
    let (first, rest) = literal(alloc, tokens, levels)?;
    let (others, rest) = more_literals(alloc, rest, levels)?;
    Ok((Conjunction { first, others }, rest))
}

/// Literals each behind `&&`.
#[cycle(conditions)]
fn more_literals<'a>(alloc: Global, tokens: &'a [Token], levels: u32) -> Reading<'a, Items<Literal>>
    ensures { Gives result
        (readers.each_after (kind.Symbol symbols.And) (spec.literal levels) tokens.now) }
{
    let mut parts = Items::new(alloc);
    let mut rest = tokens;
    for _turn in 0..tokens.len() {
        if !begins_with_symbol(rest, Symbol::And) {
            return Ok((parts, rest));
        }
        let (part, after) = other_literal(alloc, rest, levels)?;
        parts.push(part)?;
        rest = after;
    }
    Ok((parts, rest))
}

#[cycle(conditions)]
fn other_literal<'a>(alloc: Global, tokens: &'a [Token], levels: u32) -> Reading<'a, Literal>
    ensures { Gives result
        (readers.behind (kind.Symbol symbols.And) (spec.literal levels) tokens.now) }
{
    let (_, rest) = expect_symbol(tokens, Symbol::And)?;
    literal(alloc, rest, levels)
}

#[cycle(conditions)]
#[tactic(auto, unfolding(crate::specs::Conditions::literal_over))]
fn literal<'a>(alloc: Global, tokens: &'a [Token], levels: u32) -> Reading<'a, Literal>
    ensures { Gives result (spec.literal levels tokens.now) }
{
    match peek(tokens)? {
        TokenKind::Reserved(Reserved::True) => {
            let (place, rest) = take(tokens)?;
            Ok((Literal::True(place), rest))
        }
        TokenKind::Reserved(Reserved::False) => {
            let (place, rest) = take(tokens)?;
            Ok((Literal::False(place), rest))
        }
        TokenKind::Symbol(Symbol::OpenParenthesis) => group(alloc, tokens, levels),
        TokenKind::Symbol(Symbol::Not) => negation(alloc, tokens),
        _ => {
            let (atom, rest) = atom(alloc, tokens)?;
            Ok((Literal::Atom(atom), rest))
        }
    }
}

/// A condition in parentheses, where so many brackets may be opened.
#[cycle(conditions)]
fn group<'a>(alloc: Global, tokens: &'a [Token], levels: u32) -> Reading<'a, Literal>
    ensures { Gives result (spec.group levels tokens.now) }
{
    if levels == 0 {
        return blocked(tokens, Symbol::OpenParenthesis);
    }
    grouped(alloc, tokens, levels - 1)
}

/// A condition in parentheses, inside which so many brackets may be opened.
#[cycle(conditions)]
#[tactic(auto, unfolding(crate::specs::Conditions::grouped))]
fn grouped<'a>(alloc: Global, tokens: &'a [Token], levels: u32) -> Reading<'a, Literal>
    ensures { Gives result (spec.grouped (spec.group levels) tokens.now) }
{
    let (place, rest) = expect_symbol(tokens, Symbol::OpenParenthesis)?;
    let (inner, rest) = condition(alloc, rest, levels)?;
    let (_, rest) = expect_symbol(rest, Symbol::CloseParenthesis)?;
    let inner = Boxed::new(alloc, inner)?;
    Ok((Literal::Group { place, inner }, rest))
}
