//! The lines of a header.
ghost use Rattle.plank_lex.specs.declared.tokens.TokenKind.TheVariants as kind;
ghost use Rattle.plank_parse.specs.Gives.{Gives};
ghost use Rattle.plank_parse.specs.Readers as readers;
ghost use Rattle.plank_parse.specs.Header as spec;

use crate::conditions::condition;
use crate::front::{begins_with_word, expect_symbol, expect_word, name, peek, take};
use crate::lists::{Part, many_named};
use crate::names::truth;
use crate::stops::{Reading, Stop};
use plank_ast::{
    ConditionLine, Direction, FlagLine, NamedCondition, PointerLine, RootLine, StartItem, StartKey,
    StartLine, StartValue,
};
use plank_base::{NESTING_LIMIT, Place};
use plank_lex::{Reserved, Symbol, Token, TokenKind};
use sqlite_items::Items;
use std::alloc::Global;

impl Part for FlagLine {
    ghost use Rattle.plank_parse.specs.Header as spec;

    ghost reader = { spec.flag };

    #[tactic(auto, unfolding(crate::specs::Header::flag))]
    fn read<'a>(alloc: Global, tokens: &'a [Token]) -> Reading<'a, FlagLine> {
        let (place, rest) = expect_word(tokens, Reserved::Flag)?;
        let (name, rest) = name(alloc, rest)?;
        let (_, rest) = expect_symbol(rest, Symbol::Semicolon)?;
        Ok((FlagLine { place, name }, rest))
    }
}

/// A direction and its place.
#[tactic(auto, unfolding(crate::specs::Header::direction))]
fn direction<'a>(tokens: &'a [Token]) -> Reading<'a, (Direction, Place)>
    ensures { Gives result (spec.direction tokens.now) }
{
    let direction = match peek(tokens)? {
        TokenKind::Reserved(Reserved::Ascending) => Direction::Ascending,
        TokenKind::Reserved(Reserved::Descending) => Direction::Descending,
        TokenKind::Reserved(Reserved::Free) => Direction::Free,
        _ => return Err(Stop::Unexpected(tokens)),
    };
    let (place, rest) = take(tokens)?;
    Ok(((direction, place), rest))
}

impl Part for PointerLine {
    ghost use Rattle.plank_parse.specs.Header as spec;

    ghost reader = { spec.pointer };

    #[tactic(auto, unfolding(crate::specs::Header::pointer))]
    fn read<'a>(alloc: Global, tokens: &'a [Token]) -> Reading<'a, PointerLine> {
        let (place, rest) = expect_word(tokens, Reserved::Pointer)?;
        let (name, rest) = name(alloc, rest)?;
        let ((direction, direction_place), rest) = direction(rest)?;
        let (_, rest) = expect_symbol(rest, Symbol::Semicolon)?;
        let line = PointerLine {
            place,
            name,
            direction,
            direction_place,
        };
        Ok((line, rest))
    }
}

impl Part for RootLine {
    ghost use Rattle.plank_parse.specs.Header as spec;

    ghost reader = { spec.root };

    #[tactic(auto, unfolding(crate::specs::Header::root))]
    fn read<'a>(alloc: Global, tokens: &'a [Token]) -> Reading<'a, RootLine> {
        let (place, rest) = expect_word(tokens, Reserved::Root)?;
        let (name, rest) = name(alloc, rest)?;
        let (_, rest) = expect_symbol(rest, Symbol::Semicolon)?;
        Ok((RootLine { place, name }, rest))
    }
}

/// The key of a start node, and its place.
#[tactic(auto, unfolding(crate::specs::Header::start_key))]
fn start_key<'a>(tokens: &'a [Token]) -> Reading<'a, (StartKey, Place)>
    ensures { Gives result (spec.start_key tokens.now) }
{
    let key = match peek(tokens)? {
        TokenKind::Reserved(Reserved::Min) => StartKey::Min,
        TokenKind::Reserved(Reserved::Max) => StartKey::Max,
        _ => return Err(Stop::Unexpected(tokens)),
    };
    let (place, rest) = take(tokens)?;
    Ok(((key, place), rest))
}

/// The line of a start node's key.
#[tactic(auto, unfolding(crate::specs::Header::start_key_line))]
fn start_key_line<'a>(tokens: &'a [Token]) -> Reading<'a, (StartKey, Place)>
    ensures { Gives result (spec.start_key_line tokens.now) }
{
    let (_, rest) = expect_word(tokens, Reserved::Key)?;
    let (_, rest) = expect_symbol(rest, Symbol::Assign)?;
    let (key, rest) = start_key(rest)?;
    let (_, rest) = expect_symbol(rest, Symbol::Semicolon)?;
    Ok((key, rest))
}

#[tactic(auto, unfolding(crate::specs::Header::start_value))]
fn start_value<'a>(alloc: Global, tokens: &'a [Token]) -> Reading<'a, StartValue>
    ensures { Gives result (spec.start_value tokens.now) }
{
    match peek(tokens)? {
        TokenKind::Reserved(Reserved::True) | TokenKind::Reserved(Reserved::False) => {
            let (truth, rest) = truth(tokens)?;
            Ok((StartValue::Flag(truth), rest))
        }
        TokenKind::Reserved(Reserved::Null) => {
            let (place, rest) = take(tokens)?;
            Ok((StartValue::Null(place), rest))
        }
        _ => {
            let (name, rest) = name(alloc, tokens)?;
            Ok((StartValue::Node(name), rest))
        }
    }
}

impl Part for StartItem {
    ghost use Rattle.plank_parse.specs.Header as spec;

    ghost reader = { spec.start_item };

    #[tactic(auto, unfolding(crate::specs::Header::start_item))]
    fn read<'a>(alloc: Global, tokens: &'a [Token]) -> Reading<'a, StartItem> {
        let (field, rest) = name(alloc, tokens)?;
        let (_, rest) = expect_symbol(rest, Symbol::Assign)?;
        let (value, rest) = start_value(alloc, rest)?;
        let (_, rest) = expect_symbol(rest, Symbol::Semicolon)?;
        Ok((StartItem { field, value }, rest))
    }
}

impl Part for StartLine {
    ghost use Rattle.plank_parse.specs.Header as spec;

    ghost reader = { spec.start };

    #[tactic(auto, unfolding(crate::specs::Header::start))]
    fn read<'a>(alloc: Global, tokens: &'a [Token]) -> Reading<'a, StartLine> {
        let (place, rest) = expect_word(tokens, Reserved::Start)?;
        let (name, rest) = name(alloc, rest)?;
        let (_, rest) = expect_symbol(rest, Symbol::OpenBrace)?;
        let ((key, key_place), rest) = start_key_line(rest)?;
        let (items, rest) = many_named::<StartItem>(alloc, rest)?;
        let (_, rest) = expect_symbol(rest, Symbol::CloseBrace)?;
        let line = StartLine {
            place,
            name,
            key,
            key_place,
            items,
        };
        Ok((line, rest))
    }
}

/// A condition behind this word.
#[tactic(auto, unfolding(crate::specs::Header::condition_line))]
pub(crate) fn condition_line<'a>(
    alloc: Global,
    tokens: &'a [Token],
    word: Reserved,
) -> Reading<'a, ConditionLine>
    ensures { Gives result (spec.condition_line word tokens.now) }
{
    let (place, rest) = expect_word(tokens, word)?;
    let (condition, rest) = condition(alloc, rest, NESTING_LIMIT)?;
    let (_, rest) = expect_symbol(rest, Symbol::Semicolon)?;
    Ok((ConditionLine { place, condition }, rest))
}

/// A named condition behind this word.
#[tactic(auto, unfolding(crate::specs::Header::named_condition))]
fn named_condition<'a>(
    alloc: Global,
    tokens: &'a [Token],
    word: Reserved,
) -> Reading<'a, NamedCondition>
    ensures { Gives result (spec.named_condition word tokens.now) }
{
    let (place, rest) = expect_word(tokens, word)?;
    let (name, rest) = name(alloc, rest)?;
    let (_, rest) = expect_symbol(rest, Symbol::Colon)?;
    let (condition, rest) = condition(alloc, rest, NESTING_LIMIT)?;
    let (_, rest) = expect_symbol(rest, Symbol::Semicolon)?;
    let line = NamedCondition {
        place,
        name,
        condition,
    };
    Ok((line, rest))
}

/// The named conditions behind this word, line by line.
pub(crate) fn named_conditions<'a>(
    alloc: Global,
    tokens: &'a [Token],
    word: Reserved,
) -> Reading<'a, Items<NamedCondition>>
    ensures { Gives result
        (readers.many_from (kind.Reserved word) (spec.named_condition word) tokens.now) }
{
    let mut parts = Items::new(alloc);
    let mut rest = tokens;
    for _turn in 0..tokens.len() {
        if !begins_with_word(rest, word) {
            return Ok((parts, rest));
        }
        let (part, after) = named_condition(alloc, rest, word)?;
        parts.push(part)?;
        rest = after;
    }
    Ok((parts, rest))
}
