//! Names, and what stands in their place.
ghost use Rattle.plank_lex.specs.declared.symbols.Symbol.TheVariants as symbols;
ghost use Rattle.plank_lex.specs.declared.tokens.TokenKind.TheVariants as kind;
ghost use Rattle.plank_parse.specs.Gives.{Gives};
ghost use Rattle.plank_parse.specs.Readers as readers;
ghost use Rattle.plank_parse.specs.Conditions as spec;

use crate::front::{begins_with_symbol, expect_symbol, name, peek, take};
use crate::lists::Part;
use crate::stops::{Reading, Stop};
use plank_ast::{Field, Name, Reference, Truth};
use plank_lex::{Reserved, Symbol, Token, TokenKind};
use std::alloc::Global;

#[tactic(auto, unfolding(crate::specs::Conditions::reference))]
pub(crate) fn reference<'a>(alloc: Global, tokens: &'a [Token]) -> Reading<'a, Reference>
    ensures { Gives result (spec.reference tokens.now) }
{
    match peek(tokens)? {
        TokenKind::Reserved(Reserved::Root) => {
            let (place, rest) = take(tokens)?;
            Ok((Reference::Root(place), rest))
        }
        _ => {
            let (name, rest) = name(alloc, tokens)?;
            Ok((Reference::Name(name), rest))
        }
    }
}

/// What stands behind a dot.
#[tactic(auto, unfolding(crate::specs::Conditions::field))]
pub(crate) fn field<'a>(alloc: Global, tokens: &'a [Token]) -> Reading<'a, Field>
    ensures { Gives result (spec.field tokens.now) }
{
    match peek(tokens)? {
        TokenKind::Reserved(Reserved::Key) => {
            let (place, rest) = take(tokens)?;
            Ok((Field::Key(place), rest))
        }
        _ => {
            let (name, rest) = name(alloc, tokens)?;
            Ok((Field::Name(name), rest))
        }
    }
}

/// A dot and a field, where there is a dot.
pub(crate) fn dotted_field<'a>(alloc: Global, tokens: &'a [Token]) -> Reading<'a, Option<Field>>
    ensures { Gives result (spec.dotted spec.field tokens.now) }
{
    if !begins_with_symbol(tokens, Symbol::Dot) {
        return Ok((None, tokens));
    }
    let (_, rest) = expect_symbol(tokens, Symbol::Dot)?;
    let (field, rest) = field(alloc, rest)?;
    Ok((Some(field), rest))
}

/// A dot and a name, where there is a dot.
pub(crate) fn dotted_name<'a>(alloc: Global, tokens: &'a [Token]) -> Reading<'a, Option<Name>>
    ensures { Gives result (spec.dotted readers.name tokens.now) }
{
    if !begins_with_symbol(tokens, Symbol::Dot) {
        return Ok((None, tokens));
    }
    let (_, rest) = expect_symbol(tokens, Symbol::Dot)?;
    let (name, rest) = name(alloc, rest)?;
    Ok((Some(name), rest))
}

/// `true` or `false`.
#[tactic(auto, unfolding(crate::specs::Conditions::truth))]
pub(crate) fn truth<'a>(tokens: &'a [Token]) -> Reading<'a, Truth>
    ensures { Gives result (spec.truth tokens.now) }
{
    let value = match peek(tokens)? {
        TokenKind::Reserved(Reserved::True) => true,
        TokenKind::Reserved(Reserved::False) => false,
        _ => return Err(Stop::Unexpected(tokens)),
    };
    let (place, rest) = take(tokens)?;
    Ok((Truth { value, place }, rest))
}

impl Part for Name {
    ghost use Rattle.plank_parse.specs.Readers as readers;

    ghost reader = { readers.name };

    fn read<'a>(alloc: Global, tokens: &'a [Token]) -> Reading<'a, Name> {
        name(alloc, tokens)
    }
}

impl Part for Reference {
    ghost use Rattle.plank_parse.specs.Conditions as spec;

    ghost reader = { spec.reference };

    fn read<'a>(alloc: Global, tokens: &'a [Token]) -> Reading<'a, Reference> {
        reference(alloc, tokens)
    }
}
