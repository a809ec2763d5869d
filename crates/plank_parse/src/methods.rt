//! Methods.
ghost use Rattle.plank_lex.specs.declared.tokens.TokenKind.TheVariants as kind;
ghost use Rattle.plank_lex.specs.declared.words.Reserved.TheVariants as words;
ghost use Rattle.plank_parse.specs.Gives.{Gives};
ghost use Rattle.plank_parse.specs.Readers as readers;
ghost use Rattle.plank_parse.specs.Texts as spec;

use crate::front::{begins_with_word, expect_symbol, expect_word, name};
use crate::lists::{Part, each_after, many_from};
use crate::pieces::{Contents, Signature};
use crate::statements::statements;
use crate::stops::Reading;
use plank_ast::{Method, Methods, Name, Variables};
use plank_base::NESTING_LIMIT;
use plank_lex::{Reserved, Symbol, Token};
use std::alloc::Global;

#[tactic(auto, unfolding(crate::specs::Texts::variables))]
fn variables<'a>(alloc: Global, tokens: &'a [Token]) -> Reading<'a, Variables>
    ensures { Gives result (spec.variables tokens.now) }
{
    let (place, rest) = expect_word(tokens, Reserved::Variable)?;
    let (first, rest) = name(alloc, rest)?;
    let (others, rest) = each_after::<Name>(alloc, rest, Symbol::Comma)?;
    let (_, rest) = expect_symbol(rest, Symbol::Semicolon)?;
    let variables = Variables {
        place,
        first,
        others,
    };
    Ok((variables, rest))
}

/// The line of the variables, where there is one.
fn variables_if_any<'a>(alloc: Global, tokens: &'a [Token]) -> Reading<'a, Option<Variables>>
    ensures { Gives result
        (readers.optional (kind.Reserved words.Variable) spec.variables tokens.now) }
{
    if !begins_with_word(tokens, Reserved::Variable) {
        return Ok((None, tokens));
    }
    let (variables, rest) = variables(alloc, tokens)?;
    Ok((Some(variables), rest))
}

/// The word `as` and a name, where there is one.
fn kind_if_any<'a>(alloc: Global, tokens: &'a [Token]) -> Reading<'a, Option<Name>>
    ensures { Gives result
        (readers.optional (kind.Reserved words.As)
        (readers.behind (kind.Reserved words.As) readers.name) tokens.now) }
{
    if !begins_with_word(tokens, Reserved::As) {
        return Ok((None, tokens));
    }
    let (_, rest) = expect_word(tokens, Reserved::As)?;
    let (kind, rest) = name(alloc, rest)?;
    Ok((Some(kind), rest))
}

/// The argument of a method, with its parentheses.
#[tactic(auto, unfolding(crate::specs::Texts::argument))]
fn argument<'a>(alloc: Global, tokens: &'a [Token]) -> Reading<'a, Name>
    ensures { Gives result (spec.argument tokens.now) }
{
    let (_, rest) = expect_symbol(tokens, Symbol::OpenParenthesis)?;
    let (argument, rest) = name(alloc, rest)?;
    let (_, rest) = expect_symbol(rest, Symbol::CloseParenthesis)?;
    Ok((argument, rest))
}

#[tactic(auto, unfolding(crate::specs::Texts::signature))]
fn signature<'a>(alloc: Global, tokens: &'a [Token]) -> Reading<'a, Signature>
    ensures { Gives result (spec.signature tokens.now) }
{
    let (place, rest) = expect_word(tokens, Reserved::Method)?;
    let (name, rest) = name(alloc, rest)?;
    let (kind, rest) = kind_if_any(alloc, rest)?;
    let (argument, rest) = argument(alloc, rest)?;
    let signature = Signature {
        place,
        name,
        kind,
        argument,
    };
    Ok((signature, rest))
}

/// What a method has in its braces.
#[tactic(auto, unfolding(crate::specs::Texts::contents))]
fn contents<'a>(alloc: Global, tokens: &'a [Token]) -> Reading<'a, Contents>
    ensures { Gives result (spec.contents tokens.now) }
{
    let (_, rest) = expect_symbol(tokens, Symbol::OpenBrace)?;
    let (variables, rest) = variables_if_any(alloc, rest)?;
    let (statements, rest) = statements(alloc, rest, NESTING_LIMIT - 1)?;
    let (end, rest) = expect_symbol(rest, Symbol::CloseBrace)?;
    let contents = Contents {
        variables,
        statements,
        end,
    };
    Ok((contents, rest))
}

impl Part for Method {
    ghost use Rattle.plank_parse.specs.Texts as spec;

    ghost reader = { spec.method };

    #[tactic(auto, unfolding(crate::specs::Texts::method))]
    fn read<'a>(alloc: Global, tokens: &'a [Token]) -> Reading<'a, Method> {
        let (head, rest) = signature(alloc, tokens)?;
        let (inner, rest) = contents(alloc, rest)?;
        let method = Method {
            place: head.place,
            name: head.name,
            kind: head.kind,
            argument: head.argument,
            variables: inner.variables,
            statements: inner.statements,
            end: inner.end,
        };
        Ok((method, rest))
    }
}

/// All methods of a text.
#[tactic(auto, unfolding(crate::specs::Texts::methods))]
pub(crate) fn methods<'a>(alloc: Global, tokens: &'a [Token]) -> Reading<'a, Methods>
    ensures { Gives result (spec.methods tokens.now) }
{
    let (first, rest) = Method::read(alloc, tokens)?;
    let (others, rest) = many_from::<Method>(alloc, rest, Reserved::Method)?;
    Ok((Methods { first, others }, rest))
}
