//! One token: the first of those that are left.
ghost use Rattle.std.specs.Prelude.{◌≡◌, [], ◌∷◌, MatchOption};
ghost use Rattle.plank_lex.specs.declared.tokens.TokenKind.TheVariants as kind;
ghost use Rattle.plank_parse.specs.Gives.{Gives, Peeks};
ghost use Rattle.plank_parse.specs.Readers as spec;

use crate::stops::{Reading, Stop};
use plank_ast::Name;
use plank_base::{Label, Place};
use plank_lex::{Reserved, Symbol, Token, TokenKind};
use std::alloc::Global;

/// The first token, and those after it.
fn split<'a>(tokens: &'a [Token]) -> Option<(&'a Token, &'a [Token])>
    ensures { MatchOption result (tokens.now ≡ []) (λ p. tokens.now ≡ p.0.now ∷ p.1.now) }
{
    match tokens {
        [first, rest @ ..] => Some((first, rest)),
        [] => None,
    }
}

/// The kind of the first token.
pub(crate) fn peek<'a>(tokens: &'a [Token]) -> Result<&'a TokenKind, Stop<'a>>
    ensures { Peeks result tokens.now }
{
    match split(tokens) {
        Some((first, _)) => Ok(&first.kind),
        None => Err(Stop::Unexpected(tokens)),
    }
}

/// Takes the first token, whatever it is.
pub(crate) fn take<'a>(tokens: &'a [Token]) -> Reading<'a, Place>
    ensures { Gives result (spec.taken tokens.now) }
{
    match split(tokens) {
        Some((first, rest)) => Ok((first.place, rest)),
        None => Err(Stop::Unexpected(tokens)),
    }
}

/// Takes this symbol.
pub(crate) fn expect_symbol<'a>(tokens: &'a [Token], symbol: Symbol) -> Reading<'a, Place>
    ensures { Gives result (spec.symbol symbol tokens.now) }
{
    let Some((first, rest)) = split(tokens) else {
        return Err(Stop::Unexpected(tokens));
    };
    if first.kind.is_symbol(symbol) {
        Ok((first.place, rest))
    } else {
        Err(Stop::Unexpected(tokens))
    }
}

/// Takes this reserved word.
pub(crate) fn expect_word<'a>(tokens: &'a [Token], word: Reserved) -> Reading<'a, Place>
    ensures { Gives result (spec.word word tokens.now) }
{
    let Some((first, rest)) = split(tokens) else {
        return Err(Stop::Unexpected(tokens));
    };
    if first.kind.is_reserved(word) {
        Ok((first.place, rest))
    } else {
        Err(Stop::Unexpected(tokens))
    }
}

/// Takes the end of the text.
pub(crate) fn expect_end<'a>(tokens: &'a [Token]) -> Reading<'a, Place>
    ensures { Gives result (spec.expected kind.End tokens.now) }
{
    let Some((first, rest)) = split(tokens) else {
        return Err(Stop::Unexpected(tokens));
    };
    match &first.kind {
        TokenKind::End => Ok((first.place, rest)),
        _ => Err(Stop::Unexpected(tokens)),
    }
}

/// Takes a name.
pub(crate) fn name<'a>(alloc: Global, tokens: &'a [Token]) -> Reading<'a, Name>
    ensures { Gives result (spec.name tokens.now) }
{
    let Some((first, rest)) = split(tokens) else {
        return Err(Stop::Unexpected(tokens));
    };
    match &first.kind {
        TokenKind::Name(label) => {
            let label = Label::new(alloc, label.as_bytes())?;
            let place = first.place;
            Ok((Name { label, place }, rest))
        }
        _ => Err(Stop::Unexpected(tokens)),
    }
}

/// Whether the first token is this symbol.
pub(crate) fn begins_with_symbol(tokens: &[Token], symbol: Symbol) -> bool
    ensures { result ≡ spec.begins (spec.is_kind (kind.Symbol symbol)) tokens.now }
{
    match split(tokens) {
        Some((first, _)) => first.kind.is_symbol(symbol),
        None => false,
    }
}

/// Whether the first token is this reserved word.
pub(crate) fn begins_with_word(tokens: &[Token], word: Reserved) -> bool
    ensures { result ≡ spec.begins (spec.is_kind (kind.Reserved word)) tokens.now }
{
    match split(tokens) {
        Some((first, _)) => first.kind.is_reserved(word),
        None => false,
    }
}

/// Whether the first token is a name.
pub(crate) fn begins_with_name(tokens: &[Token]) -> bool
    ensures { result ≡ spec.begins spec.is_name tokens.now }
{
    match split(tokens) {
        Some((first, _)) => matches!(&first.kind, TokenKind::Name(_)),
        None => false,
    }
}

/// Whether there is a first token, and it is another than this symbol.
pub(crate) fn goes_on_before(tokens: &[Token], symbol: Symbol) -> bool
    ensures { result ≡ spec.begins (spec.is_other (kind.Symbol symbol)) tokens.now }
{
    match split(tokens) {
        Some((first, _)) => !first.kind.is_symbol(symbol),
        None => false,
    }
}

/// Opens no bracket, where no more may be open: it is one too many, or it is no bracket.
pub(crate) fn blocked<'a, T: Drop>(tokens: &'a [Token], bracket: Symbol) -> Reading<'a, T>
    ensures { Gives result (spec.blocked bracket tokens.now) }
{
    if begins_with_symbol(tokens, bracket) {
        Err(Stop::TooDeep(tokens))
    } else {
        Err(Stop::Unexpected(tokens))
    }
}

/// Takes an opening bracket, where so many may still be opened.
pub(crate) fn open<'a>(tokens: &'a [Token], levels: u32, bracket: Symbol) -> Reading<'a, Place>
    ensures { Gives result (spec.opening levels bracket tokens.now) }
{
    if levels == 0 {
        return blocked(tokens, bracket);
    }
    expect_symbol(tokens, bracket)
}
