ghost use Rattle.std.specs.Prelude.{◌≡◌, ◌≤◌, ◌<◌, ◌+◌, ◌^◌, [], ◌∷◌, ◌++◌, length, Ok, MatchResult, IfOk, OnOk};
ghost use Rattle.plank_lex.specs.Places.{after, place_after};
ghost use Rattle.plank_lex.specs.Tokens.{tokens_of, tokens_in, IsFaultOf, IsTokenList};

use crate::faults::LexFault;
use crate::lexemes::{Lexeme, LexemeKind, front};
use crate::tokens::{Token, TokenKind};
use plank_base::{BYTES_LIMIT, Label, OutOfMemory, Place};
use std::alloc::Global;

/// The place after a byte at `place`.
fn next_place(place: Place, byte: u8) -> Place
    requires line { place.line + 1 < 2 ^ 32 }
    requires column { place.column + 1 < 2 ^ 32 }
    requires byte { place.byte + 1 < 2 ^ 32 }
    ensures { result ≡ after place byte }
{
    if byte == b'\n' {
        return Place {
            line: place.line + 1,
            column: 1,
            byte: place.byte + 1,
        };
    }
    Place {
        line: place.line,
        column: place.column + 1,
        byte: place.byte + 1,
    }
}

/// The place after these bytes, the first of which is at `place`.
fn moved(place: Place, bytes: &[u8]) -> Place
    requires line { place.line + length bytes.now < 2 ^ 32 }
    requires column { place.column + length bytes.now < 2 ^ 32 }
    requires byte { place.byte + length bytes.now < 2 ^ 32 }
    ensures { result ≡ place_after place bytes.now }
{
    let mut at = place;
    for byte in bytes {
        at = next_place(at, *byte);
    }
    at
}

/// Adds a token at the end of the list.
fn push(
    tokens: &mut Vec<Token>,
    kind: TokenKind,
    place: Place,
    length: u32,
) -> Result<(), OutOfMemory>
    ensures { OnOk result (tokens.new.items
        ≡ tokens.old.items ++ (record { kind = kind; place = place; length = length }) ∷ []) }
{
    match tokens.push(Token {
        kind,
        place,
        length,
    }) {
        Ok(()) => Ok(()),
        Err(_) => Err(OutOfMemory),
    }
}

/// Adds the token that a lexeme of these bytes is, or nothing for a gap.
fn push_lexeme(
    alloc: Global,
    tokens: &mut Vec<Token>,
    place: Place,
    found: Lexeme,
    bytes: &[u8],
) -> Result<(), OutOfMemory>
    requires fits { found.length < 2 ^ 32 }
    requires whole { length bytes.now ≡ found.length }
    ensures { OnOk result (tokens.new.items ≡ tokens.old.items ++ tokens_in place bytes.now found) }
{
    let kind = match found.kind {
        LexemeKind::Gap => return Ok(()),
        LexemeKind::Symbol(symbol) => TokenKind::Symbol(symbol),
        LexemeKind::Reserved(word) => TokenKind::Reserved(word),
        LexemeKind::Name => TokenKind::Name(Label::new(alloc, bytes)?),
    };
    push(tokens, kind, place, found.length as u32)
}

/// The tokens of a text, the last of which is its one `End`.
///
/// Blanks, tabs, carriage returns, line feeds and comments separate tokens and are dropped. A fault
/// tells the first byte that begins no token. Takes time in the length of the text.
pub fn lex(alloc: Global, text: &[u8]) -> Result<Vec<Token>, LexFault>
    requires { length text.now ≤ BYTES_LIMIT }
    ensures exact { MatchResult result
        (λ tokens. tokens_of text.now ≡ Ok tokens.items)
        (IsFaultOf (tokens_of text.now)) }
    ensures tokens { IfOk result (λ tokens. IsTokenList tokens.items) }
{
    let mut tokens = Vec::new(alloc);
    let mut place = Place {
        line: 1,
        column: 1,
        byte: 0,
    };
    let mut rest = text;
    while !rest.is_empty() {
        let Some(found) = front(rest) else {
            return Err(LexFault::BadByte(place));
        };
        let (bytes, after) = rest.split_at(found.length);
        push_lexeme(alloc, &mut tokens, place, found, bytes)?;
        place = moved(place, bytes);
        rest = after;
    }
    push(&mut tokens, TokenKind::End, place, 0)?;
    Ok(tokens)
}
