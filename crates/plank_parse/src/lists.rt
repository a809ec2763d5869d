//! Lists of parts.
ghost use Rattle.std.specs.Prelude.{◌≡◌};
ghost use Rattle.plank_lex.specs.declared.tokens.TokenKind.TheVariants as kind;
ghost use Rattle.plank_parse.specs.Gives.{Gives};
ghost use Rattle.plank_parse.specs.Readers as spec;

use crate::front::{begins_with_name, begins_with_symbol, begins_with_word, expect_symbol};
use crate::stops::Reading;
use plank_lex::{Reserved, Symbol, Token};
use sqlite_items::Items;
use std::alloc::Global;

/// A part that may stand in a list.
pub(crate) trait Part: Sized + Drop {
    ghost use Rattle.plank_parse.specs.Readers.{Reader};

    ghost reader: { Reader Self };

    fn read<'a>(alloc: Global, tokens: &'a [Token]) -> Reading<'a, Self>
        ensures { Gives result (reader tokens.now) };
}

/// Parts while the first token is this word.
pub(crate) fn many_from<'a, T: Part>(
    alloc: Global,
    tokens: &'a [Token],
    word: Reserved,
) -> Reading<'a, Items<T>>
    ensures { Gives result (spec.many_from (kind.Reserved word) T.reader tokens.now) }
{
    let mut parts = Items::new(alloc);
    let mut rest = tokens;
    for _turn in 0..tokens.len() {
        if !begins_with_word(rest, word) {
            return Ok((parts, rest));
        }
        let (part, after) = T::read(alloc, rest)?;
        parts.push(part)?;
        rest = after;
    }
    Ok((parts, rest))
}

/// Parts while the first token is a name.
pub(crate) fn many_named<'a, T: Part>(alloc: Global, tokens: &'a [Token]) -> Reading<'a, Items<T>>
    ensures { Gives result (spec.many spec.is_name T.reader tokens.now) }
{
    let mut parts = Items::new(alloc);
    let mut rest = tokens;
    for _turn in 0..tokens.len() {
        if !begins_with_name(rest) {
            return Ok((parts, rest));
        }
        let (part, after) = T::read(alloc, rest)?;
        parts.push(part)?;
        rest = after;
    }
    Ok((parts, rest))
}

/// A part behind this separator.
fn behind<'a, T: Part>(alloc: Global, tokens: &'a [Token], separator: Symbol) -> Reading<'a, T>
    ensures { Gives result (spec.behind (kind.Symbol separator) T.reader tokens.now) }
{
    let (_, rest) = expect_symbol(tokens, separator)?;
    T::read(alloc, rest)
}

/// Parts each behind this separator.
pub(crate) fn each_after<'a, T: Part>(
    alloc: Global,
    tokens: &'a [Token],
    separator: Symbol,
) -> Reading<'a, Items<T>>
    ensures { Gives result (spec.each_after (kind.Symbol separator) T.reader tokens.now) }
{
    let mut parts = Items::new(alloc);
    let mut rest = tokens;
    for _turn in 0..tokens.len() {
        if !begins_with_symbol(rest, separator) {
            return Ok((parts, rest));
        }
        let (part, after) = behind(alloc, rest, separator)?;
        parts.push(part)?;
        rest = after;
    }
    Ok((parts, rest))
}
