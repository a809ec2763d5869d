//! The parts of whole texts.
ghost use Rattle.plank_lex.specs.declared.tokens.TokenKind.TheVariants as kind;
ghost use Rattle.plank_lex.specs.declared.words.Reserved.TheVariants as words;
ghost use Rattle.plank_parse.specs.Gives.{Gives, GivesBy};
ghost use Rattle.plank_parse.specs.Readers as readers;
ghost use Rattle.plank_parse.specs.Header as header;
ghost use Rattle.plank_parse.specs.Texts as spec;

use crate::front::{begins_with_word, expect_end, expect_symbol, expect_word, name};
use crate::header::{condition_line, named_conditions};
use crate::lists::many_from;
use crate::methods::methods;
use crate::pieces::{Conditions, Declarations};
use crate::stops::Reading;
use plank_ast::{ConditionLine, FlagLine, Methods, Name, PointerLine, RootLine, StartLine};
use plank_base::Place;
use plank_lex::{Reserved, Symbol, Token};
use std::alloc::Global;

/// The line of the structure's name.
#[tactic(auto, unfolding(crate::specs::Texts::structure_line))]
fn structure_line<'a>(alloc: Global, tokens: &'a [Token]) -> Reading<'a, (Place, Name)>
    ensures { Gives result (spec.structure_line tokens.now) }
{
    let (place, rest) = expect_word(tokens, Reserved::Structure)?;
    let (name, rest) = name(alloc, rest)?;
    let (_, rest) = expect_symbol(rest, Symbol::Semicolon)?;
    Ok(((place, name), rest))
}

#[tactic(auto, unfolding(crate::specs::Texts::lock_line))]
fn lock_line<'a>(tokens: &'a [Token]) -> Reading<'a, Place>
    ensures { Gives result (spec.lock_line tokens.now) }
{
    let (place, rest) = expect_word(tokens, Reserved::Lock)?;
    let (_, rest) = expect_symbol(rest, Symbol::Semicolon)?;
    Ok((place, rest))
}

/// The line `lock;`, where there is one.
fn lock_if_any<'a>(tokens: &'a [Token]) -> Reading<'a, Option<Place>>
    ensures { Gives result (readers.optional (kind.Reserved words.Lock) spec.lock_line tokens.now) }
{
    if !begins_with_word(tokens, Reserved::Lock) {
        return Ok((None, tokens));
    }
    let (place, rest) = lock_line(tokens)?;
    Ok((Some(place), rest))
}

/// The line of `freeze`, where there is one.
fn freeze_if_any<'a>(alloc: Global, tokens: &'a [Token]) -> Reading<'a, Option<ConditionLine>>
    ensures { Gives result
        (readers.optional (kind.Reserved words.Freeze)
        (header.condition_line words.Freeze) tokens.now) }
{
    if !begins_with_word(tokens, Reserved::Freeze) {
        return Ok((None, tokens));
    }
    let (line, rest) = condition_line(alloc, tokens, Reserved::Freeze)?;
    Ok((Some(line), rest))
}

/// The lines that declare the fields, the root and the start nodes.
#[tactic(auto, unfolding(crate::specs::Texts::declarations))]
fn declarations<'a>(alloc: Global, tokens: &'a [Token]) -> Reading<'a, Declarations>
    ensures { Gives result (spec.declarations tokens.now) }
{
    let ((place, structure), rest) = structure_line(alloc, tokens)?;
    let (flags, rest) = many_from::<FlagLine>(alloc, rest, Reserved::Flag)?;
    let (pointers, rest) = many_from::<PointerLine>(alloc, rest, Reserved::Pointer)?;
    let (lock, rest) = lock_if_any(rest)?;
    let (roots, rest) = many_from::<RootLine>(alloc, rest, Reserved::Root)?;
    let (starts, rest) = many_from::<StartLine>(alloc, rest, Reserved::Start)?;
    let declarations = Declarations {
        place,
        structure,
        flags,
        pointers,
        lock,
        roots,
        starts,
    };
    Ok((declarations, rest))
}

/// The lines of the conditions.
#[tactic(auto, unfolding(crate::specs::Texts::conditions))]
fn conditions<'a>(alloc: Global, tokens: &'a [Token]) -> Reading<'a, Conditions>
    ensures { Gives result (spec.conditions tokens.now) }
{
    let (edges, rest) = named_conditions(alloc, tokens, Reserved::Edge)?;
    let (holds, rest) = condition_line(alloc, rest, Reserved::Holds)?;
    let (keeps, rest) = named_conditions(alloc, rest, Reserved::Keep)?;
    let (freeze, rest) = freeze_if_any(alloc, rest)?;
    let conditions = Conditions {
        edges,
        holds,
        keeps,
        freeze,
    };
    Ok((conditions, rest))
}

/// A whole text, up to and with the end.
#[tactic(auto, unfolding(crate::specs::Texts::text))]
pub(crate) fn text<'a>(
    alloc: Global,
    tokens: &'a [Token],
) -> Reading<'a, (Declarations, Conditions, Methods)>
    ensures { GivesBy (λ x. spec.joined x.0 x.1 x.2) result (spec.text tokens.now) }
{
    let (declarations, rest) = declarations(alloc, tokens)?;
    let (conditions, rest) = conditions(alloc, rest)?;
    let (methods, rest) = methods(alloc, rest)?;
    let (_, rest) = expect_end(rest)?;
    Ok(((declarations, conditions, methods), rest))
}
