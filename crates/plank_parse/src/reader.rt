//! The reader of whole lists of tokens.
ghost use Rattle.std.specs.Prelude.{◌≡◌, true, ◌<◌, length, MatchResult, IfOk, IfErr};
ghost use Rattle.plank_lex.specs.Tokens.{IsTokenList};
ghost use Rattle.plank_ast.specs.Spelling.{is_lawful};
ghost use Rattle.plank_parse.specs.Texts.{reading_of, joined, parts_of, parts_spelling};
ghost use Rattle.plank_parse.specs.Placing.{StandAt, text_places};
ghost use Rattle.plank_parse.specs.Outcomes.{StandsAt, IsReadingOf, IsFaultOf};
ghost use Rattle.plank_parse.specs.Grammar.{Spells, IsRefusal, IsReadUnlessMemory};

use crate::faults::ParseFault;
use crate::pieces::{Conditions, Declarations};
use crate::stops::Stop;
use crate::texts::text;
use plank_ast::{Methods, Text};
use plank_base::Place;
use plank_lex::Token;
use std::alloc::Global;

/// The text that these pieces make.
fn assembled(declarations: Declarations, conditions: Conditions, methods: Methods) -> Text
    requires { is_lawful (parts_spelling (joined declarations conditions methods)) ≡ true }
    ensures { parts_of result ≡ joined declarations conditions methods }
{
    Text {
        place: declarations.place,
        structure: declarations.structure,
        flags: declarations.flags,
        pointers: declarations.pointers,
        lock: declarations.lock,
        roots: declarations.roots,
        starts: declarations.starts,
        edges: conditions.edges,
        holds: conditions.holds,
        keeps: conditions.keeps,
        freeze: conditions.freeze,
        methods,
    }
}

/// The place of the first token.
fn first_place(tokens: &[Token]) -> Place
    requires { 0 < length tokens.now }
    ensures { StandsAt result tokens.now }
{
    tokens[0].place
}

/// The tree of a text's tokens, or the first fault.
///
/// Takes time in the number of the tokens, and stack in proportion to the limit on open brackets.
#[tactic(auto, unfolding(crate::specs::Texts::reading_of))]
pub fn parse(alloc: Global, tokens: &[Token]) -> Result<Text, ParseFault>
    requires { IsTokenList tokens.now }
    ensures exact { MatchResult result
        (IsReadingOf (reading_of tokens.now))
        (IsFaultOf (reading_of tokens.now)) }
    ensures found { IfOk result (Spells tokens.now) }
    ensures refused { IfErr result (IsRefusal tokens.now) }
    ensures only { (t : Text) → Spells tokens.now t → IsReadUnlessMemory result }
    ensures placed { IfOk result (λ t. StandAt (text_places (parts_of t)) tokens.now) }
{
    match text(alloc, tokens) {
        Ok(((declarations, conditions, methods), _)) => {
            Ok(assembled(declarations, conditions, methods))
        }
        Err(Stop::Unexpected(rest)) => Err(ParseFault::Unexpected(first_place(rest))),
        Err(Stop::TooDeep(rest)) => Err(ParseFault::TooDeep(first_place(rest))),
        Err(Stop::OutOfMemory) => Err(ParseFault::OutOfMemory),
    }
}
