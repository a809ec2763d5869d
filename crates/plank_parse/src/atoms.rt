//! Operands and atoms.
ghost use Rattle.plank_parse.specs.Gives.{Gives};
ghost use Rattle.plank_parse.specs.Conditions as spec;

use crate::front::{name, peek, take};
use crate::names::{dotted_field, reference};
use crate::stops::Reading;
use plank_ast::{Atom, AtomEnd, Comparison, Operand};
use plank_lex::{Reserved, Symbol, Token, TokenKind};
use std::alloc::Global;

/// A node, alone or with one of its fields.
#[tactic(auto, unfolding(crate::specs::Conditions::node_operand))]
fn node_operand<'a>(alloc: Global, tokens: &'a [Token]) -> Reading<'a, Operand>
    ensures { Gives result (spec.node_operand tokens.now) }
{
    let (node, rest) = reference(alloc, tokens)?;
    let (field, rest) = dotted_field(alloc, rest)?;
    Ok((Operand::Node { node, field }, rest))
}

#[tactic(auto, unfolding(crate::specs::Conditions::operand))]
fn operand<'a>(alloc: Global, tokens: &'a [Token]) -> Reading<'a, Operand>
    ensures { Gives result (spec.operand tokens.now) }
{
    match peek(tokens)? {
        TokenKind::Reserved(Reserved::Min) => {
            let (place, rest) = take(tokens)?;
            Ok((Operand::Min(place), rest))
        }
        TokenKind::Reserved(Reserved::Max) => {
            let (place, rest) = take(tokens)?;
            Ok((Operand::Max(place), rest))
        }
        TokenKind::Reserved(Reserved::Null) => {
            let (place, rest) = take(tokens)?;
            Ok((Operand::Null(place), rest))
        }
        _ => node_operand(alloc, tokens),
    }
}

/// The symbol of a comparison, which is taken, and the second operand.
#[tactic(auto, unfolding(crate::specs::Conditions::compared))]
fn compared<'a>(alloc: Global, tokens: &'a [Token], comparison: Comparison) -> Reading<'a, AtomEnd>
    ensures { Gives result (spec.compared comparison tokens.now) }
{
    let (place, rest) = take(tokens)?;
    let (operand, rest) = operand(alloc, rest)?;
    let end = AtomEnd::Compared {
        comparison,
        place,
        operand,
    };
    Ok((end, rest))
}

/// The word `in`, which is taken, and a name.
#[tactic(auto, unfolding(crate::specs::Conditions::membership))]
fn membership<'a>(alloc: Global, tokens: &'a [Token]) -> Reading<'a, AtomEnd>
    ensures { Gives result (spec.membership tokens.now) }
{
    let (place, rest) = take(tokens)?;
    let (node, rest) = name(alloc, rest)?;
    Ok((AtomEnd::In { place, node }, rest))
}

/// What follows the first operand of an atom.
#[tactic(auto, unfolding(crate::specs::Conditions::atom_end))]
fn atom_end<'a>(alloc: Global, tokens: &'a [Token]) -> Reading<'a, AtomEnd>
    ensures { Gives result (spec.atom_end tokens.now) }
{
    match peek(tokens)? {
        TokenKind::Symbol(Symbol::Equal) => compared(alloc, tokens, Comparison::Equal),
        TokenKind::Symbol(Symbol::NotEqual) => compared(alloc, tokens, Comparison::NotEqual),
        TokenKind::Symbol(Symbol::Less) => compared(alloc, tokens, Comparison::Less),
        TokenKind::Symbol(Symbol::AtMost) => compared(alloc, tokens, Comparison::AtMost),
        TokenKind::Reserved(Reserved::In) => membership(alloc, tokens),
        _ => Ok((AtomEnd::Nothing, tokens)),
    }
}

#[tactic(auto, unfolding(crate::specs::Conditions::atom))]
pub(crate) fn atom<'a>(alloc: Global, tokens: &'a [Token]) -> Reading<'a, Atom>
    ensures { Gives result (spec.atom tokens.now) }
{
    let (operand, rest) = operand(alloc, tokens)?;
    let (end, rest) = atom_end(alloc, rest)?;
    Ok((Atom { operand, end }, rest))
}
