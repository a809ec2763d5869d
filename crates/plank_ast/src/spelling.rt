//! From the tree to the tokens that spell it, part by part.
ghost use Rattle.std.specs.Prelude.{◌≡◌, ◌++◌, [], ◌∷◌, OnOk};
ghost use Rattle.std.specs.List.{flat_map};
ghost use Rattle.plank_lex.specs.declared.tokens.TokenKind.TheVariants as kind;
ghost use Rattle.plank_lex.specs.declared.symbols.Symbol.TheVariants as symbol;
ghost use Rattle.plank_ast.specs.Spelled.{Adds};
ghost use Rattle.plank_ast.specs.Spelling.{mark, keyword, name_tokens, reference_tokens, field_tokens, truth_tokens, operand_tokens, atom_end_tokens, atom_tokens, comparison_symbol};

use crate::conditions::{Atom, AtomEnd, Comparison, Operand};
use crate::names::{Field, Name, Reference, Truth};
use plank_base::OutOfMemory;
use plank_lex::{Reserved, Symbol};
use std::alloc::AllocError;

/// A token that is to be printed.
#[derive(Clone, Copy, Debug)]
pub(crate) enum Spelled<'a> {
    Symbol(Symbol),
    Reserved(Reserved),
    Name(&'a [u8]),
}

fn add<'a>(out: &mut Vec<Spelled<'a>>, token: Spelled<'a>) -> Result<(), OutOfMemory>
    ensures { OnOk result (out.new.items ≡ out.old.items ++ token.entry ∷ []) }
{
    match out.push(token) {
        Ok(()) => Ok(()),
        Err(_) => Err(OutOfMemory),
    }
}

pub(crate) fn add_mark(out: &mut Vec<Spelled<'_>>, symbol: Symbol) -> Result<(), OutOfMemory>
    ensures { OnOk result (Adds out.old.items out.new.items (mark symbol)) }
{
    add(out, Spelled::Symbol(symbol))
}

pub(crate) fn add_word(out: &mut Vec<Spelled<'_>>, word: Reserved) -> Result<(), OutOfMemory>
    ensures { OnOk result (Adds out.old.items out.new.items (keyword word)) }
{
    add(out, Spelled::Reserved(word))
}

pub(crate) fn add_name<'a>(out: &mut Vec<Spelled<'a>>, name: &'a Name) -> Result<(), OutOfMemory>
    ensures { OnOk result (Adds out.old.items out.new.items (name_tokens name.now)) }
{
    add(out, Spelled::Name(name.label.as_bytes()))
}

pub(crate) fn add_reference<'a>(
    out: &mut Vec<Spelled<'a>>,
    reference: &'a Reference,
) -> Result<(), OutOfMemory>
    ensures { OnOk result (Adds out.old.items out.new.items (reference_tokens reference.now)) }
{
    match reference {
        Reference::Root(_) => add_word(out, Reserved::Root),
        Reference::Name(name) => add_name(out, name),
    }
}

fn add_field<'a>(out: &mut Vec<Spelled<'a>>, field: &'a Field) -> Result<(), OutOfMemory>
    ensures { OnOk result (Adds out.old.items out.new.items (field_tokens field.now)) }
{
    match field {
        Field::Name(name) => add_name(out, name),
        Field::Key(_) => add_word(out, Reserved::Key),
    }
}

pub(crate) fn add_truth(out: &mut Vec<Spelled<'_>>, truth: Truth) -> Result<(), OutOfMemory>
    ensures { OnOk result (Adds out.old.items out.new.items (truth_tokens truth)) }
{
    if truth.value {
        add_word(out, Reserved::True)
    } else {
        add_word(out, Reserved::False)
    }
}

fn add_operand<'a>(out: &mut Vec<Spelled<'a>>, operand: &'a Operand) -> Result<(), OutOfMemory>
    ensures { OnOk result (Adds out.old.items out.new.items (operand_tokens operand.now)) }
{
    match operand {
        Operand::Node { node, field: None } => add_reference(out, node),
        Operand::Node {
            node,
            field: Some(field),
        } => {
            add_reference(out, node)?;
            add_mark(out, Symbol::Dot)?;
            add_field(out, field)
        }
        Operand::Min(_) => add_word(out, Reserved::Min),
        Operand::Max(_) => add_word(out, Reserved::Max),
        Operand::Null(_) => add_word(out, Reserved::Null),
    }
}

fn comparison_symbol(comparison: Comparison) -> Symbol
    ensures { result ≡ comparison_symbol comparison }
{
    match comparison {
        Comparison::Equal => Symbol::Equal,
        Comparison::NotEqual => Symbol::NotEqual,
        Comparison::Less => Symbol::Less,
        Comparison::AtMost => Symbol::AtMost,
    }
}

fn add_atom_end<'a>(out: &mut Vec<Spelled<'a>>, end: &'a AtomEnd) -> Result<(), OutOfMemory>
    ensures { OnOk result (Adds out.old.items out.new.items (atom_end_tokens end.now)) }
{
    match end {
        AtomEnd::Nothing => Ok(()),
        AtomEnd::Compared {
            comparison,
            operand,
            ..
        } => {
            add_mark(out, comparison_symbol(*comparison))?;
            add_operand(out, operand)
        }
        AtomEnd::In { node, .. } => {
            add_word(out, Reserved::In)?;
            add_name(out, node)
        }
    }
}

pub(crate) fn add_atom<'a>(out: &mut Vec<Spelled<'a>>, atom: &'a Atom) -> Result<(), OutOfMemory>
    ensures { OnOk result (Adds out.old.items out.new.items (atom_tokens atom.now)) }
{
    add_operand(out, &atom.operand)?;
    add_atom_end(out, &atom.end)
}
