ghost use Rattle.std.specs.Prelude.{◌≡◌, false, true, IfOk};
ghost use Rattle.plank_type.specs.Conditions.{relation_of, is_equality, asked_field, asked_part, asked_of, condition_compared, condition_alone, condition_ended, atom_condition, negated_condition, condition_of, conjunction_of, literal_of};

use crate::names::Numbers;
use plank_ast::{
    Atom, AtomEnd, Comparison, Condition as ConditionTree, Conjunction, Field, Literal, Name,
    Operand,
};
use plank_base::OutOfMemory;
use plank_prog::{Condition, KeyRelation, KeyTerm};
use sqlite_items::Items;
use std::alloc::Global;

/// What an operand of a header condition asks for.
#[derive(Clone, Copy, Debug, PartialEq, Eq)]
pub(crate) enum Asked {
    Flag(u8),
    Pointer(u8),
    Null,
    Key(KeyTerm),
    /// A field that is not declared.
    Nothing,
}

pub(crate) fn relation_of(comparison: Comparison) -> KeyRelation
    ensures { result ≡ relation_of comparison }
{
    match comparison {
        Comparison::Equal => KeyRelation::Equal,
        Comparison::NotEqual => KeyRelation::NotEqual,
        Comparison::Less => KeyRelation::Less,
        Comparison::AtMost => KeyRelation::AtMost,
    }
}

/// Whether what is compared is to be equal; flags and pointers have no order.
pub(crate) fn is_equality(comparison: Comparison) -> bool
    ensures { result ≡ is_equality comparison }
{
    match comparison {
        Comparison::Equal => true,
        Comparison::NotEqual => false,
        Comparison::Less => false,
        Comparison::AtMost => false,
    }
}

// A field of the node.
fn asked_field(names: &Numbers<'_>, field: &Name) -> Asked
    ensures { result ≡ asked_field names.now field.now }
{
    match names.flag(&field.label) {
        Some(flag) => Asked::Flag(flag),
        None => match names.pointer(&field.label) {
            Some(pointer) => Asked::Pointer(pointer),
            None => Asked::Nothing,
        },
    }
}

// Only the walked key stands alone, and only the node before a dot.
fn asked_part(names: &Numbers<'_>, field: &Option<Field>) -> Asked
    ensures { result ≡ asked_part names.now field.now }
{
    match field {
        None => Asked::Key(KeyTerm::Walked),
        Some(Field::Key(_)) => Asked::Key(KeyTerm::Node),
        Some(Field::Name(name)) => asked_field(names, name),
    }
}

fn asked_of(names: &Numbers<'_>, operand: &Operand) -> Asked
    ensures { result ≡ asked_of names.now operand.now }
{
    match operand {
        Operand::Node { field, .. } => asked_part(names, field),
        Operand::Min(_) => Asked::Key(KeyTerm::Min),
        Operand::Max(_) => Asked::Key(KeyTerm::Max),
        Operand::Null(_) => Asked::Null,
    }
}

fn condition_compared(first: Asked, comparison: Comparison, second: Asked) -> Condition
    ensures { result ≡ condition_compared first comparison second }
{
    let equal = is_equality(comparison);
    match (first, second) {
        (Asked::Flag(left), Asked::Flag(right)) => Condition::Flags { left, right, equal },
        (Asked::Pointer(pointer), Asked::Null) => Condition::Pointer {
            pointer,
            null: equal,
        },
        (Asked::Null, Asked::Pointer(pointer)) => Condition::Pointer {
            pointer,
            null: equal,
        },
        (Asked::Null, Asked::Null) => Condition::Constant(equal),
        (Asked::Key(left), Asked::Key(right)) => Condition::Keys {
            left,
            relation: relation_of(comparison),
            right,
        },
        _ => Condition::Constant(false),
    }
}

// A flag alone, which the node is to have or not to have.
fn condition_alone(set: bool, asked: Asked) -> Condition
    ensures { result ≡ condition_alone set asked }
{
    match asked {
        Asked::Flag(flag) => Condition::Flag { flag, set },
        Asked::Pointer(_) => Condition::Constant(false),
        Asked::Null => Condition::Constant(false),
        Asked::Key(_) => Condition::Constant(false),
        Asked::Nothing => Condition::Constant(false),
    }
}

fn condition_ended(names: &Numbers<'_>, first: Asked, end: &AtomEnd) -> Condition
    ensures { result ≡ condition_ended names.now first end.now }
{
    match end {
        AtomEnd::Nothing => condition_alone(true, first),
        AtomEnd::Compared {
            comparison,
            operand,
            ..
        } => condition_compared(first, *comparison, asked_of(names, operand)),
        AtomEnd::In { .. } => Condition::Visited,
    }
}

fn atom_condition(names: &Numbers<'_>, atom: &Atom) -> Condition
    ensures { result ≡ atom_condition names.now atom.now }
{
    let first = asked_of(names, &atom.operand);
    condition_ended(names, first, &atom.end)
}

fn negated_condition(names: &Numbers<'_>, field: &Name) -> Condition
    ensures { result ≡ negated_condition names.now field.now }
{
    condition_alone(false, asked_field(names, field))
}

/// A condition of a header, with numbers in the place of names.
#[cycle(conditions)]
pub(crate) fn condition_of(
    alloc: Global,
    names: &Numbers<'_>,
    condition: &ConditionTree,
) -> Result<Condition, OutOfMemory>
    ensures { IfOk result (λ c. c ≡ condition_of names.now condition.now) }
{
    let mut parts = Items::new(alloc);
    parts.push(conjunction_of(alloc, names, &condition.first)?)?;
    for conjunction in condition.others.as_slice() {
        parts.push(conjunction_of(alloc, names, conjunction)?)?;
    }
    Ok(Condition::Any(parts))
}

#[cycle(conditions)]
fn conjunction_of(
    alloc: Global,
    names: &Numbers<'_>,
    conjunction: &Conjunction,
) -> Result<Condition, OutOfMemory>
    ensures { IfOk result (λ c. c ≡ conjunction_of names.now conjunction.now) }
{
    let mut parts = Items::new(alloc);
    parts.push(literal_of(alloc, names, &conjunction.first)?)?;
    for literal in conjunction.others.as_slice() {
        parts.push(literal_of(alloc, names, literal)?)?;
    }
    Ok(Condition::All(parts))
}

#[cycle(conditions)]
fn literal_of(
    alloc: Global,
    names: &Numbers<'_>,
    literal: &Literal,
) -> Result<Condition, OutOfMemory>
    ensures { IfOk result (λ c. c ≡ literal_of names.now literal.now) }
{
    match literal {
        Literal::True(_) => Ok(Condition::Constant(true)),
        Literal::False(_) => Ok(Condition::Constant(false)),
        Literal::Group { inner, .. } => condition_of(alloc, names, inner.get()),
        Literal::Not { field, .. } => Ok(negated_condition(names, field)),
        Literal::Atom(atom) => Ok(atom_condition(names, atom)),
    }
}
