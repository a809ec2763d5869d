//! The rules on conditions of the header.
ghost use Rattle.plank_rules.specs.Faults.{Adds};
ghost use Rattle.plank_rules.specs.Conditions as spec;

use crate::atoms::add_atom_rules;
use crate::findings::Findings;
use crate::meanings::{add_no_flag, add_unknown_field_name, add_unknown_name, dotted};
use crate::names::Declared;
use crate::scopes::Scope;
use plank_ast::{Condition, Conjunction, Literal, Name};

/// `!` before what is no flag of the node.
fn add_negation_rules(
    found: &mut Findings,
    header: &Declared<'_>,
    scope: &Scope<'_>,
    node: &Name,
    field: &Name,
)
    ensures { Adds found.old found.new
        (spec.negation_rules header.now scope.now node.now field.now) }
{
    add_unknown_name(found, scope, node);
    add_unknown_field_name(found, header, field);
    let meaning = dotted(
        scope.setting,
        scope.name_meaning(node),
        header.label_meaning(field),
    );
    add_no_flag(found, meaning, node.place)
}

#[cycle(conditions)]
pub(crate) fn add_condition_rules(
    found: &mut Findings,
    header: &Declared<'_>,
    scope: &Scope<'_>,
    condition: &Condition,
)
    ensures { Adds found.old found.new
        (spec.condition_rules header.now scope.now condition.now) }
{
    add_conjunction_rules(found, header, scope, &condition.first);
    for conjunction in condition.others.as_slice() {
        add_conjunction_rules(found, header, scope, conjunction);
    }
}

#[cycle(conditions)]
fn add_conjunction_rules(
    found: &mut Findings,
    header: &Declared<'_>,
    scope: &Scope<'_>,
    conjunction: &Conjunction,
)
    ensures { Adds found.old found.new
        (spec.conjunction_rules header.now scope.now conjunction.now) }
{
    add_literal_rules(found, header, scope, &conjunction.first);
    for literal in conjunction.others.as_slice() {
        add_literal_rules(found, header, scope, literal);
    }
}

#[cycle(conditions)]
fn add_literal_rules(
    found: &mut Findings,
    header: &Declared<'_>,
    scope: &Scope<'_>,
    literal: &Literal,
)
    ensures { Adds found.old found.new
        (spec.literal_rules header.now scope.now literal.now) }
{
    match literal {
        Literal::True(_) | Literal::False(_) => {}
        Literal::Group { inner, .. } => add_condition_rules(found, header, scope, inner.get()),
        Literal::Not { node, field, .. } => add_negation_rules(found, header, scope, node, field),
        Literal::Atom(atom) => add_atom_rules(found, header, scope, atom),
    }
}
