//! The rules on the nodes and pointers that statements name.
ghost use Rattle.std.specs.Prelude.{◌≡◌};
ghost use Rattle.plank_rules.specs.Faults.{Adds};
ghost use Rattle.plank_rules.specs.StatementRules as spec;

use crate::findings::Findings;
use crate::meanings::{
    Meaning, add_no_node, add_no_pointer, add_unknown_field_name, add_unknown_reference, dotted,
};
use crate::names::Declared;
use crate::occurrences::reference_place;
use crate::scopes::Scope;
use plank_ast::{Name, Reference};

/// What a node with a field means.
pub(crate) fn access_meaning(
    header: &Declared<'_>,
    scope: &Scope<'_>,
    node: &Reference,
    field: &Name,
) -> Meaning
    ensures { result ≡ spec.access_meaning header.now scope.now node.now field.now }
{
    dotted(
        scope.setting,
        scope.reference_meaning(node),
        header.label_meaning(field),
    )
}

/// A name where a node is needed.
pub(crate) fn add_name_rules(found: &mut Findings, scope: &Scope<'_>, name: &Name)
    ensures { Adds found.old found.new (spec.name_rules scope.now name.now) }
{
    add_no_node(found, scope.name_meaning(name), name.place)
}

pub(crate) fn add_node_rules(found: &mut Findings, scope: &Scope<'_>, node: &Reference)
    ensures { Adds found.old found.new (spec.node_rules scope.now node.now) }
{
    add_no_node(found, scope.reference_meaning(node), reference_place(node))
}

/// A read of a pointer.
pub(crate) fn add_read_rules(
    found: &mut Findings,
    header: &Declared<'_>,
    scope: &Scope<'_>,
    node: &Reference,
    field: &Name,
)
    ensures { Adds found.old found.new
        (spec.read_rules header.now scope.now node.now field.now) }
{
    add_unknown_reference(found, scope, node);
    add_unknown_field_name(found, header, field);
    let meaning = access_meaning(header, scope, node, field);
    add_no_pointer(found, meaning, reference_place(node))
}
