//! What names and operands mean where they stand.
ghost use Rattle.std.specs.Prelude.{◌≡◌};
ghost use Rattle.plank_rules.specs.Faults.{Adds};
ghost use Rattle.plank_rules.specs.Meanings as spec;

use crate::findings::Findings;
use crate::names::Declared;
use crate::occurrences::reference_place;
use crate::scopes::{Scope, Setting};
use plank_ast::{Field, Name, Operand, Reference};
use plank_base::{Place, TypeKind};

/// What a name means where a node may stand.
#[derive(Clone, Copy, Debug, PartialEq, Eq)]
pub enum NodeMeaning {
    Unknown,
    Key,
    Node,
    Root,
}

/// What a name means after a dot.
#[derive(Clone, Copy, Debug, PartialEq, Eq)]
pub enum FieldMeaning {
    Unknown,
    Key,
    Flag,
    Pointer,
}

/// What an operand means.
#[derive(Clone, Copy, Debug, PartialEq, Eq)]
pub enum Meaning {
    /// A name in it is unknown.
    Unknown,
    /// It may stand nowhere.
    Wrong,
    Key,
    Flag,
    Node,
    Pointer,
    Null,
}

impl Scope<'_> {
    ghost use Rattle.plank_rules.specs.Meanings as spec;

    pub(crate) fn name_meaning(&self, name: &Name) -> NodeMeaning
        ensures { result ≡ spec.name_meaning self.now name.now.label }
    {
        if self.nodes.contains(name.label.as_bytes()) {
            NodeMeaning::Node
        } else if self.keys.contains(name.label.as_bytes()) {
            NodeMeaning::Key
        } else {
            NodeMeaning::Unknown
        }
    }

    pub(crate) fn reference_meaning(&self, reference: &Reference) -> NodeMeaning
        ensures { result ≡ spec.reference_meaning self.now reference.now }
    {
        match reference {
            Reference::Root(_) => NodeMeaning::Root,
            Reference::Name(name) => self.name_meaning(name),
        }
    }
}

impl Declared<'_> {
    ghost use Rattle.plank_rules.specs.Meanings as spec;

    pub(crate) fn label_meaning(&self, name: &Name) -> FieldMeaning
        ensures { result ≡ spec.label_meaning self.now name.now.label }
    {
        if self.flags.contains(name.label.as_bytes()) {
            FieldMeaning::Flag
        } else if self.pointers.contains(name.label.as_bytes()) {
            FieldMeaning::Pointer
        } else {
            FieldMeaning::Unknown
        }
    }

    pub(crate) fn field_meaning(&self, field: &Field) -> FieldMeaning
        ensures { result ≡ spec.field_meaning self.now field.now }
    {
        match field {
            Field::Name(name) => self.label_meaning(name),
            Field::Key(_) => FieldMeaning::Key,
        }
    }
}

impl Setting {
    ghost use Rattle.plank_rules.specs.Meanings as spec;

    pub(crate) fn is_header(self) -> bool
        ensures { result ≡ spec.is_header self }
    {
        !matches!(self, Setting::Method)
    }

    pub(crate) fn is_keep(self) -> bool
        ensures { result ≡ spec.is_keep self }
    {
        matches!(self, Setting::Keep)
    }

    fn is_freeze(self) -> bool
        ensures { result ≡ spec.is_freeze self }
    {
        matches!(self, Setting::Freeze)
    }

    fn reads_pointers(self) -> bool
        ensures { result ≡ spec.reads_pointers self }
    {
        matches!(self, Setting::Keep | Setting::Method)
    }
}

/// What a name without a field means.
fn alone(setting: Setting, node: NodeMeaning) -> Meaning
    ensures { result ≡ spec.alone setting node }
{
    match node {
        NodeMeaning::Unknown => Meaning::Unknown,
        NodeMeaning::Key if setting.is_freeze() => Meaning::Wrong,
        NodeMeaning::Key => Meaning::Key,
        NodeMeaning::Node | NodeMeaning::Root if setting.is_header() => Meaning::Wrong,
        NodeMeaning::Node | NodeMeaning::Root => Meaning::Node,
    }
}

/// What a field means after a node.
fn read(setting: Setting, field: FieldMeaning) -> Meaning
    ensures { result ≡ spec.read setting field }
{
    match field {
        FieldMeaning::Unknown => Meaning::Unknown,
        FieldMeaning::Key => Meaning::Key,
        FieldMeaning::Flag => Meaning::Flag,
        FieldMeaning::Pointer if setting.reads_pointers() => Meaning::Pointer,
        FieldMeaning::Pointer => Meaning::Wrong,
    }
}

/// What a field means after a name that has no fields.
fn misread(field: FieldMeaning) -> Meaning
    ensures { result ≡ spec.misread field }
{
    match field {
        FieldMeaning::Unknown => Meaning::Unknown,
        FieldMeaning::Key | FieldMeaning::Flag | FieldMeaning::Pointer => Meaning::Wrong,
    }
}

/// What a name with a field means.
pub(crate) fn dotted(setting: Setting, node: NodeMeaning, field: FieldMeaning) -> Meaning
    ensures { result ≡ spec.dotted setting node field }
{
    match node {
        NodeMeaning::Unknown => Meaning::Unknown,
        NodeMeaning::Key => misread(field),
        NodeMeaning::Node => read(setting, field),
        NodeMeaning::Root if setting.is_header() => misread(field),
        NodeMeaning::Root => read(setting, field),
    }
}

pub(crate) fn operand_meaning(
    header: &Declared<'_>,
    scope: &Scope<'_>,
    operand: &Operand,
) -> Meaning
    ensures { result ≡ spec.operand_meaning header.now scope.now operand.now }
{
    match operand {
        Operand::Node { node, field: None } => alone(scope.setting, scope.reference_meaning(node)),
        Operand::Node {
            node,
            field: Some(field),
        } => dotted(
            scope.setting,
            scope.reference_meaning(node),
            header.field_meaning(field),
        ),
        Operand::Min(_) | Operand::Max(_) => Meaning::Key,
        Operand::Null(_) => Meaning::Null,
    }
}

/// Where an operand begins.
pub(crate) fn operand_place(operand: &Operand) -> Place
    ensures { result ≡ spec.operand_place operand.now }
{
    match operand {
        Operand::Node { node, .. } => reference_place(node),
        Operand::Min(place) | Operand::Max(place) | Operand::Null(place) => *place,
    }
}

fn add_unknown_node(found: &mut Findings, node: NodeMeaning, place: Place)
    ensures { Adds found.old found.new (spec.unknown_node node place) }
{
    match node {
        NodeMeaning::Unknown => found.add(TypeKind::Unknown, place),
        NodeMeaning::Key | NodeMeaning::Node | NodeMeaning::Root => {}
    }
}

fn add_unknown_label(found: &mut Findings, field: FieldMeaning, place: Place)
    ensures { Adds found.old found.new (spec.unknown_label field place) }
{
    match field {
        FieldMeaning::Unknown => found.add(TypeKind::Unknown, place),
        FieldMeaning::Key | FieldMeaning::Flag | FieldMeaning::Pointer => {}
    }
}

pub(crate) fn add_unknown_name(found: &mut Findings, scope: &Scope<'_>, name: &Name)
    ensures { Adds found.old found.new
        (spec.unknown_name scope.now name.now) }
{
    add_unknown_node(found, scope.name_meaning(name), name.place)
}

pub(crate) fn add_unknown_reference(found: &mut Findings, scope: &Scope<'_>, reference: &Reference)
    ensures { Adds found.old found.new
        (spec.unknown_reference scope.now reference.now) }
{
    add_unknown_node(
        found,
        scope.reference_meaning(reference),
        reference_place(reference),
    )
}

pub(crate) fn add_unknown_field_name(found: &mut Findings, header: &Declared<'_>, name: &Name)
    ensures { Adds found.old found.new
        (spec.unknown_field_name header.now name.now) }
{
    add_unknown_label(found, header.label_meaning(name), name.place)
}

fn add_unknown_field(found: &mut Findings, header: &Declared<'_>, field: &Field)
    ensures { Adds found.old found.new
        (spec.unknown_field header.now field.now) }
{
    match field {
        Field::Name(name) => add_unknown_field_name(found, header, name),
        Field::Key(_) => {}
    }
}

pub(crate) fn add_unknown_operand(
    found: &mut Findings,
    header: &Declared<'_>,
    scope: &Scope<'_>,
    operand: &Operand,
)
    ensures { Adds found.old found.new
        (spec.unknown_operand header.now scope.now operand.now) }
{
    match operand {
        Operand::Node { node, field: None } => add_unknown_reference(found, scope, node),
        Operand::Node {
            node,
            field: Some(field),
        } => {
            add_unknown_reference(found, scope, node);
            add_unknown_field(found, header, field)
        }
        Operand::Min(_) | Operand::Max(_) | Operand::Null(_) => {}
    }
}

/// An operand that is wrong wherever it is compared.
pub(crate) fn add_misplaced(found: &mut Findings, meaning: Meaning, place: Place)
    ensures { Adds found.old found.new (spec.misplaced meaning place) }
{
    match meaning {
        Meaning::Wrong => found.add(TypeKind::WrongKind, place),
        _ => {}
    }
}

/// Something else than a flag of a node, where that is needed.
pub(crate) fn add_no_flag(found: &mut Findings, meaning: Meaning, place: Place)
    ensures { Adds found.old found.new (spec.no_flag meaning place) }
{
    match meaning {
        Meaning::Unknown | Meaning::Flag => {}
        _ => found.add(TypeKind::WrongKind, place),
    }
}

/// Something else than a pointer of a node, where that is needed.
pub(crate) fn add_no_pointer(found: &mut Findings, meaning: Meaning, place: Place)
    ensures { Adds found.old found.new (spec.no_pointer meaning place) }
{
    match meaning {
        Meaning::Unknown | Meaning::Pointer => {}
        _ => found.add(TypeKind::WrongKind, place),
    }
}

/// Something else than a node, where one is needed.
pub(crate) fn add_no_node(found: &mut Findings, node: NodeMeaning, place: Place)
    ensures { Adds found.old found.new (spec.no_node node place) }
{
    match node {
        NodeMeaning::Unknown => found.add(TypeKind::Unknown, place),
        NodeMeaning::Key => found.add(TypeKind::WrongKind, place),
        NodeMeaning::Node | NodeMeaning::Root => {}
    }
}
