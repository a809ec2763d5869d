//! The rules on atoms: operands alone, comparisons, and `in`.
ghost use Rattle.std.specs.Prelude.{◌≡◌};
ghost use Rattle.plank_rules.specs.Faults.{Adds};
ghost use Rattle.plank_rules.specs.Meanings.{operand_meaning, operand_place};
ghost use Rattle.plank_rules.specs.Atoms as spec;

use crate::findings::Findings;
use crate::meanings::{
    Meaning, NodeMeaning, add_misplaced, add_no_flag, add_unknown_name, add_unknown_operand,
    operand_meaning, operand_place,
};
use crate::names::Declared;
use crate::scopes::{Scope, Setting};
use plank_ast::{Atom, AtomEnd, Comparison, Name, Operand};
use plank_base::{Place, TypeKind};

impl Meaning {
    ghost use Rattle.plank_rules.specs.Atoms as spec;

    pub(crate) fn is_unknown(self) -> bool
        ensures { result ≡ spec.is_unknown self }
    {
        matches!(self, Meaning::Unknown)
    }

    fn is_sound(self) -> bool
        ensures { result ≡ spec.is_sound self }
    {
        !matches!(self, Meaning::Unknown | Meaning::Wrong)
    }

    fn is_key(self) -> bool
        ensures { result ≡ spec.is_key self }
    {
        matches!(self, Meaning::Key)
    }

    fn is_flag(self) -> bool
        ensures { result ≡ spec.is_flag self }
    {
        matches!(self, Meaning::Flag)
    }

    fn is_pointer_field(self) -> bool
        ensures { result ≡ spec.is_pointer_field self }
    {
        matches!(self, Meaning::Pointer)
    }

    fn is_null(self) -> bool
        ensures { result ≡ spec.is_null self }
    {
        matches!(self, Meaning::Null)
    }

    /// A node, a pointer field or null.
    fn is_pointer(self) -> bool
        ensures { result ≡ spec.is_pointer self }
    {
        matches!(self, Meaning::Node | Meaning::Pointer | Meaning::Null)
    }

    /// Whether the other is of the kind that this one needs.
    fn same_kind(self, other: Meaning) -> bool
        ensures { result ≡ spec.same_kind self other }
    {
        if self.is_key() {
            other.is_key()
        } else if self.is_flag() {
            other.is_flag()
        } else {
            other.is_pointer()
        }
    }
}

impl NodeMeaning {
    ghost use Rattle.plank_rules.specs.Atoms as spec;

    fn is_key_name(self) -> bool
        ensures { result ≡ spec.is_key_name self }
    {
        matches!(self, NodeMeaning::Key)
    }

    fn is_node_name(self) -> bool
        ensures { result ≡ spec.is_node_name self }
    {
        matches!(self, NodeMeaning::Node)
    }

    fn is_unknown_name(self) -> bool
        ensures { result ≡ spec.is_unknown_name self }
    {
        matches!(self, NodeMeaning::Unknown)
    }
}

fn is_order(comparison: Comparison) -> bool
    ensures { result ≡ spec.is_order comparison }
{
    matches!(comparison, Comparison::Less | Comparison::AtMost)
}

/// An operand, what it means and where it begins.
#[derive(Clone, Copy, Debug)]
struct Side {
    meaning: Meaning,
    place: Place,
}

/// A second operand of another kind than the first.
fn add_other_kind(found: &mut Findings, first: Side, second: Side)
    ensures { Adds found.old found.new
        (spec.other_kind first.meaning second.meaning second.place) }
{
    let is_other = !first.meaning.same_kind(second.meaning);
    found.add_when(is_other, TypeKind::WrongKind, second.place)
}

/// An order of anything but keys.
fn add_no_order(found: &mut Findings, comparison: Comparison, first: Side, second: Side)
    ensures { Adds found.old found.new
        (spec.no_order comparison first.meaning second.place) }
{
    let is_unordered = is_order(comparison) && !first.meaning.is_key();
    found.add_when(is_unordered, TypeKind::WrongKind, second.place)
}

/// In the header, a pointer field that is compared with anything but `null`.
fn add_no_null(found: &mut Findings, setting: Setting, field: Side, other: Side)
    ensures { Adds found.old found.new
        (spec.no_null setting field.meaning field.place other.meaning) }
{
    let is_wrong = setting.is_header()
        && field.meaning.is_pointer_field()
        && !other.meaning.is_null();
    found.add_when(is_wrong, TypeKind::WrongKind, field.place)
}

/// In a method, a test that compares two pointer fields.
fn add_two_fields(found: &mut Findings, setting: Setting, first: Side, second: Side)
    ensures { Adds found.old found.new
        (spec.two_fields setting first.meaning second.meaning second.place) }
{
    let is_wrong = !setting.is_header()
        && first.meaning.is_pointer_field()
        && second.meaning.is_pointer_field();
    found.add_when(is_wrong, TypeKind::WrongKind, second.place)
}

/// What two operands break together, where neither breaks a rule by itself.
fn add_compared(
    found: &mut Findings,
    setting: Setting,
    comparison: Comparison,
    first: Side,
    second: Side,
)
    ensures { Adds found.old found.new
        (spec.compared setting comparison first.meaning first.place second.meaning second.place) }
{
    if first.meaning.is_sound() && second.meaning.is_sound() {
        add_other_kind(found, first, second);
        add_no_order(found, comparison, first, second);
        add_no_null(found, setting, first, second);
        add_no_null(found, setting, second, first);
        add_two_fields(found, setting, first, second);
    }
}

fn side_of(header: &Declared<'_>, scope: &Scope<'_>, operand: &Operand) -> Side
    ensures meaning { result.meaning ≡ operand_meaning header.now scope.now operand.now }
    ensures place { result.place ≡ operand_place operand.now }
{
    Side {
        meaning: operand_meaning(header, scope, operand),
        place: operand_place(operand),
    }
}

/// What an operand breaks by itself.
fn add_operand_rules(
    found: &mut Findings,
    header: &Declared<'_>,
    scope: &Scope<'_>,
    operand: &Operand,
)
    ensures { Adds found.old found.new
        (spec.operand_rules header.now scope.now operand.now) }
{
    add_unknown_operand(found, header, scope, operand);
    add_misplaced(
        found,
        operand_meaning(header, scope, operand),
        operand_place(operand),
    )
}

fn add_comparison_rules(
    found: &mut Findings,
    header: &Declared<'_>,
    scope: &Scope<'_>,
    first: &Operand,
    comparison: Comparison,
    second: &Operand,
)
    ensures { Adds found.old found.new
        (spec.comparison_rules header.now scope.now first.now comparison second.now) }
{
    add_operand_rules(found, header, scope, first);
    add_operand_rules(found, header, scope, second);
    let first = side_of(header, scope, first);
    let second = side_of(header, scope, second);
    add_compared(found, scope.setting, comparison, first, second)
}

/// An operand alone is to be a flag of a node.
fn add_alone_rules(
    found: &mut Findings,
    header: &Declared<'_>,
    scope: &Scope<'_>,
    operand: &Operand,
)
    ensures { Adds found.old found.new
        (spec.alone_rules header.now scope.now operand.now) }
{
    add_unknown_operand(found, header, scope, operand);
    add_no_flag(
        found,
        operand_meaning(header, scope, operand),
        operand_place(operand),
    )
}

/// Whether an operand is the key name and nothing else.
fn is_key_alone(scope: &Scope<'_>, operand: &Operand) -> bool
    ensures { result ≡ spec.is_key_alone scope.now operand.now }
{
    match operand {
        Operand::Node { node, field: None } => scope.reference_meaning(node).is_key_name(),
        _ => false,
    }
}

/// Whether this is `j in x` in a keep.
fn is_visit(scope: &Scope<'_>, operand: &Operand, node: NodeMeaning) -> bool
    ensures { result ≡ spec.is_visit scope.now operand.now node }
{
    scope.setting.is_keep() && is_key_alone(scope, operand) && node.is_node_name()
}

/// `in` anywhere but as `j in x` in a keep.
fn add_no_visit(
    found: &mut Findings,
    header: &Declared<'_>,
    scope: &Scope<'_>,
    operand: &Operand,
    place: Place,
    node: NodeMeaning,
)
    ensures { Adds found.old found.new
        (spec.no_visit header.now scope.now operand.now place node) }
{
    add_misplaced(
        found,
        operand_meaning(header, scope, operand),
        operand_place(operand),
    );
    let is_wrong = !is_visit(scope, operand, node);
    found.add_when(is_wrong, TypeKind::WrongKind, place)
}

fn add_in_rules(
    found: &mut Findings,
    header: &Declared<'_>,
    scope: &Scope<'_>,
    operand: &Operand,
    place: Place,
    node: &Name,
)
    ensures { Adds found.old found.new
        (spec.in_rules header.now scope.now operand.now place node.now) }
{
    add_unknown_operand(found, header, scope, operand);
    add_unknown_name(found, scope, node);
    let meaning = operand_meaning(header, scope, operand);
    let node = scope.name_meaning(node);
    if meaning.is_unknown() || node.is_unknown_name() {
        return;
    }
    add_no_visit(found, header, scope, operand, place, node)
}

pub(crate) fn add_atom_rules(
    found: &mut Findings,
    header: &Declared<'_>,
    scope: &Scope<'_>,
    atom: &Atom,
)
    ensures { Adds found.old found.new
        (spec.atom_rules header.now scope.now atom.now) }
{
    match &atom.end {
        AtomEnd::Nothing => add_alone_rules(found, header, scope, &atom.operand),
        AtomEnd::Compared {
            comparison,
            operand,
            ..
        } => add_comparison_rules(found, header, scope, &atom.operand, *comparison, operand),
        AtomEnd::In { place, node } => {
            add_in_rules(found, header, scope, &atom.operand, *place, node)
        }
    }
}
