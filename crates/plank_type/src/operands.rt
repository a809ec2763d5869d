ghost use Rattle.std.specs.Prelude.{◌≡◌, ◌∷◌, ◌++◌, map, IfOk, OnOk};
ghost use Rattle.std.specs.Option.{option_to_list};
ghost use Rattle.plank_prog.specs.Blocks.{is_field};
ghost use Rattle.plank_type.specs.Operands.{reference_of, with_of, field_meaning, alone_meaning, node_meaning, meaning_of, pointers_compared, test_compared, test_alone, test_ended, test_of, bind_to, read_of, bind_of, binds_of, written_of, write_of, writes_of, no_test};

use crate::conditions::{is_equality, relation_of};
use crate::names::{Numbers, VariableNumbers};
use plank_ast::{
    AtomEnd, Bind as BindTree, Comparison, Field, Operand, Reference as ReferenceTree,
    Test as TestTree, TestLine, With, Write as WriteTree, Written,
};
use plank_base::{Label, OutOfMemory};
use plank_prog::{Bind, FlagOperand, KeyOperand, PointerOperand, Reference, Test, Value, Write};
use sqlite_items::Items;
use std::alloc::Global;

/// What an operand of a test stands for.
#[derive(Clone, Copy, Debug, PartialEq, Eq)]
pub(crate) enum Meaning {
    Flag(FlagOperand),
    Key(KeyOperand),
    Pointer(PointerOperand),
    /// A field that is not declared.
    Nothing,
}

/// A node's name, by the variables of the method.
pub(crate) fn reference_of(variables: &VariableNumbers<'_>, node: &ReferenceTree) -> Reference
    ensures { result ≡ reference_of variables.now node.now }
{
    match node {
        ReferenceTree::Root(_) => Reference::Root,
        ReferenceTree::Name(name) => match variables.number(&name.label) {
            Some(variable) => Reference::Variable(variable),
            None => Reference::Root,
        },
    }
}

fn with_names(
    alloc: Global,
    variables: &VariableNumbers<'_>,
    with: &With,
) -> Result<Items<Reference>, OutOfMemory>
    ensures { IfOk result (λ names. names ≡ reference_of variables.now with.now.first ∷ map (reference_of variables.now) with.now.others) }
{
    let mut names = Vec::new(alloc);
    names.push(reference_of(variables, &with.first))?;
    for node in with.others.as_slice() {
        names.push(reference_of(variables, node))?;
    }
    Ok(Items::from_vec(names))
}

/// The further names of a block.
pub(crate) fn with_of(
    alloc: Global,
    variables: &VariableNumbers<'_>,
    with: &Option<With>,
) -> Result<Items<Reference>, OutOfMemory>
    ensures { IfOk result (λ names. names ≡ with_of variables.now with.now) }
{
    match with {
        Some(with) => with_names(alloc, variables, with),
        None => Ok(Items::new(alloc)),
    }
}

// A field of a node.
fn field_meaning(names: &Numbers<'_>, node: Reference, field: &Label) -> Meaning
    ensures { result ≡ field_meaning names.now node field.now }
{
    match names.flag(field) {
        Some(flag) => Meaning::Flag(FlagOperand { node, flag }),
        None => match names.pointer(field) {
            Some(pointer) => Meaning::Pointer(PointerOperand::Field { node, pointer }),
            None => Meaning::Nothing,
        },
    }
}

// A name alone is a node's, or that of the argument.
fn alone_meaning(variables: &VariableNumbers<'_>, node: &ReferenceTree) -> Meaning
    ensures { result ≡ alone_meaning variables.now node.now }
{
    match node {
        ReferenceTree::Root(_) => Meaning::Pointer(PointerOperand::Node(Reference::Root)),
        ReferenceTree::Name(name) => match variables.number(&name.label) {
            Some(variable) => {
                Meaning::Pointer(PointerOperand::Node(Reference::Variable(variable)))
            }
            None => Meaning::Key(KeyOperand::Argument),
        },
    }
}

fn node_meaning(
    names: &Numbers<'_>,
    variables: &VariableNumbers<'_>,
    node: &ReferenceTree,
    field: &Option<Field>,
) -> Meaning
    ensures { result ≡ node_meaning names.now variables.now node.now field.now }
{
    match field {
        None => alone_meaning(variables, node),
        Some(Field::Key(_)) => Meaning::Key(KeyOperand::Node(reference_of(variables, node))),
        Some(Field::Name(name)) => {
            field_meaning(names, reference_of(variables, node), &name.label)
        }
    }
}

fn meaning_of(names: &Numbers<'_>, variables: &VariableNumbers<'_>, operand: &Operand) -> Meaning
    ensures { result ≡ meaning_of names.now variables.now operand.now }
{
    match operand {
        Operand::Node { node, field } => node_meaning(names, variables, node, field),
        Operand::Min(_) => Meaning::Key(KeyOperand::Min),
        Operand::Max(_) => Meaning::Key(KeyOperand::Max),
        Operand::Null(_) => Meaning::Pointer(PointerOperand::Null),
    }
}

// A test that says nothing.
fn no_test() -> Test
    ensures { result ≡ no_test }
{
    Test::Pointers {
        left: PointerOperand::Null,
        right: PointerOperand::Null,
        equal: true,
    }
}

fn is_field(operand: PointerOperand) -> bool
    ensures { result ≡ is_field operand }
{
    match operand {
        PointerOperand::Null => false,
        PointerOperand::Node(_) => false,
        PointerOperand::Field { .. } => true,
    }
}

// Two pointer fields are not compared.
fn pointers_compared(left: PointerOperand, equal: bool, right: PointerOperand) -> Test
    ensures { result ≡ pointers_compared left equal right }
{
    if is_field(left) && is_field(right) {
        no_test()
    } else {
        Test::Pointers { left, right, equal }
    }
}

fn test_compared(first: Meaning, comparison: Comparison, second: Meaning) -> Test
    ensures { result ≡ test_compared first comparison second }
{
    let equal = is_equality(comparison);
    match (first, second) {
        (Meaning::Flag(left), Meaning::Flag(right)) => Test::Flags { left, right, equal },
        (Meaning::Key(left), Meaning::Key(right)) => Test::Keys {
            left,
            relation: relation_of(comparison),
            right,
        },
        (Meaning::Pointer(left), Meaning::Pointer(right)) => pointers_compared(left, equal, right),
        _ => no_test(),
    }
}

// A flag alone, which the node is to have or not to have.
fn test_alone(set: bool, meaning: Meaning) -> Test
    ensures { result ≡ test_alone set meaning }
{
    match meaning {
        Meaning::Flag(flag) => Test::Flag { flag, set },
        Meaning::Key(_) => no_test(),
        Meaning::Pointer(_) => no_test(),
        Meaning::Nothing => no_test(),
    }
}

fn test_ended(
    names: &Numbers<'_>,
    variables: &VariableNumbers<'_>,
    first: Meaning,
    end: &AtomEnd,
) -> Test
    ensures { result ≡ test_ended names.now variables.now first end.now }
{
    match end {
        AtomEnd::Nothing => test_alone(true, first),
        AtomEnd::Compared {
            comparison,
            operand,
            ..
        } => test_compared(first, *comparison, meaning_of(names, variables, operand)),
        AtomEnd::In { .. } => no_test(),
    }
}

/// A test, with numbers in the place of names.
pub(crate) fn test_of(names: &Numbers<'_>, variables: &VariableNumbers<'_>, test: &TestTree) -> Test
    ensures { result ≡ test_of names.now variables.now test.now }
{
    match test {
        TestTree::Not { node, field, .. } => {
            let node = reference_of(variables, node);
            test_alone(false, field_meaning(names, node, &field.label))
        }
        TestTree::Atom(atom) => {
            let first = meaning_of(names, variables, &atom.operand);
            test_ended(names, variables, first, &atom.end)
        }
    }
}

/// The tests of an atomic block.
pub(crate) fn tests_of_lines(
    alloc: Global,
    names: &Numbers<'_>,
    variables: &VariableNumbers<'_>,
    lines: &[TestLine],
) -> Result<Items<Test>, OutOfMemory>
    ensures { IfOk result (λ tests. tests ≡ map (λ line. test_of names.now variables.now line.test) lines.now) }
{
    let mut tests = Vec::new(alloc);
    for line in lines {
        tests.push(test_of(names, variables, &line.test))?;
    }
    Ok(Items::from_vec(tests))
}

fn bind_to(to: Option<u8>, from: Reference, pointer: Option<u8>) -> Option<Bind>
    ensures { result ≡ bind_to to from pointer }
{
    match (to, pointer) {
        (Some(to), Some(pointer)) => Some(Bind { to, from, pointer }),
        _ => None,
    }
}

/// A variable that takes the value of a pointer field.
pub(crate) fn read_of(
    names: &Numbers<'_>,
    variables: &VariableNumbers<'_>,
    variable: &Label,
    node: &ReferenceTree,
    field: &Label,
) -> Option<Bind>
    ensures { result ≡ read_of names.now variables.now variable.now node.now field.now }
{
    let to = variables.number(variable);
    let from = reference_of(variables, node);
    let pointer = names.pointer(field);
    bind_to(to, from, pointer)
}

fn bind_of(names: &Numbers<'_>, variables: &VariableNumbers<'_>, bind: &BindTree) -> Option<Bind>
    ensures { result ≡ bind_of names.now variables.now bind.now }
{
    read_of(
        names,
        variables,
        &bind.variable.label,
        &bind.node,
        &bind.field.label,
    )
}

/// The binds of an atomic block.
pub(crate) fn binds_of(
    alloc: Global,
    names: &Numbers<'_>,
    variables: &VariableNumbers<'_>,
    binds: &[BindTree],
) -> Result<Items<Bind>, OutOfMemory>
    ensures { IfOk result (λ out. out ≡ binds_of names.now variables.now binds.now) }
{
    let mut out = Vec::new(alloc);
    for bind in binds {
        push_given(&mut out, bind_of(names, variables, bind))?;
    }
    Ok(Items::from_vec(out))
}

/// Adds an item where there is one.
pub(crate) fn push_given<T: Drop>(out: &mut Vec<T>, item: Option<T>) -> Result<(), OutOfMemory>
    ensures { OnOk result (out.new.items ≡ out.old.items ++ option_to_list item) }
{
    if let Some(item) = item {
        out.push(item)?;
    }
    Ok(())
}

fn written_of(
    names: &Numbers<'_>,
    variables: &VariableNumbers<'_>,
    node: Reference,
    field: &Label,
    value: &Written,
) -> Option<Write>
    ensures { result ≡ written_of names.now variables.now node field.now value.now }
{
    match value {
        Written::Flag(truth) => {
            let flag = names.flag(field)?;
            Some(Write::Flag {
                node,
                flag,
                value: truth.value,
            })
        }
        Written::Null(_) => {
            let pointer = names.pointer(field)?;
            Some(Write::Pointer {
                node,
                pointer,
                value: Value::Null,
            })
        }
        Written::Node(to) => {
            let pointer = names.pointer(field)?;
            Some(Write::Pointer {
                node,
                pointer,
                value: Value::Node(reference_of(variables, to)),
            })
        }
    }
}

fn write_of(
    names: &Numbers<'_>,
    variables: &VariableNumbers<'_>,
    write: &WriteTree,
) -> Option<Write>
    ensures { result ≡ write_of names.now variables.now write.now }
{
    let node = reference_of(variables, &write.node);
    written_of(names, variables, node, &write.field.label, &write.value)
}

/// The writes of an atomic block.
pub(crate) fn writes_of(
    alloc: Global,
    names: &Numbers<'_>,
    variables: &VariableNumbers<'_>,
    writes: &[WriteTree],
) -> Result<Items<Write>, OutOfMemory>
    ensures { IfOk result (λ out. out ≡ writes_of names.now variables.now writes.now) }
{
    let mut out = Vec::new(alloc);
    for write in writes {
        push_given(&mut out, write_of(names, variables, write))?;
    }
    Ok(Items::from_vec(out))
}
