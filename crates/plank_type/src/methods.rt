ghost use Rattle.std.specs.Prelude.{◌≡◌, ◌≤◌, ◌∷◌, All, length, map, IfOk};
ghost use Rattle.plank_rules.specs.Declarations.{variable_line, variables_of};
ghost use Rattle.plank_base.specs.declared.limits.TheConstants.{VARIABLES_LIMIT, LOCATIONS_LIMIT};
ghost use Rattle.plank_type.specs.Statements.{statements_size, statements_locations};
ghost use Rattle.plank_type.specs.Limits.{IsSmall};
ghost use Rattle.plank_type.specs.Methods.{end_exits, kind_word, kind_of, method_of, methods_of};

use crate::exits::Exits;
use crate::limits::Limited;
use crate::names::{Numbers, VariableNumbers, copied};
use crate::sizes::statements_size;
use crate::statements::add_statements;
use crate::steps::Setting;
use plank_ast::{Method as MethodTree, Methods, Statement, Variables};
use plank_base::{Label, Op, OutOfMemory};
use plank_prog::{Location, Method, MethodKind};
use sqlite_items::Items;
use std::alloc::Global;

fn line_labels(alloc: Global, line: &Variables) -> Result<Items<Label>, OutOfMemory>
    ensures { IfOk result (λ labels. labels ≡ map (λ n. n.label) (variable_line line.now)) }
{
    let mut labels = Vec::new(alloc);
    labels.push(copied(alloc, &line.first.label)?)?;
    for name in line.others.as_slice() {
        labels.push(copied(alloc, &name.label)?)?;
    }
    Ok(Items::from_vec(labels))
}

// The variables that a method declares.
fn variables_of(alloc: Global, method: &MethodTree) -> Result<Items<Label>, OutOfMemory>
    ensures { IfOk result (λ labels. labels ≡ variables_of method.now) }
{
    match &method.variables {
        Some(line) => line_labels(alloc, line),
        None => Ok(Items::new(alloc)),
    }
}

fn kind_of(word: &Label) -> MethodKind
    ensures { result ≡ kind_of word.now }
{
    if word.as_bytes() == b"contains".as_slice() {
        return MethodKind::Set(Op::Contains);
    }
    if word.as_bytes() == b"insert".as_slice() {
        return MethodKind::Set(Op::Insert);
    }
    if word.as_bytes() == b"delete".as_slice() {
        return MethodKind::Set(Op::Delete);
    }
    MethodKind::Upkeep
}

// The word that says what a method does.
fn kind_word(method: &MethodTree) -> &Label
    ensures { result.now ≡ kind_word method.now }
{
    match &method.kind {
        Some(kind) => &kind.label,
        None => &method.name.label,
    }
}

// The locations of a method with these variables.
fn locations_of(
    alloc: Global,
    names: &Numbers<'_>,
    labels: &[Label],
    statements: &[Statement],
) -> Result<Items<Location>, OutOfMemory>
    requires variables { length labels.now ≤ VARIABLES_LIMIT }
    requires locations { statements_size statements.now ≤ LOCATIONS_LIMIT }
    ensures { IfOk result (λ ls. ls ≡ statements_locations statements.now names.now labels.now
        (statements_size statements.now) 0 (end_exits (statements_size statements.now))) }
{
    let count = statements_size(statements);
    let variables = VariableNumbers::new(labels);
    let setting = Setting {
        alloc,
        names,
        variables: &variables,
        locations: count,
    };
    let mut locations = Vec::new(alloc);
    add_statements(
        &mut locations,
        statements,
        setting,
        0,
        Exits::of_method(count),
    )?;
    Ok(Items::from_vec(locations))
}

fn method_of(alloc: Global, names: &Numbers<'_>, method: &MethodTree) -> Result<Method, OutOfMemory>
    requires small { IsSmall method.now }
    ensures { IfOk result (λ m. m ≡ method_of names.now method.now) }
{
    let variables = variables_of(alloc, method)?;
    let locations = locations_of(
        alloc,
        names,
        variables.as_slice(),
        method.statements.as_slice(),
    )?;
    Ok(Method {
        name: copied(alloc, &method.name.label)?,
        kind: kind_of(kind_word(method)),
        arg: copied(alloc, &method.argument.label)?,
        variables,
        locations,
    })
}

fn methods_with(
    alloc: Global,
    names: &Numbers<'_>,
    methods: &Methods,
) -> Result<Items<Method>, OutOfMemory>
    requires first { IsSmall methods.now.first }
    requires others { All IsSmall methods.now.others }
    ensures { IfOk result (λ made. made ≡ method_of names.now methods.now.first ∷ map (method_of names.now) methods.now.others) }
{
    let mut made = Vec::new(alloc);
    made.push(method_of(alloc, names, &methods.first)?)?;
    for method in methods.others.as_slice() {
        made.push(method_of(alloc, names, method)?)?;
    }
    Ok(Items::from_vec(made))
}

/// The methods of a well typed text within the limits.
pub(crate) fn methods_of(alloc: Global, limited: Limited<'_>) -> Result<Items<Method>, OutOfMemory>
    ensures { IfOk result (λ methods. methods ≡ methods_of limited.entry.typed.now.text.now) }
{
    let numbers = Numbers::new(limited);
    methods_with(alloc, &numbers, &limited.typed.text.methods)
}
