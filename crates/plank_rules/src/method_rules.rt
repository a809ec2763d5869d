//! The rules on a method.
ghost use Rattle.std.specs.Prelude.{◌≡◌, ◌++◌, IfOk, OnOk, map};
ghost use Rattle.std.specs.List.{flat_map};
ghost use Rattle.plank_rules.specs.Faults.{Adds};
ghost use Rattle.plank_rules.specs.Loops.{stray, still};
ghost use Rattle.plank_rules.specs.Occurrences.{occurrence};
ghost use Rattle.plank_rules.specs.StatementRules.{statement_rules};
ghost use Rattle.plank_rules.specs.MethodRules as spec;

use crate::findings::Findings;
use crate::flow::can_complete;
use crate::loops::{add_still, add_stray};
use crate::names::{Declared, Names};
use crate::occurrences::{Occurrence, add_repeats, distinct_names, push};
use crate::scopes::{Scope, Setting};
use crate::statements::add_statement_rules;
use plank_ast::{Method, Name, Statement, Variables};
use plank_base::{OutOfMemory, TypeKind};
use std::alloc::Global;

/// Whether the word says what a method is for.
fn is_kind(label: &[u8]) -> bool
    ensures { result ≡ spec.is_kind label.now }
{
    label == b"contains".as_slice()
        || label == b"insert".as_slice()
        || label == b"delete".as_slice()
        || label == b"upkeep".as_slice()
}

/// The kind of a method: the word after `as`, or its own name.
fn kind_name<'a>(name: &'a Name, kind: &'a Option<Name>) -> &'a Name
    ensures { result.now ≡ spec.kind_name name.now kind.now }
{
    match kind {
        None => name,
        Some(kind) => kind,
    }
}

#[tactic(auto, unfolding(crate::specs::MethodRules::kind_rules))]
fn add_kind_rules(found: &mut Findings, kind: &Name)
    ensures { Adds found.old found.new (spec.kind_rules kind.now) }
{
    let is_unknown = !is_kind(kind.label.as_bytes());
    found.add_when(is_unknown, TypeKind::Unknown, kind.place)
}

fn push_names<'a>(variables: &mut Vec<Occurrence<'a>>, names: &'a [Name]) -> Result<(), OutOfMemory>
    ensures { OnOk result (variables.new.items ≡ variables.old.items ++ map occurrence names.now) }
{
    for name in names {
        push(variables, Occurrence::of_name(name))?;
    }
    Ok(())
}

fn push_variables<'a>(
    variables: &mut Vec<Occurrence<'a>>,
    line: &'a Option<Variables>,
) -> Result<(), OutOfMemory>
    ensures { OnOk result (variables.new.items ≡ variables.old.items
        ++ spec.line_occurrences line.now) }
{
    match line {
        None => Ok(()),
        Some(line) => {
            push(variables, Occurrence::of_name(&line.first))?;
            push_names(variables, line.others.as_slice())
        }
    }
}

/// A name that is declared twice in a method.
#[tactic(auto, unfolding(crate::specs::MethodRules::local_repeats))]
fn add_local_repeats(
    found: &mut Findings,
    alloc: Global,
    method: &Method,
) -> Result<(), OutOfMemory>
    ensures { OnOk result (Adds found.old found.new (spec.local_repeats method.now)) }
{
    let mut locals = Vec::new(alloc);
    push(&mut locals, Occurrence::of_name(&method.argument))?;
    push_variables(&mut locals, &method.variables)?;
    add_repeats(found, alloc, &locals)
}

/// What names mean in a method.
#[tactic(auto, unfolding(crate::specs::MethodRules::method_scope))]
fn method_scope(alloc: Global, method: &Method) -> Result<Scope<'_>, OutOfMemory>
    ensures { IfOk result (λ scope. scope ≡ spec.method_scope method.now) }
{
    let mut variables = Vec::new(alloc);
    push_variables(&mut variables, &method.variables)?;
    let nodes = distinct_names(alloc, &variables)?;
    let mut keys = Names::new(alloc);
    keys.add(method.argument.label.as_bytes())?;
    Ok(Scope {
        setting: Setting::Method,
        nodes,
        keys,
    })
}

fn add_each_statement(
    found: &mut Findings,
    alloc: Global,
    header: &Declared<'_>,
    scope: &Scope<'_>,
    statements: &[Statement],
) -> Result<(), OutOfMemory>
    ensures { OnOk result (Adds found.old found.new
        (flat_map (statement_rules header.now scope.now) statements.now)) }
{
    for statement in statements {
        add_statement_rules(found, alloc, header, scope, statement)?;
    }
    Ok(())
}

fn add_each_stray(found: &mut Findings, statements: &[Statement])
    ensures { Adds found.old found.new (flat_map stray statements.now) }
{
    for statement in statements {
        add_stray(found, statement);
    }
}

fn add_each_still(found: &mut Findings, statements: &[Statement])
    ensures { Adds found.old found.new
        (flat_map (λ s. (still s).loops) statements.now) }
{
    for statement in statements {
        add_still(found, statement);
    }
}

#[tactic(auto, unfolding(crate::specs::MethodRules::statements_rules))]
fn add_statements_rules(
    found: &mut Findings,
    alloc: Global,
    header: &Declared<'_>,
    method: &Method,
) -> Result<(), OutOfMemory>
    ensures { OnOk result (Adds found.old found.new
        (spec.statements_rules header.now method.now)) }
{
    let scope = method_scope(alloc, method)?;
    add_each_statement(found, alloc, header, &scope, method.statements.as_slice())
}

#[tactic(auto, unfolding(crate::specs::MethodRules::loop_rules))]
fn add_loop_rules(found: &mut Findings, method: &Method)
    ensures { Adds found.old found.new (spec.loop_rules method.now) }
{
    add_each_stray(found, method.statements.as_slice());
    add_each_still(found, method.statements.as_slice())
}

/// A body that can be completed.
#[tactic(auto, unfolding(crate::specs::MethodRules::return_rules))]
fn add_return_rules(found: &mut Findings, method: &Method)
    ensures { Adds found.old found.new (spec.return_rules method.now) }
{
    let completes = can_complete(method.statements.as_slice());
    found.add_when(completes, TypeKind::NoReturn, method.end)
}

#[tactic(auto, unfolding(crate::specs::MethodRules::method_rules))]
pub(crate) fn add_method_rules(
    found: &mut Findings,
    alloc: Global,
    header: &Declared<'_>,
    method: &Method,
) -> Result<(), OutOfMemory>
    ensures { OnOk result (Adds found.old found.new
        (spec.method_rules header.now method.now)) }
{
    add_kind_rules(found, kind_name(&method.name, &method.kind));
    add_local_repeats(found, alloc, method)?;
    add_statements_rules(found, alloc, header, method)?;
    add_loop_rules(found, method);
    add_return_rules(found, method);
    Ok(())
}
