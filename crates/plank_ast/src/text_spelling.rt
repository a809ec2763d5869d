//! From methods and whole texts to the tokens that spell them.
ghost use Rattle.std.specs.Prelude.{[], OnOk, IfOk};
ghost use Rattle.plank_lex.specs.declared.words.Reserved.TheVariants as word;
ghost use Rattle.std.specs.List.{flat_map};
ghost use Rattle.plank_ast.specs.Spelled.{Adds};
ghost use Rattle.plank_ast.specs.Spelling.{word_line_tokens, more_name_tokens, variables_tokens, signature_tokens, method_tokens, methods_tokens, declarations_tokens, conditions_tokens};
ghost use Rattle.std.specs.Prelude.{◌≡◌};
ghost use Rattle.std.specs.Option.{option_map_or};
ghost use Rattle.plank_ast.specs.Spelling.{statement_tokens};
ghost use Rattle.plank_ast.specs.Spelled.{kinds};
ghost use Rattle.plank_ast.specs.Texts.{text_tokens};

use crate::header_spelling::{
    add_condition_line, add_flags, add_named_conditions, add_pointers, add_roots, add_starts,
};
use crate::methods::{Method, Methods, Variables};
use crate::names::Name;
use crate::spelling::{Spelled, add_mark, add_name, add_word};
use crate::statement_spelling::add_statement;
use crate::statements::Statement;
use crate::texts::Text;
use plank_base::{OutOfMemory, Place};
use plank_lex::{Reserved, Symbol};
use std::alloc::Global;

/// Names, each after a comma.
fn add_more_names<'a>(out: &mut Vec<Spelled<'a>>, names: &'a [Name]) -> Result<(), OutOfMemory>
    ensures { OnOk result (Adds out.old.items out.new.items (more_name_tokens names.now)) }
{
    for name in names {
        add_mark(out, Symbol::Comma)?;
        add_name(out, name)?;
    }
    Ok(())
}

fn add_variables<'a>(
    out: &mut Vec<Spelled<'a>>,
    variables: &'a Variables,
) -> Result<(), OutOfMemory>
    ensures { OnOk result (Adds out.old.items out.new.items (variables_tokens variables.now)) }
{
    add_word(out, Reserved::Variable)?;
    add_name(out, &variables.first)?;
    add_more_names(out, variables.others.as_slice())?;
    add_mark(out, Symbol::Semicolon)
}

fn add_statements<'a>(
    out: &mut Vec<Spelled<'a>>,
    statements: &'a [Statement],
) -> Result<(), OutOfMemory>
    ensures { OnOk result (Adds out.old.items out.new.items (flat_map statement_tokens statements.now)) }
{
    for statement in statements {
        add_statement(out, statement)?;
    }
    Ok(())
}

/// A method's word, name, kind and argument.
fn add_signature<'a>(
    out: &mut Vec<Spelled<'a>>,
    name: &'a Name,
    kind: &'a Option<Name>,
    argument: &'a Name,
) -> Result<(), OutOfMemory>
    ensures { OnOk result (Adds out.old.items out.new.items (signature_tokens name.now kind.now argument.now)) }
{
    add_word(out, Reserved::Method)?;
    add_name(out, name)?;
    if let Some(kind) = kind {
        add_word(out, Reserved::As)?;
        add_name(out, kind)?;
    }
    add_mark(out, Symbol::OpenParenthesis)?;
    add_name(out, argument)?;
    add_mark(out, Symbol::CloseParenthesis)
}

fn add_method<'a>(out: &mut Vec<Spelled<'a>>, method: &'a Method) -> Result<(), OutOfMemory>
    ensures { OnOk result (Adds out.old.items out.new.items (method_tokens method.now)) }
{
    add_signature(out, &method.name, &method.kind, &method.argument)?;
    add_mark(out, Symbol::OpenBrace)?;
    if let Some(variables) = &method.variables {
        add_variables(out, variables)?;
    }
    add_statements(out, method.statements.as_slice())?;
    add_mark(out, Symbol::CloseBrace)
}

fn add_more_methods<'a>(
    out: &mut Vec<Spelled<'a>>,
    methods: &'a [Method],
) -> Result<(), OutOfMemory>
    ensures { OnOk result (Adds out.old.items out.new.items (flat_map method_tokens methods.now)) }
{
    for method in methods {
        add_method(out, method)?;
    }
    Ok(())
}

fn add_methods<'a>(out: &mut Vec<Spelled<'a>>, methods: &'a Methods) -> Result<(), OutOfMemory>
    ensures { OnOk result (Adds out.old.items out.new.items (methods_tokens methods.now)) }
{
    add_method(out, &methods.first)?;
    add_more_methods(out, methods.others.as_slice())
}

/// The line `lock;`, where there is one.
fn add_lock(out: &mut Vec<Spelled<'_>>, lock: Option<Place>) -> Result<(), OutOfMemory>
    ensures { OnOk result (Adds out.old.items out.new.items (option_map_or (λ place. word_line_tokens word.Lock) lock [])) }
{
    if lock.is_none() {
        return Ok(());
    }
    add_word(out, Reserved::Lock)?;
    add_mark(out, Symbol::Semicolon)
}

/// The lines that declare the fields, the root and the start nodes.
fn add_declarations<'a>(out: &mut Vec<Spelled<'a>>, text: &'a Text) -> Result<(), OutOfMemory>
    ensures { OnOk result (Adds out.old.items out.new.items (declarations_tokens text.now.structure text.now.flags text.now.pointers text.now.lock text.now.roots text.now.starts)) }
{
    add_word(out, Reserved::Structure)?;
    add_name(out, &text.structure)?;
    add_mark(out, Symbol::Semicolon)?;
    add_flags(out, text.flags.as_slice())?;
    add_pointers(out, text.pointers.as_slice())?;
    add_lock(out, text.lock)?;
    add_roots(out, text.roots.as_slice())?;
    add_starts(out, text.starts.as_slice())
}

/// The lines of the conditions.
fn add_conditions<'a>(out: &mut Vec<Spelled<'a>>, text: &'a Text) -> Result<(), OutOfMemory>
    ensures { OnOk result (Adds out.old.items out.new.items (conditions_tokens text.now.edges text.now.holds text.now.keeps text.now.freeze)) }
{
    add_named_conditions(out, Reserved::Edge, text.edges.as_slice())?;
    add_condition_line(out, Reserved::Holds, &text.holds)?;
    add_named_conditions(out, Reserved::Keep, text.keeps.as_slice())?;
    match &text.freeze {
        Some(freeze) => add_condition_line(out, Reserved::Freeze, freeze),
        None => Ok(()),
    }
}

/// The tokens of a text, without the end.
pub(crate) fn spelled<'a>(alloc: Global, text: &'a Text) -> Result<Vec<Spelled<'a>>, OutOfMemory>
    ensures { IfOk result (λ tokens. kinds tokens.items ≡ text_tokens text.now) }
{
    let mut out = Vec::new(alloc);
    add_declarations(&mut out, text)?;
    add_conditions(&mut out, text)?;
    add_methods(&mut out, &text.methods)?;
    Ok(out)
}
