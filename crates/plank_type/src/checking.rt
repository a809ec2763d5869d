ghost use Rattle.std.specs.Prelude.{◌≡◌, None, true, IfOk, IfErr};
ghost use Rattle.plank_prog.specs.Headers.{is_lawful_header};
ghost use Rattle.plank_prog.specs.Methods.{are_lawful_methods};
ghost use Rattle.plank_type.specs.declared.faults.TypeFault.TheVariants as fault;
ghost use Rattle.plank_type.specs.Limits.{first_excess};
ghost use Rattle.plank_type.specs.Checks.{IsProgramOf, IsFaultOf};

use crate::faults::TypeFault;
use crate::limits::{Excess, Limited, within_limits};
use crate::lowering::{Lowered, lower};
use crate::names::copied;
use plank_ast::Text;
use plank_base::Label;
use plank_prog::{Header, Method, Program};
use plank_rules::{Typed, Untyped, checked};
use sqlite_items::Items;
use std::alloc::Global;

/// The program of a text, or the first rule of typing that it breaks, or else the first thing of which
/// it has too much. Takes time linear in the text, times the depth of its statements.
pub fn check(alloc: Global, text: &Text) -> Result<Program, TypeFault>
    ensures program { IfOk result (IsProgramOf text.now) }
    ensures fault { IfErr result (IsFaultOf text.now) }
{
    match checked(alloc, text) {
        Ok(typed) => typed_program(alloc, &typed),
        Err(Untyped::Broken(broken)) => Err(TypeFault::Broken(broken.kind, broken.place)),
        Err(Untyped::OutOfMemory) => Err(TypeFault::OutOfMemory),
    }
}

fn too_many(excess: Excess) -> TypeFault
    ensures { result ≡ fault.TooMany excess.thing excess.count excess.limit }
{
    TypeFault::TooMany(excess.thing, excess.count, excess.limit)
}

// The program of a well typed text, where the tree shows too much of nothing.
fn typed_program(alloc: Global, typed: &Typed<'_>) -> Result<Program, TypeFault>
    ensures program { IfOk result (IsProgramOf typed.now.text.now) }
    ensures fault { IfErr result (IsFaultOf typed.now.text.now) }
{
    match within_limits(typed) {
        Ok(limited) => limited_program(alloc, limited),
        Err(excess) => Err(too_many(excess)),
    }
}

// The program of a well typed text within the limits of its tree, where the program has not too many
// sites or facts.
fn limited_program(alloc: Global, limited: Limited<'_>) -> Result<Program, TypeFault>
    ensures program { IfOk result (IsProgramOf limited.entry.typed.now.text.now) }
    ensures fault { IfErr result (IsFaultOf limited.entry.typed.now.text.now) }
{
    let lowered = match lower(alloc, limited) {
        Ok(lowered) => lowered,
        Err(_) => return Err(TypeFault::OutOfMemory),
    };
    match lowered.excess() {
        Some(excess) => Err(too_many(excess)),
        None => named_program(alloc, lowered),
    }
}

fn named_program(alloc: Global, lowered: Lowered<'_>) -> Result<Program, TypeFault>
    requires limits { first_excess lowered.limited.typed.now.text.now ≡ None }
    ensures program { IfOk result (IsProgramOf lowered.entry.limited.typed.now.text.now) }
    ensures fault { IfErr result (IsFaultOf lowered.entry.limited.typed.now.text.now) }
{
    match copied(alloc, &lowered.limited.typed.text.structure.label) {
        Ok(name) => Ok(lawful_program(name, lowered.header, lowered.methods)),
        Err(_) => Err(TypeFault::OutOfMemory),
    }
}

fn lawful_program(name: Label, header: Header, methods: Items<Method>) -> Program
    requires header { is_lawful_header header ≡ true }
    requires methods { are_lawful_methods header methods ≡ true }
    ensures name { result.name ≡ name }
    ensures header { result.header ≡ header }
    ensures methods { result.methods ≡ methods }
{
    Program {
        name,
        header,
        methods,
    }
}
