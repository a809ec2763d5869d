// The obligations of a program, as a list in their order.
ghost use Rattle.std.specs.Prelude.{◌≡◌, ◌≤◌, ◌<◌, ◌++◌, ◌∷◌, [], ◌^◌, map, length, IfOk, OnOk};
ghost use Rattle.plank_fact.specs.ObligationList.{text_begin, kinds_of, obligation_at, of_locations, of_methods, obligations};

use plank_base::{Kind, Obligation, OutOfMemory, Place};
use plank_prog::{Action, Location, Method, MethodKind, Program};
use std::alloc::Global;

const TEXT_BEGIN: Place = Place {
    line: 1,
    column: 1,
    byte: 0,
};

// What an action of a method of this kind has to meet.
fn kinds_of(kind: MethodKind, action: &Action) -> &[Kind]
    ensures { result.now ≡ kinds_of kind action.now }
{
    match action {
        Action::Block(block) => {
            if block.writes.len() == 0 {
                &[Kind::Null]
            } else {
                &[
                    Kind::Null,
                    Kind::Target,
                    Kind::Publish,
                    Kind::Keep,
                    Kind::Order,
                    Kind::Footprint,
                    Kind::Change,
                ]
            }
        }
        Action::Copy { .. } | Action::New { .. } => &[],
        Action::Return(_) => match kind {
            MethodKind::Set(_) => &[Kind::Answer],
            MethodKind::Upkeep => &[],
        },
    }
}

// Adds an obligation of the whole text.
fn push_of_text(list: &mut Vec<Obligation>, kind: Kind) -> Result<(), OutOfMemory>
    ensures { OnOk result (list.new.items ≡ list.old.items ++
        (record { kind = kind; method = 0; location = 0; place = text_begin } ∷ [])) }
{
    push(
        list,
        Obligation {
            kind,
            method: 0,
            location: 0,
            place: TEXT_BEGIN,
        },
    )
}

fn push(list: &mut Vec<Obligation>, obligation: Obligation) -> Result<(), OutOfMemory>
    ensures { OnOk result (list.new.items ≡ list.old.items ++ (obligation ∷ [])) }
{
    match list.push(obligation) {
        Ok(_) => Ok(()),
        Err(_) => Err(OutOfMemory),
    }
}

// Adds those of a location.
fn push_location(
    list: &mut Vec<Obligation>,
    kind: MethodKind,
    method: u32,
    number: u32,
    location: &Location,
) -> Result<(), OutOfMemory>
    ensures { OnOk result (list.new.items ≡ list.old.items ++
        map (obligation_at method number location.now) (kinds_of kind location.now.action)) }
{
    for demand in kinds_of(kind, &location.action) {
        push(
            list,
            Obligation {
                kind: *demand,
                method,
                location: number,
                place: location.place,
            },
        )?;
    }
    Ok(())
}

// Adds those of a method.
fn push_method(list: &mut Vec<Obligation>, number: u32, method: &Method) -> Result<(), OutOfMemory>
    requires { length method.now.locations < 2 ^ 32 }
    ensures { OnOk result (list.new.items ≡ list.old.items ++
        of_locations method.now.kind number 0 method.now.locations) }
{
    let locations = method.locations.as_slice();
    for at in 0..locations.len() {
        push_location(list, method.kind, number, at as u32, &locations[at])?;
    }
    Ok(())
}

/// The obligations of a program: two of the whole text, and then by method, location and kind.
pub fn obligations(alloc: Global, program: &Program) -> Result<Vec<Obligation>, OutOfMemory>
    ensures { IfOk result (λ list. list.items ≡ obligations program.now.methods) }
{
    let mut list = Vec::new(alloc);
    push_of_text(&mut list, Kind::Start)?;
    push_of_text(&mut list, Kind::Edges)?;
    let methods = program.methods.as_slice();
    for number in 0..methods.len() {
        push_method(&mut list, number as u32, &methods[number])?;
    }
    Ok(list)
}
