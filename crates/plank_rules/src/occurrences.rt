//! Names where they occur, and the rules on names that occur again.
ghost use Rattle.std.specs.Prelude.{◌≡◌, ◌∷◌, ◌++◌, [], IfOk, OnOk};
ghost use Rattle.plank_rules.specs.Declarations.{distinct};
ghost use Rattle.plank_rules.specs.Faults.{Adds};
ghost use Rattle.plank_rules.specs.Occurrences as spec;

use crate::findings::Findings;
use crate::names::Names;
use plank_ast::{Name, Reference};
use plank_base::{OutOfMemory, Place, TypeKind};
use plank_lex::Reserved;
use std::alloc::Global;
use std::marker::Model;

/// A name, and where it occurs. Contracts see its bytes and the place.
#[derive(Debug, Drop)]
pub(crate) struct Occurrence<'a> {
    label: &'a [u8],
    place: Place,
}

impl<'a> Model for Occurrence<'a> {
    ghost use Rattle.plank_rules.specs.Occurrences as spec;

    ghost Value = { spec.Occurrence };

    ghost view = { λ o. record { label = o.label.now; place = o.place } };
}

impl<'a> Occurrence<'a> {
    pub(crate) fn of_name(name: &'a Name) -> Occurrence<'a>
        ensures { result ≡ spec.occurrence name.now }
    {
        Occurrence {
            label: name.label.as_bytes(),
            place: name.place,
        }
    }

    pub(crate) fn of_reference(reference: &'a Reference) -> Occurrence<'a>
        ensures { result ≡ spec.reference_occurrence reference.now }
    {
        Occurrence {
            label: reference_label(reference),
            place: reference_place(reference),
        }
    }

    pub(crate) fn label(&self) -> &'a [u8]
        ensures { result.now ≡ self.now.label }
    {
        self.label
    }

    pub(crate) fn place(&self) -> Place
        ensures { result ≡ self.now.place }
    {
        self.place
    }
}

/// The bytes of a name; `root` is named by its word.
fn reference_label(reference: &Reference) -> &[u8]
    ensures { result.now ≡ (spec.reference_occurrence reference.now).label }
{
    match reference {
        Reference::Root(_) => Reserved::Root.spelling(),
        Reference::Name(name) => name.label.as_bytes(),
    }
}

pub(crate) fn reference_place(reference: &Reference) -> Place
    ensures { result ≡ spec.reference_place reference.now }
{
    match reference {
        Reference::Root(place) => *place,
        Reference::Name(name) => name.place,
    }
}

pub(crate) fn push<'a>(
    list: &mut Vec<Occurrence<'a>>,
    occurrence: Occurrence<'a>,
) -> Result<(), OutOfMemory>
    ensures { OnOk result (list.new.items ≡ list.old.items ++ occurrence.entry ∷ []) }
{
    match list.push(occurrence) {
        Ok(()) => Ok(()),
        Err(_) => Err(OutOfMemory),
    }
}

/// The names, without repetitions.
pub(crate) fn distinct_names<'a>(
    alloc: Global,
    occurrences: &[Occurrence<'a>],
) -> Result<Names<'a>, OutOfMemory>
    ensures { IfOk result (λ names. names ≡ distinct (spec.labels_of occurrences.now)) }
{
    let mut names = Names::new(alloc);
    for occurrence in occurrences {
        names.add(occurrence.label())?;
    }
    Ok(names)
}

/// `Twice`, at each name that stands earlier in the list.
pub(crate) fn add_repeats(
    found: &mut Findings,
    alloc: Global,
    occurrences: &[Occurrence<'_>],
) -> Result<(), OutOfMemory>
    ensures { OnOk result (Adds found.old found.new (spec.repeats occurrences.now)) }
{
    let mut names = Names::new(alloc);
    for occurrence in occurrences {
        let is_new = names.add(occurrence.label())?;
        found.add_when(!is_new, TypeKind::Twice, occurrence.place());
    }
    Ok(())
}

/// `BindReused`, at each bound variable that stands earlier in the list.
pub(crate) fn add_reuses(
    found: &mut Findings,
    alloc: Global,
    bound: &Names<'_>,
    occurrences: &[Occurrence<'_>],
) -> Result<(), OutOfMemory>
    ensures { OnOk result (Adds found.old found.new
        (spec.reuses bound.now occurrences.now)) }
{
    let mut names = Names::new(alloc);
    for occurrence in occurrences {
        let is_bound = bound.contains(occurrence.label());
        let is_new = names.add(occurrence.label())?;
        found.add_when(
            is_bound && !is_new,
            TypeKind::BindReused,
            occurrence.place(),
        );
    }
    Ok(())
}

/// `WrongKind`, at each name that is not this one.
fn add_others_than(found: &mut Findings, label: &[u8], occurrences: &[Occurrence<'_>])
    ensures { Adds found.old found.new
        (spec.others_than label.now occurrences.now) }
{
    for occurrence in occurrences {
        let is_other = label != occurrence.label();
        found.add_when(is_other, TypeKind::WrongKind, occurrence.place());
    }
}

/// `WrongKind`, at each name that is not the first.
pub(crate) fn add_others_than_first(found: &mut Findings, occurrences: &[Occurrence<'_>])
    ensures { Adds found.old found.new
        (spec.others_than_first occurrences.now) }
{
    match occurrences {
        [] => {}
        [first, rest @ ..] => add_others_than(found, first.label(), rest),
    }
}
