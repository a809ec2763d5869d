//! Numbers in the place of names: of those that the header declares, and of the variables of a method.
ghost use Rattle.std.specs.Prelude.{◌≡◌, ◌≤◌, ◌<◌, length, map, IfOk};
ghost use Rattle.plank_base.specs.declared.limits.TheConstants.{FLAGS_LIMIT, VARIABLES_LIMIT};
ghost use Rattle.plank_rules.specs.Declarations.{number_of};
ghost use Rattle.plank_type.specs.Numbers.{names_of, HasFewNames};

use crate::limits::Limited;
use plank_ast::{FlagLine, PointerLine};
use plank_base::{Label, OutOfMemory};
use plank_rules::Typed;
use sqlite_items::Items;
use std::alloc::Global;
use std::marker::Model;

/// The numbers of the names that the header of a well typed text within the limits declares: each name is
/// declared once, and of each kind there are no more than the limit. Contracts see the names.
#[derive(Debug, Drop)]
pub(crate) struct Numbers<'a> {
    typed: &'a Typed<'a>,
}

impl<'a> Model for Numbers<'a> {
    ghost use Rattle.std.specs.Prelude.{◌≡◌};
    ghost use Rattle.plank_rules.specs.declared.names.Declared as table;
    ghost use Rattle.plank_type.specs.Numbers.{names_of, HasFewNames};

    ghost Value = { table.Declared };

    ghost view = { λ n. n.typed.now.names };

    ghost invariant = { λ n. (n.typed.now.names ≡ names_of n.typed.now.text.now) × HasFewNames n.typed.now.names };
}

impl<'a> Numbers<'a> {
    pub(crate) fn new(limited: Limited<'a>) -> Numbers<'a>
        ensures { result ≡ names_of limited.entry.typed.now.text.now }
    {
        Numbers {
            typed: limited.typed,
        }
    }

    pub(crate) fn flag(&self, name: &Label) -> Option<u8>
        ensures { result ≡ number_of name.now self.now.flags }
    {
        match self.typed.names.flags.number(name.as_bytes()) {
            Some(number) => Some(number as u8),
            None => None,
        }
    }

    pub(crate) fn pointer(&self, name: &Label) -> Option<u8>
        ensures { result ≡ number_of name.now self.now.pointers }
    {
        match self.typed.names.pointers.number(name.as_bytes()) {
            Some(number) => Some(number as u8),
            None => None,
        }
    }

    /// The number of a start node.
    pub(crate) fn node(&self, name: &Label) -> Option<u32>
        ensures { result ≡ number_of name.now self.now.nodes }
    {
        match self.typed.names.nodes.number(name.as_bytes()) {
            Some(number) => Some(number as u32),
            None => None,
        }
    }

    pub(crate) fn has_lock(&self) -> bool
        ensures { result ≡ self.now.has_lock }
    {
        self.typed.names.has_lock
    }

    /// The lines that declare the flags, in their order.
    pub(crate) fn flags(&self) -> &[FlagLine]
        ensures names { map (λ line. line.name.label) result.now ≡ self.now.flags }
        ensures few { length result.now ≤ FLAGS_LIMIT }
    {
        self.typed.text.flags.as_slice()
    }

    /// The lines that declare the pointers, in their order.
    pub(crate) fn pointers(&self) -> &[PointerLine]
        ensures { map (λ line. line.name.label) result.now ≡ self.now.pointers }
    {
        self.typed.text.pointers.as_slice()
    }
}

/// The numbers of the variables of a method, of which there are no more than the limit. They are so few
/// that a search along them is as fast as any table. Contracts see the names.
#[derive(Debug, Drop)]
pub(crate) struct VariableNumbers<'a> {
    labels: &'a [Label],
}

impl<'a> Model for VariableNumbers<'a> {
    ghost use Rattle.std.specs.Prelude.{ℕ, List, ◌≤◌, length};
    ghost use Rattle.plank_base.specs.declared.limits.TheConstants.{VARIABLES_LIMIT};

    ghost Value = { List (List ℕ) };

    ghost view = { λ v. v.labels.now };

    ghost invariant = { λ v. length v.labels.now ≤ VARIABLES_LIMIT };
}

impl<'a> VariableNumbers<'a> {
    pub(crate) fn new(labels: &'a [Label]) -> VariableNumbers<'a>
        requires { length labels.now ≤ VARIABLES_LIMIT }
        ensures { result ≡ labels.now }
    {
        VariableNumbers { labels }
    }

    pub(crate) fn number(&self, name: &Label) -> Option<u8>
        ensures { result ≡ number_of name.now self.now }
    {
        match place_of(name, self.labels) {
            Some(number) => Some(number as u8),
            None => None,
        }
    }
}

fn place_of(name: &Label, names: &[Label]) -> Option<usize>
    ensures { result ≡ number_of name.now names.now }
{
    names.iter().position(|other| *name == *other)
}

/// The same name once more.
pub(crate) fn copied(alloc: Global, name: &Label) -> Result<Label, OutOfMemory>
    ensures { IfOk result (λ copy. copy ≡ name.now) }
{
    Label::new(alloc, name.as_bytes())
}

/// The names of the flags, in the order of their lines.
pub(crate) fn flag_names(alloc: Global, lines: &[FlagLine]) -> Result<Items<Label>, OutOfMemory>
    ensures { IfOk result (λ names. names ≡ map (λ line. line.name.label) lines.now) }
{
    let mut names = Vec::new(alloc);
    for line in lines {
        names.push(copied(alloc, &line.name.label)?)?;
    }
    Ok(Items::from_vec(names))
}
