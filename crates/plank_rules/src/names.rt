//! Names without repetitions, and those that a header declares: one table for the rules of typing and for the program.
ghost use Rattle.std.specs.Prelude.{◌≡◌, ◌<◌, ℕ, List, [], length, map, IfOk, IfSome, OnOk, not};
ghost use Rattle.plank_rules.specs.Declarations.{is_among, number_of, with_name};

use indexmap::IndexSet;
use plank_base::OutOfMemory;
use std::alloc::Global;
use std::marker::Model;

/// Names without repetitions, each found and numbered in constant time. Contracts see them in the order
/// in which they came.
#[derive(Debug, Drop)]
pub struct Names<'a> {
    set: IndexSet<&'a [u8]>,
}

impl<'a> Model for Names<'a> {
    ghost use Rattle.std.specs.Prelude.{List, ℕ, map};

    ghost Value = { List (List ℕ) };

    ghost view = { λ names. map (λ name. name.now) names.set.keys };
}

impl<'a> Names<'a> {
    pub(crate) fn new(alloc: Global) -> Names<'a>
        ensures { result ≡ [] }
    {
        Names {
            set: IndexSet::new(alloc),
        }
    }

    /// Whether the name was not there.
    pub(crate) fn add(&mut self, name: &'a [u8]) -> Result<bool, OutOfMemory>
        ensures added { IfOk result (λ is_new. is_new ≡ not (is_among self.old name.now)) }
        ensures names { OnOk result (self.new ≡ with_name self.old name.now) }
    {
        match self.set.insert_full(name) {
            Ok((_, is_new)) => Ok(is_new),
            Err(_) => Err(OutOfMemory),
        }
    }

    pub fn contains(&self, name: &[u8]) -> bool
        ensures { result ≡ is_among self.now name.now }
    {
        self.set.contains(name)
    }

    /// The number of a name: its place among the names.
    pub fn number(&self, name: &[u8]) -> Option<usize>
        ensures number { result ≡ number_of name.now self.now }
        ensures within { IfSome result (λ number. number < length self.now) }
    {
        self.set.get_index_of(name)
    }

    pub fn len(&self) -> usize
        ensures { result ≡ length self.now }
    {
        self.set.len()
    }
}

/// The names that a header declares, of each kind those in the order of their first declarations.
#[derive(Debug, Drop)]
pub struct Declared<'a> {
    pub flags: Names<'a>,
    pub pointers: Names<'a>,
    /// The start nodes.
    pub nodes: Names<'a>,
    pub has_lock: bool,
}
