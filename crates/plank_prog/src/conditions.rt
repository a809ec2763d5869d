ghost use Rattle.std.specs.Prelude.{◌≡◌, map};
ghost use Rattle.plank_base.specs.Keys.{is_at_most};
ghost use Rattle.plank_prog.specs.Conditions.{compares, value, all_true, some_true};
ghost use Rattle.plank_prog.specs.Scopes.{term_fits, condition_fits};
ghost use Rattle.plank_prog.specs.Views.{key_of_term, view_of};

use crate::scopes::Scope;
use crate::views::{has_flag, is_null};
use plank_base::Key;
use sqlite_items::Items;

/// A key that a header condition speaks of.
#[derive(Clone, Copy, Debug, PartialEq, Eq)]
pub enum KeyTerm {
    /// The key of the node.
    Node,
    /// The walked key.
    Walked,
    /// The least key.
    Min,
    /// The greatest key.
    Max,
}

/// How two keys are compared.
#[derive(Clone, Copy, Debug, PartialEq, Eq)]
pub enum KeyRelation {
    Equal,
    NotEqual,
    Less,
    AtMost,
}

/// A condition of a header, over one node and one walked key. Fields go by their numbers, in the
/// order of their declarations, flags and pointers apart.
#[derive(Debug, Drop)]
pub enum Condition {
    /// Always, or never.
    Constant(bool),
    /// The node has the flag, or, where `set` is false, has it not.
    Flag {
        flag: u8,
        set: bool,
    },
    /// Two flags are equal, or, where `equal` is false, differ.
    Flags {
        left: u8,
        right: u8,
        equal: bool,
    },
    /// The pointer field is null, or, where `null` is false, is not.
    Pointer {
        pointer: u8,
        null: bool,
    },
    /// Two keys compare so.
    Keys {
        left: KeyTerm,
        relation: KeyRelation,
        right: KeyTerm,
    },
    /// The walk of the walked key visits the node.
    Visited,
    /// Each of these holds.
    All(Items<Condition>),
    /// At least one of these holds.
    Any(Items<Condition>),
}

impl KeyTerm {
    /// The key that it stands for, at a node's key and a walked key.
    pub fn key(self, node: Key, walked: Key) -> Key
        ensures { result ≡ key_of_term node walked self }
    {
        match self {
            KeyTerm::Node => node,
            KeyTerm::Walked => walked,
            KeyTerm::Min => Key::Min,
            KeyTerm::Max => Key::Max,
        }
    }
}

impl KeyRelation {
    /// Whether two keys compare so.
    pub fn holds(self, left: Key, right: Key) -> bool
        ensures { result ≡ compares is_at_most self left right }
    {
        match self {
            KeyRelation::Equal => left.is_at_most(right) && right.is_at_most(left),
            KeyRelation::NotEqual => !(left.is_at_most(right) && right.is_at_most(left)),
            KeyRelation::Less => left.is_less(right),
            KeyRelation::AtMost => left.is_at_most(right),
        }
    }
}

impl Condition {
    /// The value at a node, a walked key, and whether its walk visits the node. Takes no memory.
    #[cycle(condition)]
    pub fn value(&self, key: Key, flags: u8, nulls: &[bool], walked: Key, visited: bool) -> bool
        ensures { result ≡ value (view_of key flags nulls.now walked visited) self.now }
    {
        match self {
            Condition::Constant(always) => *always,
            Condition::Flag { flag, set } => has_flag(flags, *flag) == *set,
            Condition::Flags { left, right, equal } => {
                (has_flag(flags, *left) == has_flag(flags, *right)) == *equal
            }
            Condition::Pointer { pointer, null } => is_null(nulls, *pointer) == *null,
            Condition::Keys {
                left,
                relation,
                right,
            } => relation.holds(left.key(key, walked), right.key(key, walked)),
            Condition::Visited => visited,
            Condition::All(parts) => all_hold(parts.as_slice(), key, flags, nulls, walked, visited),
            Condition::Any(parts) => one_holds(
                parts.as_slice(),
                key,
                flags,
                nulls,
                walked,
                visited,
            ),
        }
    }
}

// Whether each condition has the value true.
#[cycle(condition)]
fn all_hold(
    parts: &[Condition],
    key: Key,
    flags: u8,
    nulls: &[bool],
    walked: Key,
    visited: bool,
) -> bool
    ensures { result ≡ all_true (map (value (view_of key flags nulls.now walked visited)) parts.now) }
{
    for part in parts {
        if !part.value(key, flags, nulls, walked, visited) {
            return false;
        }
    }
    true
}

// Whether a condition has the value true.
#[cycle(condition)]
fn one_holds(
    parts: &[Condition],
    key: Key,
    flags: u8,
    nulls: &[bool],
    walked: Key,
    visited: bool,
) -> bool
    ensures { result ≡ some_true (map (value (view_of key flags nulls.now walked visited)) parts.now) }
{
    for part in parts {
        if part.value(key, flags, nulls, walked, visited) {
            return true;
        }
    }
    false
}

impl KeyTerm {
    fn fits(self, scope: Scope) -> bool
        ensures { result ≡ term_fits scope self }
    {
        match self {
            KeyTerm::Walked => scope.walked,
            KeyTerm::Node | KeyTerm::Min | KeyTerm::Max => true,
        }
    }
}

impl Condition {
    /// Whether the condition asks for no more than the scope gives.
    #[cycle(fitting)]
    pub fn fits(&self, scope: Scope) -> bool
        ensures { result ≡ condition_fits scope self.now }
    {
        match self {
            Condition::Constant(_) => true,
            Condition::Flag { flag, set: _ } => (*flag as usize) < scope.flags,
            Condition::Flags { left, right, .. } => {
                (*left as usize) < scope.flags && (*right as usize) < scope.flags
            }
            Condition::Pointer { pointer, null: _ } => (*pointer as usize) < scope.pointers,
            Condition::Keys { left, right, .. } => left.fits(scope) && right.fits(scope),
            Condition::Visited => scope.visited,
            Condition::All(parts) => all_fit(parts.as_slice(), scope),
            Condition::Any(parts) => all_fit(parts.as_slice(), scope),
        }
    }
}

// Whether each condition asks for no more than the scope gives.
#[cycle(fitting)]
fn all_fit(parts: &[Condition], scope: Scope) -> bool
    ensures { result ≡ all_true (map (condition_fits scope) parts.now) }
{
    for part in parts {
        if !part.fits(scope) {
            return false;
        }
    }
    true
}
