use crate::names::{Field, Name, Reference};
use plank_base::Place;
use sqlite_items::{Boxed, Items};

/// Conjunctions, of which one at least is to hold: `cond = conj {"||" conj}`.
#[derive(Debug, Drop)]
#[cycle(condition)]
pub struct Condition {
    pub first: Conjunction,
    pub others: Items<Conjunction>,
}

/// Literals, which are all to hold: `conj = lit {"&&" lit}`.
#[derive(Debug, Drop)]
#[cycle(condition)]
pub struct Conjunction {
    pub first: Literal,
    pub others: Items<Literal>,
}

/// `lit = "true" | "false" | "(" cond ")" | "!" name "." name | atom`. The tree keeps every pair of
/// parentheses.
#[derive(Debug, Drop)]
#[cycle(condition)]
pub enum Literal {
    True(Place),
    False(Place),
    Group {
        place: Place,
        inner: Boxed<Condition>,
    },
    Not {
        place: Place,
        node: Name,
        field: Name,
    },
    Atom(Atom),
}

/// An operand, alone or with what it is compared with: `atom = operand [("=="|"!="|"<"|"<=") operand | "in" name]`.
#[derive(Debug, Drop)]
pub struct Atom {
    pub operand: Operand,
    pub end: AtomEnd,
}

/// What follows the first operand of an atom.
#[derive(Debug, Drop)]
pub enum AtomEnd {
    Nothing,
    Compared {
        comparison: Comparison,
        place: Place,
        operand: Operand,
    },
    In {
        place: Place,
        node: Name,
    },
}

/// `==`, `!=`, `<` or `<=`.
#[derive(Clone, Copy, Debug, PartialEq, Eq)]
pub enum Comparison {
    Equal,
    NotEqual,
    Less,
    AtMost,
}

/// `operand = ("root"|name) ["." (name|"key")] | "MIN" | "MAX" | "null"`.
#[derive(Debug, Drop)]
pub enum Operand {
    /// A node's name alone, or one of its fields.
    Node {
        node: Reference,
        field: Option<Field>,
    },
    Min(Place),
    Max(Place),
    Null(Place),
}
