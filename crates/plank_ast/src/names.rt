use plank_base::{Label, Place};

/// A name, and where it stands.
#[derive(Debug, Drop)]
pub struct Name {
    pub label: Label,
    pub place: Place,
}

/// What a statement names a node by: `root` or a name.
#[derive(Debug, Drop)]
pub enum Reference {
    Root(Place),
    Name(Name),
}

/// What follows a dot: a field's name or `key`.
#[derive(Debug, Drop)]
pub enum Field {
    Name(Name),
    Key(Place),
}

/// `true` or `false`.
#[derive(Clone, Copy, Debug, PartialEq, Eq)]
pub struct Truth {
    pub value: bool,
    pub place: Place,
}
