use plank_base::{Place, TypeKind};

/// A rule of typing that a text breaks, at a token.
#[derive(Clone, Copy, Debug, PartialEq, Eq)]
pub struct Broken {
    pub kind: TypeKind,
    pub place: Place,
}
