ghost use Rattle.std.specs.Prelude.{◌≡◌};
ghost use Rattle.plank_prog.specs.Methods.{operation};

use crate::blocks::{Block, Value};
use plank_base::{Label, Op, Place};
use sqlite_items::Items;

/// What one step at a location does.
#[derive(Debug, Drop)]
pub enum Action {
    /// Tests, binds and writes.
    Block(Block),
    /// Sets a variable.
    Copy { to: u8, from: Value, next: u32 },
    /// Sets a variable to a fresh node, whose key is the argument.
    New { to: u8, next: u32 },
    /// Ends the call, with this answer where the method has one.
    Return(bool),
}

/// A place in a method at which a call may stand between two steps.
#[derive(Debug, Drop)]
pub struct Location {
    /// Where the statement begins in the text.
    pub place: Place,
    pub action: Action,
}

/// What a method is for.
#[derive(Clone, Copy, Debug, PartialEq, Eq)]
pub enum MethodKind {
    /// An operation on the set, which answers.
    Set(Op),
    /// Upkeep of the structure: it answers nothing and leaves the set as it is. Both of its returns end the
    /// call alike.
    Upkeep,
}

impl MethodKind {
    /// The operation on the set, where there is one.
    pub fn operation(self) -> Option<Op>
        ensures { result ≡ operation self }
    {
        match self {
            MethodKind::Set(op) => Some(op),
            MethodKind::Upkeep => None,
        }
    }
}

/// A method, with one ordinary key as its argument.
#[derive(Debug, Drop)]
pub struct Method {
    pub name: Label,
    pub kind: MethodKind,
    /// The name of the argument.
    pub arg: Label,
    pub variables: Items<Label>,
    /// A call begins at the first.
    pub locations: Items<Location>,
}
