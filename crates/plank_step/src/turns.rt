ghost use Rattle.std.specs.Prelude.{◌≡◌, List};
ghost use Rattle.plank_pic.specs.Blocks.{Turn, name, argument, key_term, change_by, change_of, has_name, bind_source, value_source, source};
ghost use Rattle.plank_step.specs.Turns.{source_from};

use plank_pic::{KeyName, Term};
use plank_prog::{Action, Bind, KeyOperand, Reference, Value, Write};

/// A turn: an action by one exit, of the own or the other thread, with names for what it speaks of.
///
/// Each rule on turns is written once, over a turn as it is told here.
pub trait TakesTurn {
    // The turn of the definitions.
    ghost turn: { Self → Turn };

    fn action(&self) -> &Action
        ensures { result.now ≡ (turn self.now).action };

    /// Whether it takes the exit on which each test holds.
    fn is_yes(&self) -> bool
        ensures { result ≡ (turn self.now).yes };

    /// Whether the own thread takes it; else the other does.
    fn is_mine(&self) -> bool
        ensures { result ≡ (turn self.now).mine };

    /// The name of the root or of a variable. A variable that is set may have none.
    fn name_of(&self, reference: Reference) -> Option<u8>
        ensures { result ≡ (turn self.now).name_of reference };

    /// The name of the node that the bind of a variable reads.
    fn read_by(&self, variable: u8) -> u8
        ensures { result ≡ (turn self.now).read_by variable };
}

/// Where a name comes from in a step.
#[derive(Clone, Copy, PartialEq, Eq, Debug)]
pub enum Origin {
    /// From a name before.
    Name(u8),
    /// It is null.
    Null,
    /// From the node that is allocated.
    Fresh,
}

/// The name that a turn has for a reference; the least name where it has none.
pub fn name<T: TakesTurn>(turn: &T, reference: Reference) -> u8
    ensures { result ≡ name (T.turn turn.now) reference }
{
    turn.name_of(reference).unwrap_or(0)
}

/// The key of the thread that takes the turn.
pub fn argument<T: TakesTurn>(turn: &T) -> KeyName
    ensures { result ≡ argument (T.turn turn.now) }
{
    if turn.is_mine() {
        KeyName::Own
    } else {
        KeyName::Other
    }
}

/// The term of the picture that a key of a test stands for.
pub fn key_term<T: TakesTurn>(turn: &T, operand: KeyOperand) -> Term
    ensures { result ≡ key_term (T.turn turn.now) operand }
{
    match operand {
        KeyOperand::Node(node) => Term::Node(name(turn, node)),
        KeyOperand::Argument => Term::Walked(argument(turn)),
        KeyOperand::Min => Term::Min,
        KeyOperand::Max => Term::Max,
    }
}

/// What the turn writes: nothing where it takes the other exit or is no block.
pub fn writes_of<T: TakesTurn>(turn: &T) -> &[Write]
    ensures { change_by (T.turn turn.now) result.now ≡ change_of (T.turn turn.now) }
{
    match turn.action() {
        Action::Block(block) => {
            if turn.is_yes() {
                block.writes.as_slice()
            } else {
                &[]
            }
        }
        Action::Copy { .. } | Action::New { .. } | Action::Return(_) => &[],
    }
}

/// Whether a variable has this name.
pub fn has_name<T: TakesTurn>(turn: &T, variable: u8, name: u8) -> bool
    ensures { result ≡ has_name (T.turn turn.now) variable name }
{
    match turn.name_of(Reference::Variable(variable)) {
        Some(other) => other == name,
        None => false,
    }
}

// Where a name comes from by the binds of a block.
fn bind_source<T: TakesTurn>(turn: &T, name: u8, binds: &[Bind]) -> Origin
    ensures { source_from result ≡ bind_source (T.turn turn.now) name binds.now }
{
    for bind in binds {
        if has_name(turn, bind.to, name) {
            return Origin::Name(turn.read_by(bind.to));
        }
    }
    Origin::Name(name)
}

fn value_source<T: TakesTurn>(turn: &T, value: Value) -> Origin
    ensures { source_from result ≡ value_source (T.turn turn.now) value }
{
    match value {
        Value::Null => Origin::Null,
        Value::Node(node) => Origin::Name(name(turn, node)),
    }
}

/// Where a name comes from in the turn's step.
pub fn source<T: TakesTurn>(turn: &T, name: u8) -> Origin
    ensures { source_from result ≡ source (T.turn turn.now) name }
{
    match turn.action() {
        Action::Block(block) => {
            if turn.is_yes() {
                bind_source(turn, name, block.binds.as_slice())
            } else {
                Origin::Name(name)
            }
        }
        Action::Copy { to, from, .. } => {
            if has_name(turn, *to, name) {
                value_source(turn, *from)
            } else {
                Origin::Name(name)
            }
        }
        Action::New { to, .. } => {
            if has_name(turn, *to, name) {
                Origin::Fresh
            } else {
                Origin::Name(name)
            }
        }
        Action::Return(_) => Origin::Name(name),
    }
}
