ghost use Rattle.std.specs.Prelude.{◌≡◌, List, option_map};
ghost use Rattle.plank_pic.specs.Blocks.{value_name, put_flag, put_pointer, put_lock};
ghost use Rattle.plank_step.specs.Turns.{written_name};

use crate::blocks::written_node;
use crate::turns::{TakesTurn, name};
use plank_prog::{Value, Write};

/// The name of the node that writes, all of one node, are of.
pub fn written_name<T: TakesTurn>(turn: &T, writes: &[Write]) -> u8
    ensures { result ≡ written_name (T.turn turn.now) writes.now }
{
    match writes {
        [] => 0,
        [first, ..] => name(turn, written_node(*first)),
    }
}

/// What writes put into a flag.
pub fn put_flag(writes: &[Write], flag: u8) -> Option<bool>
    ensures { result ≡ put_flag flag writes.now }
{
    for write in writes {
        if let Write::Flag {
            flag: other,
            value,
            ..
        } = *write
        {
            if flag == other {
                return Some(value);
            }
        }
    }
    None
}

// What writes put into a pointer field, as a value.
fn put_value(writes: &[Write], pointer: u8) -> Option<Value>
    ensures { result ≡ put_pointer pointer writes.now }
{
    for write in writes {
        if let Write::Pointer {
            pointer: other,
            value,
            ..
        } = *write
        {
            if pointer == other {
                return Some(value);
            }
        }
    }
    None
}

fn value_name<T: TakesTurn>(turn: &T, value: Value) -> Option<u8>
    ensures { result ≡ value_name (T.turn turn.now) value }
{
    match value {
        Value::Null => None,
        Value::Node(node) => Some(name(turn, node)),
    }
}

/// What writes put into a pointer field: null, or a name's node.
pub fn put_pointer<T: TakesTurn>(turn: &T, writes: &[Write], pointer: u8) -> Option<Option<u8>>
    ensures { result ≡ option_map (value_name (T.turn turn.now)) (put_pointer pointer writes.now) }
{
    match put_value(writes, pointer) {
        Some(value) => Some(value_name(turn, value)),
        None => None,
    }
}

/// Whether writes take the lock or free it.
pub fn put_lock(writes: &[Write]) -> Option<bool>
    ensures { result ≡ put_lock writes.now }
{
    for write in writes {
        match write {
            Write::TakeLock { .. } => return Some(true),
            Write::FreeLock { .. } => return Some(false),
            Write::Flag { .. } | Write::Pointer { .. } => {}
        }
    }
    None
}
