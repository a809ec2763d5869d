//! The keys of a schedule.
ghost use Rattle.std.specs.Prelude.{◌≡◌, ◌≤◌, ◌+◌, int_lt, not, false, length, slice_get, IfOk, OnOk};
ghost use Rattle.std.specs.Option.{option_map_or};
ghost use Rattle.std.specs.List.{prefix_len};
ghost use Rattle.plank_trace.specs.Keys.{with_key, with_key_of, keys_of};

use crate::lines::Line;
use plank_base::OutOfMemory;
use std::alloc::Global;

// How many keys at the front are below a key.
fn below(keys: &[i64], key: i64) -> usize
    ensures count { result ≡ prefix_len (λ x. int_lt x key) keys.now }
    ensures within { result ≤ length keys.now }
{
    for i in 0..keys.len() {
        if keys[i] >= key {
            return i;
        }
    }
    keys.len()
}

// Whether the key at a place is there, and at most this one.
fn is_at(keys: &[i64], at: usize, key: i64) -> bool
    ensures { result ≡ option_map_or (λ x. not (int_lt key x)) (slice_get keys.now at) false }
{
    match keys.get(at) {
        Some(x) => *x <= key,
        None => false,
    }
}

fn add_key(keys: &mut Vec<i64>, key: i64) -> Result<(), OutOfMemory>
    ensures key { OnOk result (keys.new.items ≡ with_key keys.old.items key) }
    ensures few { OnOk result (length keys.new.items ≤ length keys.old.items + 1) }
{
    let at = below(keys.as_slice(), key);
    if is_at(keys.as_slice(), at, key) {
        return Ok(());
    }
    keys.insert(at, key)?;
    Ok(())
}

fn add_key_of(keys: &mut Vec<i64>, line: &Line) -> Result<(), OutOfMemory>
    ensures key { OnOk result (keys.new.items ≡ with_key_of keys.old.items line.now) }
    ensures few { OnOk result (length keys.new.items ≤ length keys.old.items + 1) }
{
    match line {
        Line::Call { key, .. } => add_key(keys, *key),
        Line::Go { .. } => Ok(()),
    }
}

/// Each different key of the lines, in rising order.
pub(crate) fn keys_of(alloc: Global, lines: &[Line]) -> Result<Vec<i64>, OutOfMemory>
    ensures keys { IfOk result (λ keys. keys.items ≡ keys_of lines.now) }
    ensures few { IfOk result (λ keys. length keys.items ≤ length lines.now) }
{
    let mut keys = Vec::new(alloc);
    for line in lines {
        add_key_of(&mut keys, line)?;
    }
    Ok(keys)
}
