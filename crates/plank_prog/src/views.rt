ghost use Rattle.std.specs.Prelude.{◌≡◌, false, unwrap_or, slice_get};
ghost use Rattle.plank_prog.specs.Views.{is_bit_set};

use plank_base::{Key, POINTERS_LIMIT};

/// How many pointer fields a node may have, as the length of an array.
pub const POINTER_FIELDS: usize = POINTERS_LIMIT as usize;

/// What a condition asks of a node: its key, its flags, and which of its pointers are null.
#[derive(Clone, Copy, Debug, PartialEq, Eq)]
pub struct NodeView {
    pub key: Key,
    /// Bit i for the i-th declared flag.
    pub flags: u8,
    /// Whether the i-th declared pointer field is null; entries past the declared fields say nothing.
    pub nulls: [bool; POINTER_FIELDS],
}

/// Whether the flag of this number is among the flags of a node, which have bit i for the i-th flag.
pub fn has_flag(flags: u8, flag: u8) -> bool
    ensures { result ≡ is_bit_set flags flag }
{
    u32::from(flag) < u8::BITS && flags & (1 << flag) != 0
}

// Whether the pointer field of this number is null; false where it is not there.
pub(crate) fn is_null(nulls: &[bool], pointer: u8) -> bool
    ensures { result ≡ unwrap_or (slice_get nulls.now pointer) false }
{
    nulls.get(pointer as usize).copied().unwrap_or(false)
}
