//! How much a schedule may have.
ghost use Rattle.std.specs.Prelude.{◌≡◌, ◌≤◌, length, IfOk};
ghost use Rattle.plank_trace.specs.Limits.{first_overrun};

use crate::keys::keys_of;
use crate::lines::Line;
use plank_base::{BYTES_LIMIT, OutOfMemory};
use std::alloc::Global;

/// Lines of a schedule.
pub const STEPS_LIMIT: u32 = 256;

/// Different keys of the calls of a schedule.
pub const KEYS_LIMIT: u32 = 8;

/// What a schedule may have too much of, in the order in which limits are tested.
#[derive(Clone, Copy, Debug, PartialEq, Eq)]
pub enum Measure {
    Steps,
    Keys,
}

/// More of a thing than a schedule may have.
#[derive(Clone, Copy, Debug, PartialEq, Eq)]
pub struct Overrun {
    pub measure: Measure,
    pub count: u32,
    pub limit: u32,
}

/// The first thing of which a schedule has too much.
pub fn first_overrun(alloc: Global, lines: &[Line]) -> Result<Option<Overrun>, OutOfMemory>
    requires { length lines.now ≤ BYTES_LIMIT }
    ensures { IfOk result (λ over. over ≡ first_overrun lines.now) }
{
    let steps = lines.len() as u32;
    if steps > STEPS_LIMIT {
        return Ok(Some(Overrun {
            measure: Measure::Steps,
            count: steps,
            limit: STEPS_LIMIT,
        }));
    }
    let keys = keys_of(alloc, lines)?.len() as u32;
    if keys > KEYS_LIMIT {
        return Ok(Some(Overrun {
            measure: Measure::Keys,
            count: keys,
            limit: KEYS_LIMIT,
        }));
    }
    Ok(None)
}
