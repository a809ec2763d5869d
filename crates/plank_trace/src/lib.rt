//! A schedule, run step by step: which thread moved where, how each key walks after the step, and whether it
//! is in the set.
#![tactic(auto)]

mod keys;
pub mod laws;
mod limits;
mod lines;
mod parts;
mod paths;
mod printing;
mod reading;
mod schedules;
mod traces;

pub use limits::{KEYS_LIMIT, Measure, Overrun, STEPS_LIMIT, first_overrun};
pub use lines::{Line, THREADS, TraceFault};
pub use paths::path;
pub use schedules::{Schedule, ScheduleFault, read_schedule};
pub use traces::trace;
