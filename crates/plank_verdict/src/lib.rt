//! The verdict on a program: its least marks, the obligations and the effects there, and what it says of runs.
#![tactic(auto)]

mod effects;
mod judging;
mod kept;
pub mod laws;

pub use effects::list_effects;
pub use judging::{Judged, judge_at};
