//! The obligations of a program in their order, and the verdict: all of them hold, or the first that
//! fails.
#![tactic(auto)]

mod demands;
mod effects;
mod listing;
mod verdicts;

pub use demands::Demands;
pub use effects::Effect;
pub use listing::obligations;
pub use verdicts::{Verdict, holds, judge};
