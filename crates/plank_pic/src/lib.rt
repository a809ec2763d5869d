//! Pictures: small symbolic heaps, seen by the names of their nodes.
#![tactic(auto)]

mod laws;
mod literals;
mod moves;
mod parts;

pub use laws::{steps_law, visits_law};
pub use literals::{Exit, Literal};
pub use moves::Moved;
pub use parts::{KeyName, Outcome, Part, Place, Target, Term};
