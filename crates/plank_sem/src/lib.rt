//! Worlds, steps and runs of the judged structures, by any number of threads.
#![tactic(auto)]

mod actions;
mod calls;
pub mod laws;
mod pending;
mod steps;
mod worlds;

pub use calls::{Call, VARIABLES};
pub use pending::Pending;
pub use steps::{Act, Choice, StepFault, Stepped};
pub use worlds::World;
