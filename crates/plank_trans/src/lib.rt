//! The facts that a call has where its method begins, and after each step of a location by an exit.
#![tactic(auto)]

mod carrying;
mod entering;
mod keeping;
mod moves;
mod names;
mod stepping;

pub use entering::entry;
pub use stepping::after;
