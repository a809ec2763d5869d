//! The marks of a program as two units force them at each location: one by where calls begin and by their own
//! steps, the other by steps of other calls. What all units force, all methods force.
#![tactic(auto)]

mod laws;
mod units;

pub use laws::units_law;
pub use units::{Unit, unit_at, unit_count};
