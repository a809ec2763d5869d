//! What questions say of pictures, read off what is known of them: claims, goals, and the step of a
//! situation as tests of parts, with the laws that these tests say the whole.
#![tactic(auto)]

mod goals;
mod keeping;
mod laws;
mod predicates;
mod stepping;
mod voices;

pub use goals::{Between, enters_between, is_apart, moves, turn_comes_to_null, turns_wrongly};
pub use keeping::Keeping;
pub use laws::{kept_law, tests_law};
pub use predicates::{holds, is_fit, is_node_shared};
pub use stepping::{Stepping, step_of};
pub use voices::Voice;
