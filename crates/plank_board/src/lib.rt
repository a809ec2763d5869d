//! The board that workers share: an epoch, a settled word for each method, and the words of marks.
#![tactic(auto)]

mod answers;
mod boards;
mod events;
mod forcings;
mod laws;
mod looks;
mod names;
mod posts;
mod questions;
mod seats;
mod table;
mod views;

pub use answers::{Posted, Quiet};
pub use boards::Board;
pub use forcings::Forcing;
pub use laws::{least_law, rule_law};
pub use names::Named;
pub use seats::Seat;
pub use views::View;
