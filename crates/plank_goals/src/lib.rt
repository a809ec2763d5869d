//! What to ask of a write, so that the answers say whether it breaks a keep or an order: lists of goals for
//! a question about the pictures of a step.
#![tactic(auto)]

mod chains;
mod keeps;
mod lists;
mod orders;
mod spots;

pub use keeps::keep_goals;
pub use orders::order_goals;
