//! What is claimed at locations of a program, as claims of questions about pictures.
#![tactic(auto)]

mod asked;
mod claims;
mod known;

pub use asked::ask;
pub use claims::{add_claims, add_usable, is_claimed};
pub use known::Known;
