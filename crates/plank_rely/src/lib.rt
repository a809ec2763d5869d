//! Which claims steps of other calls break, asked of whoever answers questions about pictures.
#![tactic(auto)]

mod asking;
mod candidates;
mod sites;

pub use sites::broken;
