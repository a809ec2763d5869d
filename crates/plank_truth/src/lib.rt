//! What a call knows in a picture: whether a literal is true of it, written once over a reader of
//! what is known.
#![tactic(auto)]

mod callers;
mod keys;
mod literals;
mod values;

pub use callers::Calls;
pub use literals::truth;
pub use values::{is_others, is_owned, is_usable, same_value};
