//! Closures of pictures: what follows in a picture from a part that a search has just decided, for the
//! families of rules that have too many rows to be looked at one by one.
#![tactic(auto)]

mod closing;
mod names;
mod nodes;
mod orders;
mod pointers;
mod saying;

pub use closing::close;
pub use saying::{Said, Sayer};
