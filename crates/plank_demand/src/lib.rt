//! Whether each obligation of a program fails at marks, decided by questions about pictures.
#![tactic(auto)]

mod answers;
mod asking;
mod demanded;
mod edges;
mod here;
mod reached;
mod reads;
mod writes;

pub use asking::Asking;
