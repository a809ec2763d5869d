//! What a call knows in pictures in which it may arrive: what each of them shows, what is carried there,
//! and what follows from these by hindsight, step by step.
#![tactic(auto)]

mod kinds;
mod known;
mod literals;
mod rules;
mod together;

pub use kinds::{of_kind, wants_past, with_if};
pub use known::Following;
