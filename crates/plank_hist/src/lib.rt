//! Histories of concurrent calls, linearizability after Herlihy and Wing (1990), and the trace law.
#![tactic(auto)]

mod calls;
mod events;
pub mod laws;

pub use calls::{SeqCall, is_legal};
pub use events::Event;

#[cfg(test)]
mod tests;
