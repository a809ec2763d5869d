//! Whether the start heap is as its header says.
#![tactic(auto)]

mod heaps;

pub use heaps::start_fails;
