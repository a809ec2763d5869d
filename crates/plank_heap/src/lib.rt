//! Heaps of judged structures, the walk of a key, and the set that a heap holds.
#![tactic(auto)]

mod heaps;
mod laws;
mod nodes;
mod walks;

pub use heaps::Heap;
pub use laws::{flag_laws, start_laws, walk_laws};
pub use nodes::Node;
pub use walks::WalkEnd;
