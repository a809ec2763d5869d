//! What is known of the order of key terms and of the equality of node names, without memory.
//!
//! `Preorder` and `Partition` grow by assumptions. Each answers what every order, or every
//! partition, that meets the assumptions has, and refuses exactly the assumptions that none meets.
#![tactic(auto)]

mod clashes;
mod orders;
mod partitions;
mod rows;

pub use clashes::Clash;
pub use orders::{Preorder, TERMS_LIMIT, Term};
pub use partitions::{Name, Partition};

#[cfg(test)]
mod tests;
