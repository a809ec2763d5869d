//! Sets of bits, marks, and a count of steps.
#![tactic(auto)]

mod counting;
mod fixed;
mod marks;
mod words;

pub use counting::Steps;
pub use fixed::Bits;
pub use marks::MarkWords;

#[cfg(test)]
mod tests;
