//! Whole pictures: a truth for each part, and what the rules answer of them.
#![tactic(auto)]

mod answers;
mod cells;
mod judging;
mod ranks;
mod rows;
mod shortcuts;
mod stepping;
mod wholes;

pub use wholes::Picture;
