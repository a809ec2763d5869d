//! The search of pictures: answers questions about pictures exactly, by a search for the parts of
//! two pictures that meet all that is asked of them.
#![tactic(auto)]

mod asks;
mod found;
mod ruling;
mod solver;
mod staying;
mod views;

pub use asks::Ask;
pub use ruling::Ruling;
pub use solver::Solver;
pub use views::Views;
