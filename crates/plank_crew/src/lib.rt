//! The workers of a board: each goes round the methods until all is quiet, and together they find the
//! least closed marks.
#![tactic(auto)]

mod crews;
mod desks;
mod rounds;
mod turns;
mod workers;

pub use crews::crew;
pub use workers::work;
