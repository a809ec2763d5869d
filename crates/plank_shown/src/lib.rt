//! Which facts are shown by every picture in which a call may arrive, asked of whoever answers questions
//! about pictures.
#![tactic(auto)]

mod arrivals;
mod goals;
mod numbers;

pub use arrivals::Arrivals;
pub use numbers::{listed, spread};
