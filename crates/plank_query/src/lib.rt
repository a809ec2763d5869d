//! Questions about pictures: which of them have what is looked for, among those of a situation in which a
//! call may stand. Whoever answers them is told what is claimed of the pictures, and answers exactly.
#![tactic(auto)]

mod goals;
mod places;
mod predicates;
mod questions;
mod situations;
mod turns;

pub use goals::{Goal, Moment};
pub use predicates::{Claim, Predicate, Speaker};
pub use questions::{Oracle, Question};
pub use situations::Situation;
pub use turns::{Actor, OwnTurn, SiteTurn};
