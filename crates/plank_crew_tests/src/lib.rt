//! Tests of the board and its crews: what each call answers where seats take turns, that workers share one
//! board, and that want of memory of one worker is the crew's.
#![tactic(auto)]

mod tables;

pub use tables::{Rule, Table};

#[cfg(test)]
mod crews;
#[cfg(test)]
mod failing;
#[cfg(test)]
mod pairs;
#[cfg(test)]
mod seats;
#[cfg(test)]
mod shapes;
#[cfg(test)]
mod workers;
