//! Tests of programs, heaps and steps, which show on examples that the definitions mean what they should.
#![tactic(auto)]

#[cfg(test)]
mod conditions;
pub mod moments;
#[cfg(test)]
mod steps;
#[cfg(test)]
mod texts;
#[cfg(test)]
mod walks;
