//! The marks that the units of a program force: the facts that a call does not have where it begins, those that it
//! does not have after its steps, and those that steps of other calls break.
#![tactic(auto)]

mod deciding;
mod leading;
mod numbers;
mod provers;
mod runs;

pub use deciding::Deciding;
pub use provers::Prover;
