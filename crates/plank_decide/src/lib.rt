//! Decides, by questions about pictures, which facts the calls of a program have and which claims steps of
//! other calls break.
#![tactic(auto)]

mod deciders;

pub use deciders::Decider;
