//! The order of calls: runs whose steps are justified have linearizable histories.
#![tactic(auto)]

pub mod laws;
