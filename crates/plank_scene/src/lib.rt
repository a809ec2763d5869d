//! Projection: worlds of runs show lawful pictures, and their steps are steps of pictures.
#![tactic(auto)]

pub mod laws;
