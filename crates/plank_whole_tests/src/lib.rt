//! Tests of pictures that are drawn by hand: which are lawful, where walks come to, how keys move,
//! and which steps there are.
#![tactic(auto)]

#[cfg(test)]
mod drawings;
#[cfg(test)]
mod laws;
#[cfg(test)]
mod moves;
#[cfg(test)]
mod steps;
#[cfg(test)]
mod structures;
#[cfg(test)]
mod turns;
#[cfg(test)]
mod walks;
