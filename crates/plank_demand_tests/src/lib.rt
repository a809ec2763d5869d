//! Tests of the obligation keep on texts: nodes that no name is of.
#![tactic(auto)]

#[cfg(test)]
mod keeps;
#[cfg(test)]
mod texts;
