//! Tests of the search of pictures against a look at every picture of two names, one by one.
#![tactic(auto)]

#[cfg(test)]
mod asks;
#[cfg(test)]
mod atoms;
#[cfg(test)]
mod pictures;
#[cfg(test)]
mod sketches;
#[cfg(test)]
mod steps;
#[cfg(test)]
mod stops;
#[cfg(test)]
mod texts;
