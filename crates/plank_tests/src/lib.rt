//! Tests of the whole way from bytes to the report: what no clause says, and what shows that definitions mean what they should.
#![tactic(auto)]

#[cfg(test)]
mod calls;
#[cfg(test)]
mod endings;
#[cfg(test)]
mod large;
#[cfg(test)]
mod limits;
#[cfg(test)]
mod marks;
#[cfg(test)]
mod programs;
#[cfg(test)]
mod published;
#[cfg(test)]
mod reading;
#[cfg(test)]
mod structures;
#[cfg(test)]
mod tokens;
#[cfg(test)]
mod traces;
#[cfg(test)]
mod typing;
#[cfg(test)]
mod verdicts;
#[cfg(test)]
mod words;
#[cfg(test)]
mod workers;
