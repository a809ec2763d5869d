//! Tests of facts, on texts: how many facts methods have, and where some of them stand.
#![tactic(auto)]

#[cfg(test)]
mod places;
#[cfg(test)]
mod sizes;
#[cfg(test)]
mod texts;
