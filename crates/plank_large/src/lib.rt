//! A large text of any number of methods, made for judging by several workers, and the summary of what is said
//! of it.
#![tactic(auto)]

mod summaries;
mod texts;

pub use summaries::summary;
pub use texts::large_text;
