//! What a reviewer reads of a judged program: its effects, each with its place, its steps and its facts, and
//! the verdict.
#![tactic(auto)]

mod facts;
mod names;
mod pieces;
mod reports;
mod steps;
mod verdicts;

pub use pieces::{append, append_decimal, append_line, append_place};
pub use reports::{report, report_effects};
pub use verdicts::{append_obligation, append_verdict};
