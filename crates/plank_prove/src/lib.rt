//! A program, judged by questions about pictures: its least marks, found by one worker or by a crew, and the
//! verdict there.
#![tactic(auto)]

mod crews;
mod judged;

pub use crews::marks_by_workers;
pub use judged::judge;
