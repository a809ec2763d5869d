//! The top call: from the words of a command line and the bytes of a text to a report and a status.
#![tactic(auto)]

mod crews;
mod entry;
mod printing;
mod replies;
mod status;
mod traced;
mod trees;

pub use entry::top;
pub use status::Status;
