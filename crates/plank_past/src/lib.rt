//! Hindsight: what follows from what was true at some moment of a call, and from what is true now, decided
//! by questions about pictures.
#![tactic(auto)]

mod adding;
mod answered;
mod hinds;
mod literals;
mod past;

pub use adding::{add, add_given, add_true, own};
pub use answered::{numbers_below, reached, set_of};
pub use hinds::Hinds;
pub use literals::{is_field_of, is_lasting, may_be_now, past_name};
pub use past::Past;
