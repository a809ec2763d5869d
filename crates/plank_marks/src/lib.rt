//! Where the marks of a program's locations stand among all its marks.
#![tactic(auto)]

mod marking;

pub use marking::{At, first_mark, location_count, locations_before, mark_words};
