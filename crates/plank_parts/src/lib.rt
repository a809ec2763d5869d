//! Numbers of the parts of pictures: the table by which a search keeps a picture before a step and one
//! after it, and a reader of what the search has decided of them.
#![tactic(auto)]

mod codes;
mod numberings;
mod shapes;
mod sides;
mod tables;
mod tellings;
mod views;

pub use codes::{CODES, part_code, part_of};
pub use numberings::Numbering;
pub use shapes::Shape;
pub use sides::{Keeps, KeepsAll, Numbered, Side};
pub use tellings::look_of;
pub use views::View;

#[cfg(test)]
mod tests;
