use plank_fact::Fact;
use sqlite_items::Items;

/// A location that writes and that a call may come to, with what the call knows there of the names in its step
/// and other calls may know.
#[derive(Debug, Drop)]
pub struct Effect {
    pub method: u32,
    pub location: u32,
    /// In the order of their numbers.
    pub facts: Items<Fact>,
}
