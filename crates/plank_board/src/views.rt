use std::collections::LinkedList;

/// What a seat has seen. It stands in contracts alone: no value of it is made.
///
/// A seat counts its events, and what ends in `_at` is the number of the event that loaded the value
/// beside it, or 0.
pub struct View {
    /// How many seats there can be of it.
    pub parts: u64,
    /// How many events the seat has made.
    pub events: u64,
    /// The epoch with which its latest look began.
    pub epoch: u64,
    pub epoch_at: u64,
    /// The epoch as it was last loaded.
    pub found: u64,
    pub found_at: u64,
    /// The words of marks as they were last loaded.
    pub look: LinkedList<u64>,
    pub look_at: LinkedList<u64>,
    /// The same, and as the seat left them where it set marks after that.
    pub marks: LinkedList<u64>,
    /// The words of marks as the seat found them where it last set marks.
    pub reached: LinkedList<u64>,
    pub reached_at: LinkedList<u64>,
    /// It has set a mark that was clear, and not raised the epoch since.
    pub grows: bool,
    /// The last epoch that it raised; 0 where it never did.
    pub raised: u64,
    pub raised_at: u64,
    /// The settled words as it last loaded or raised them.
    pub noted: LinkedList<u64>,
    pub noted_at: LinkedList<u64>,
    /// One more than the epoch at which it last left; 0 where it never did.
    pub left: u64,
}
