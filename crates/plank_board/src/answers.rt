/// What became of a post.
#[derive(Clone, Copy, Debug, PartialEq, Eq)]
pub enum Posted {
    /// A mark that was clear is set now, and the epoch was raised.
    Grown,
    /// Others had set each mark beyond the look.
    Known,
    /// There was none beyond the look: the method forces nothing new there.
    Settled,
}

/// Whether there is anything left to do.
#[derive(Clone, Copy, Debug, PartialEq, Eq)]
pub enum Quiet {
    /// Nothing: every method is settled at the epoch of the seat's look, which is still the epoch.
    All(u64),
    /// This method is the first that is not settled there.
    Still(u32),
    /// The epoch is this one by now: look again.
    Moved(u64),
}
