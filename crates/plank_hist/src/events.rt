use plank_base::{Op, ThreadId};

/// What a history of a set records: a thread begins a call, or ends the one that it has begun.
#[derive(Clone, Copy, Debug, PartialEq, Eq)]
pub enum Event {
    /// The thread begins a call of this operation at this key.
    Invoke {
        /// The thread that calls.
        thread: ThreadId,
        /// What is called.
        op: Op,
        /// The key that the call is about.
        key: i64,
    },
    /// The call that the thread has begun ends with this answer.
    Respond {
        /// The thread that called.
        thread: ThreadId,
        /// What the call answers.
        answer: bool,
    },
}
