use plank_base::ThreadId;
use plank_hist::Event;
use thiserror::Error;

/// What a thread does next.
#[derive(Clone, Copy, Debug, PartialEq, Eq)]
pub enum Act {
    /// Begins a call of a method, by its number, at a key.
    Invoke { method: u32, key: i64 },
    /// Takes the next step of its call.
    Go,
}

/// One choice of a schedule: which thread moves, and what it does.
#[derive(Clone, Copy, Debug, PartialEq, Eq)]
pub struct Choice {
    pub thread: ThreadId,
    pub act: Act,
}

/// What a step shows to the outside.
#[derive(Clone, Copy, Debug, PartialEq, Eq)]
pub struct Stepped {
    /// The event that the step adds to the history; steps within a call add none.
    pub event: Option<Event>,
}

/// Why a step was not made. The world is unchanged.
#[derive(Clone, Copy, Debug, PartialEq, Eq, Error)]
pub enum StepFault {
    /// `Go` of a thread without a call, or `Invoke` by a thread with one or of no method.
    #[error("the thread cannot make this step")]
    NoSuchThread,
    /// The thread's block reads or writes a field of null.
    #[error("a field of null is read or written")]
    NullRead,
    /// Memory was refused.
    #[error("out of memory")]
    OutOfMemory,
}
