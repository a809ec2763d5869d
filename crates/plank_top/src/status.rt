ghost use Rattle.std.specs.Prelude.{◌≡◌};
ghost use Rattle.plank_top.specs.Statuses.{number_of, exit_of};

use plank_base::{Obligation, Place, Thing, TypeKind};
use plank_trace::Measure;

/// How a call of [`top`](crate::top) ended. Each status but the three faults is answered only after
/// its whole output was taken.
#[derive(Clone, Copy, Debug, PartialEq, Eq)]
pub enum Status {
    /// Every obligation holds: each run of any number of threads has a linearizable history.
    Accepted,
    /// This obligation is the first that fails.
    Rejected(Obligation),
    /// The text is none of the grammar; the place of the first byte or token that shows it.
    Malformed(Place),
    /// The text breaks a typing rule; the first one broken, and where.
    IllTyped(TypeKind, Place),
    /// The text has more of a thing than its limit: the thing, the count, the limit.
    TooLarge(Thing, u32, u32),
    /// The words name no command.
    Usage,
    /// The source failed, and nothing was written.
    ReadFault,
    /// The sink failed, and a proper part of the output was written.
    WriteFault,
    /// Memory was refused, and nothing was written.
    OutOfMemory,
    /// A command that judges nothing has written its whole output.
    Done,
    /// The schedule has more of a thing than its limit: the thing, the count, the limit.
    TooLong(Measure, u32, u32),
    /// This line of the schedule, from 1, is the first that is none; or the schedule ends before a line `text`, and
    /// it is one more than the whole lines.
    BadSchedule(u32),
    /// This step of the schedule, from 1, is the first that its thread cannot make.
    BadStep(u32),
}

impl Status {
    /// The number by which other programs know the status.
    pub fn number(&self) -> u8
        ensures { result ≡ number_of self.now }
    {
        match self {
            Status::Accepted => 0,
            Status::Rejected(_) => 1,
            Status::Malformed(_) => 2,
            Status::IllTyped(_, _) => 3,
            Status::TooLarge(_, _, _) => 4,
            Status::Usage => 5,
            Status::ReadFault => 6,
            Status::WriteFault => 7,
            Status::OutOfMemory => 8,
            Status::Done => 9,
            Status::TooLong(_, _, _) => 4,
            Status::BadSchedule(_) => 12,
            Status::BadStep(_) => 13,
        }
    }

    /// The exit status of the program: the number, but 0 for `Done`.
    pub fn exit(&self) -> u8
        ensures { result ≡ exit_of self.now }
    {
        match self {
            Status::Done => 0,
            other => other.number(),
        }
    }
}
