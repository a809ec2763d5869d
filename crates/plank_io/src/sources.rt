ghost use Rattle.std.specs.Prelude.{◌≡◌, ℕ, ◌<◌, ◌≤◌, List, length, Option};

/// What a read of a source answers.
#[derive(Clone, Copy, Debug, PartialEq, Eq)]
pub enum Got {
    /// So many bytes stand at the front of the slice.
    Bytes(usize),
    /// Nothing is left.
    End,
    /// The outside failed, and nothing was consumed.
    Failed,
}

/// Where bytes come from. A source has two meanings: the bytes that are left, where it tells them,
/// and a count of the outside's faults.
///
/// A count is a number of 64 bits that stays at its last value once it is there. So "the count
/// rose" says, everywhere, that it rose or stands at that value.
pub trait Source {
    ghost use Rattle.plank_io.specs.Faults.{Rose};
    ghost use Rattle.plank_io.specs.Sources.{Reads};

    // the bytes that are left, or `None` where the source does not tell
    ghost left: { Self → Option (List ℕ) };

    // how often the outside has failed
    ghost faults: { Self → ℕ };

    /// Reads some of the next bytes into the front of the slice. What stands behind them is open,
    /// and so is the whole slice after `End` and `Failed`. A read after `Failed` may succeed.
    fn read(&mut self, into: &mut [u8]) -> Got
        requires { 0 < length into.old }
        ensures read { Reads (left self.old) (left self.new) result into.new }
        // The source does not give up by itself.
        ensures failed { result ≡ Got.Failed → Rose (faults self.old) (faults self.new) }
        ensures never_falls { faults self.old ≤ faults self.new };
}
