ghost use Rattle.std.specs.Prelude.{◌≡◌, ℕ, ◌<◌, ◌≤◌, List, length, Option};

/// What a write to a sink answers.
#[derive(Clone, Copy, Debug, PartialEq, Eq)]
pub enum Took {
    /// So many bytes from the front of the piece were taken.
    Bytes(usize),
    /// The outside failed, and nothing was taken.
    Failed,
}

/// Where bytes go. A sink has two meanings: the bytes that it has taken, where it tells them, and a
/// count of the outside's faults, which goes as a `Source`'s does.
pub trait Sink {
    ghost use Rattle.plank_io.specs.Faults.{Rose};
    ghost use Rattle.plank_io.specs.Sinks.{Writes};

    // the bytes that were taken, or `None` where the sink does not tell
    ghost taken: { Self → Option (List ℕ) };

    // how often the outside has failed
    ghost faults: { Self → ℕ };

    /// Takes some bytes from the front of the piece. A write after `Failed` may succeed.
    fn write(&mut self, piece: &[u8]) -> Took
        requires { 0 < length piece.now }
        ensures write { Writes (taken self.old) (taken self.new) result piece.now }
        // The sink does not give up by itself.
        ensures failed { result ≡ Took.Failed → Rose (faults self.old) (faults self.new) }
        ensures never_falls { faults self.old ≤ faults self.new };
}
