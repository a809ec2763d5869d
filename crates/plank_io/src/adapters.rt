ghost use Rattle.std.specs.Prelude.{◌≡◌, ◌<◌, ◌≤◌, length};
ghost use Rattle.plank_io.specs.Faults.{Rose};

use crate::sinks::{Sink, Took};
use crate::sources::{Got, Source};
use std::io::{Read, Write};

/// The real input: a source that passes on what a reader tells. Every error of the reader counts as
/// a fault, `Interrupted` among them.
///
/// The two adapters are the trusted edge of the prover. A reader of the system does not tell its
/// bytes, and then no contract says that they are the outside's, or that an error was the outside's.
#[derive(Drop)]
pub struct ReaderSource<R: Read + Drop> {
    reader: R,
    faults: u64,
}

impl<R: Read + Drop> ReaderSource<R> {
    ghost use Rattle.plank_io.specs.Adapters.{reader_of, reader_faults};

    /// A source of what the reader has left, with no fault so far.
    pub fn new(reader: R) -> ReaderSource<R>
        ensures reader { reader_of result ≡ reader }
        ensures faults { reader_faults result ≡ 0 }
    {
        ReaderSource { reader, faults: 0 }
    }
}

impl<R: Read + Drop> Source for ReaderSource<R> {
    ghost use Rattle.plank_io.specs.Sources.{Reads};
    ghost use Rattle.plank_io.specs.Adapters.{reader_of, reader_faults, faults_after_read};

    ghost left = { λ s. R.remaining (reader_of s) };

    ghost faults = { reader_faults };

    /// `End` where the reader gives no byte, and `Failed` where it gives an error.
    fn read(&mut self, into: &mut [u8]) -> Got
        requires { 0 < length into.old }
        ensures read { Reads (R.remaining (reader_of self.old)) (R.remaining (reader_of self.new)) result into.new }
        ensures failed { result ≡ Got.Failed → Rose (reader_faults self.old) (reader_faults self.new) }
        ensures never_falls { reader_faults self.old ≤ reader_faults self.new }
        ensures counted { reader_faults self.new ≡ faults_after_read (reader_faults self.old) result }
    {
        match self.reader.read(into) {
            Ok(0) => Got::End,
            Ok(count) => Got::Bytes(count),
            Err(_) => {
                self.faults = self.faults.saturating_add(1);
                Got::Failed
            }
        }
    }
}

/// The real output: a sink that passes on what a writer tells. Every error of the writer counts as
/// a fault, and so does a writer that takes nothing.
///
/// The sink holds nothing back and flushes nothing. Lend it a writer that does hold back, as a
/// `BufWriter`, by `&mut`, and flush that writer afterwards.
#[derive(Drop)]
pub struct WriterSink<W: Write + Drop> {
    writer: W,
    faults: u64,
}

impl<W: Write + Drop> WriterSink<W> {
    ghost use Rattle.plank_io.specs.Adapters.{writer_of, writer_faults};

    /// A sink that has taken what the writer holds already, with no fault so far.
    pub fn new(writer: W) -> WriterSink<W>
        ensures writer { writer_of result ≡ writer }
        ensures faults { writer_faults result ≡ 0 }
    {
        WriterSink { writer, faults: 0 }
    }
}

impl<W: Write + Drop> Sink for WriterSink<W> {
    ghost use Rattle.plank_io.specs.Sinks.{Writes};
    ghost use Rattle.plank_io.specs.Adapters.{writer_of, writer_faults, faults_after_write};

    ghost taken = { λ s. W.contents (writer_of s) };

    ghost faults = { writer_faults };

    /// `Failed` where the writer takes no byte or gives an error.
    fn write(&mut self, piece: &[u8]) -> Took
        requires { 0 < length piece.now }
        ensures write { Writes (W.contents (writer_of self.old)) (W.contents (writer_of self.new)) result piece.now }
        ensures failed { result ≡ Took.Failed → Rose (writer_faults self.old) (writer_faults self.new) }
        ensures never_falls { writer_faults self.old ≤ writer_faults self.new }
        ensures counted { writer_faults self.new ≡ faults_after_write (writer_faults self.old) result }
    {
        match self.writer.write(piece) {
            Ok(count) if count > 0 => Took::Bytes(count),
            _ => {
                self.faults = self.faults.saturating_add(1);
                Took::Failed
            }
        }
    }
}
