use super::*;
use std::io;
use std::io::{ErrorKind, Read, Write};
use std::process::Abort;
use std::test::Fail;

// Reads into a slice of five bytes for each answer that is wanted.
fn expect_answers<S: Source>(rt: &impl Abort, source: &mut S, wants: &[Got]) {
    for want in wants {
        let mut piece = [0u8; 5];
        assert_eq!(rt; source.read(&mut piece), *want);
    }
}

#[test]
fn memory_source_answers_by_slice_most_and_listed_calls(rt: HostRuntime) -> Result<(), Fail> {
    let text = b"abcdefgh".as_slice();
    let mut source = MemSource::new(rt.alloc(), text, 3, &[])?;
    let wants = [Got::Bytes(3), Got::Bytes(3), Got::Bytes(2), Got::End];
    expect_answers(&rt, &mut source, wants.as_slice());
    let mut source = MemSource::new(rt.alloc(), text, 9, &[2, 4])?;
    let wants = [
        Got::Bytes(5),
        Got::Failed,
        Got::Bytes(3),
        Got::Failed,
        Got::End,
    ];
    expect_answers(&rt, &mut source, wants.as_slice());
    let mut empty = MemSource::new(rt.alloc(), b"".as_slice(), 1, &[])?;
    expect_answers(&rt, &mut empty, [Got::End, Got::End].as_slice());
    Ok(())
}

#[test]
fn reading_is_over_at_one_byte_past_the_limit(rt: HostRuntime) -> Result<(), Fail> {
    let text = b"abcdefgh".as_slice();
    let mut source = MemSource::new(rt.alloc(), text, 3, &[])?;
    let reading = read_up_to(rt.alloc(), &mut source, 8)?;
    assert!(rt; matches!(&reading, Reading::Whole(bytes) if bytes.as_slice() == text));
    let mut source = MemSource::new(rt.alloc(), text, 3, &[])?;
    let reading = read_up_to(rt.alloc(), &mut source, 6)?;
    let start = b"abcdefg".as_slice();
    assert!(rt; matches!(&reading, Reading::Over(bytes) if bytes.as_slice() == start));
    let mut source = MemSource::new(rt.alloc(), text, 3, &[2])?;
    assert!(rt; matches!(read_up_to(rt.alloc(), &mut source, 8)?, Reading::Failed));
    Ok(())
}

#[test]
fn memory_sink_fails_without_room_and_at_listed_calls(rt: HostRuntime) -> Result<(), Fail> {
    let output = b"abcdefgh".as_slice();
    let mut sink = MemSink::new(rt.alloc(), 5, 2, &[])?;
    assert_eq!(rt; write_all(&mut sink, output), Written::Failed(5));
    assert_eq!(rt; sink.taken(), b"abcde".as_slice());
    let mut sink = MemSink::new(rt.alloc(), 64, 2, &[3])?;
    assert_eq!(rt; write_all(&mut sink, output), Written::Failed(4));
    assert_eq!(rt; write_all(&mut sink, b"efgh".as_slice()), Written::Whole);
    assert_eq!(rt; sink.taken(), output);
    Ok(())
}

// A reader that is interrupted once, and then has nothing.
#[derive(Drop)]
struct Interrupted {
    was_read: bool,
}

impl Read for Interrupted {
    fn read(&mut self, _buf: &mut [u8]) -> io::Result<usize> {
        if self.was_read {
            return Ok(0);
        }
        self.was_read = true;
        Err(io::Error::from(ErrorKind::Interrupted))
    }
}

// A writer that takes nothing.
#[derive(Drop)]
struct Full;

impl Write for Full {
    fn write(&mut self, _buf: &[u8]) -> io::Result<usize> {
        Ok(0)
    }

    fn flush(&mut self) -> io::Result<()> {
        Ok(())
    }
}

#[test]
fn adapters_pass_on_what_reader_and_writer_tell(rt: HostRuntime) -> Result<(), Fail> {
    let text = b"abc".as_slice();
    let reading = read_up_to(rt.alloc(), &mut ReaderSource::new(text), 9)?;
    assert!(rt; matches!(&reading, Reading::Whole(bytes) if bytes.as_slice() == text));
    let mut interrupted = ReaderSource::new(Interrupted { was_read: false });
    expect_answers(&rt, &mut interrupted, [Got::Failed, Got::End].as_slice());
    let mut output = Vec::new(rt.alloc());
    let written = write_all(&mut WriterSink::new(&mut output), text);
    assert_eq!(rt; written, Written::Whole);
    assert_eq!(rt; output.as_slice(), text);
    let mut full = WriterSink::new(Full);
    assert_eq!(rt; write_all(&mut full, text), Written::Failed(0));
    Ok(())
}

fn pass_twice<G: Gate>(gate: &G) {
    gate.pass(1, 1);
    gate.pass(1, 2);
}

#[test]
fn open_gate_lets_every_worker_pass() {
    pass_twice(&OpenGate);
}
