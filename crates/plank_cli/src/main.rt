//! The program: judges the text on standard input as its arguments ask, and writes to standard output.
//!
//! It writes nothing to standard error. Its exit status is that of [`plank_top::Status`]; it is 8
//! where memory for the arguments is refused, and 5 where they can't be had for another cause or one
//! is not text, and then nothing is read or written.
#![tactic(auto)]

use plank_io::{OpenGate, ReaderSource, WriterSink};
use plank_top::{Status, top};
use std::env;
use std::io::ErrorKind;
use std::process::ExitCode;

/// The arguments, the first of which is the program's name.
fn arguments(rt: &HostRuntime) -> Result<Vec<String>, Status> {
    let arguments = match env::args(rt) {
        Ok(arguments) => arguments,
        Err(error) => {
            return Err(match error.kind() {
                ErrorKind::OutOfMemory => Status::OutOfMemory,
                _ => Status::Usage,
            });
        }
    };
    arguments
        .collect(rt.alloc())
        .map_err(|_| Status::OutOfMemory)
}

/// The words of a command line, after the program's name.
fn words(arguments: &[String]) -> &[String] {
    match arguments {
        [_program, words @ ..] => words,
        [] => &[],
    }
}

fn main(rt: HostRuntime) -> ExitCode {
    let arguments = match arguments(&rt) {
        Ok(arguments) => arguments,
        Err(status) => return ExitCode::from(status.exit()),
    };
    let mut source = ReaderSource::new(rt.stdin());
    let mut sink = WriterSink::new(rt.stdout());
    let words = words(&arguments);
    let status = top(&rt, rt.alloc(), words, &mut source, &mut sink, &OpenGate);
    ExitCode::from(status.exit())
}
