use thiserror::Error;

/// A command that is served a text from the source.
#[derive(Clone, Copy, Debug, PartialEq, Eq)]
pub enum Command {
    /// Judges the text, and writes the report.
    Verify,
    /// Judges it, and writes the report without its last line.
    Effects,
    /// Writes the text in canonical form.
    Print,
    /// Runs the schedule of the source on the text behind it.
    Trace,
}

/// What the words of a command line ask for.
#[derive(Clone, Copy, Debug, PartialEq, Eq)]
pub enum Asked {
    /// To serve the command, by so many workers, from 1 to 64.
    Serve(Command, u32),
    /// To judge the large text of so many methods, from 2 to 16.
    Large(u32),
}

/// Why words were not read.
#[derive(Clone, Copy, Debug, PartialEq, Eq, Error)]
pub enum WordsFault {
    /// They ask for nothing: they name no command, or the command does not take what follows.
    #[error("the words ask for nothing")]
    Usage,
    #[error("out of memory")]
    OutOfMemory,
}
