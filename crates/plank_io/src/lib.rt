//! The outside of the prover: where the text comes from, where the output goes, and the gate that
//! workers pass.
#![tactic(auto)]

mod adapters;
mod calls;
mod gates;
mod mem_sink;
mod mem_source;
mod sinks;
mod sources;
mod whole;

pub use adapters::{ReaderSource, WriterSink};
pub use gates::{Gate, OpenGate};
pub use mem_sink::MemSink;
pub use mem_source::MemSource;
pub use sinks::{Sink, Took};
pub use sources::{Got, Source};
pub use whole::{PIECE_LIMIT, Reading, Written, read_up_to, write_all};

#[cfg(test)]
mod tests;
