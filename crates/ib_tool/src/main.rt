//! The program `ib_tool`: scripts of inserts, deletes, lookups and scans, whose sessions run beside each other on one shared
//! index, events of the latch machine, raw logs, logs of version 1, and image files, from the bytes that are read to the bytes
//! that are written.
#![tactic(auto)]

mod answer;
mod args;
mod counting;
mod form;
mod laws;
mod print;
mod shape;
mod standard;
mod told_lines;
mod top;

use args::words;
pub use ib_io::{
    Failed, INPUT_BYTES, MemorySink, MemorySource, PIECE_BYTES, ReadError, Sink, Source, Status,
    read_all,
};
pub use ib_runs::{Access, Descents, Gate, OpenGate, SessionOut, Shared, run_session};
pub use laws::{raw_law, restored_law, text_law};
pub use standard::{StdSink, StdSource};
use std::process::ExitCode;
pub use top::top;

fn main(rt: HostRuntime) -> ExitCode {
    let mut source = StdSource::new(rt.stdin());
    let mut sink = StdSink::new(rt.stdout());
    let status = match words(&rt) {
        Ok(words) => top(&rt, rt.alloc(), &words, &mut source, &mut sink, &OpenGate),
        Err(_) => Status::Memory,
    };
    ExitCode::from(status.number())
}

#[cfg(test)]
mod tests;
