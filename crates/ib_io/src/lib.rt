//! Bytes in and bytes out, for every form of the program: sources and sinks, the one buffered writer, lines, fields
//! and numbers, bad lines, how the program ends, and what is told then.
#![tactic(auto)]

mod bad_line;
mod buffer;
mod line;
mod line_kind;
mod memory_sink;
mod memory_source;
mod number;
mod place;
mod printed;
mod read;
mod sink;
mod source;
mod status;
mod writer;

pub use bad_line::{BadLine, LineFault, ScriptFault, refuse};
pub use buffer::BUFFER_BYTES;
pub use line::{first_field, first_line, is_skipped};
pub use line_kind::{LineKind, MOST_SCRIPT_SESSIONS};
pub use memory_sink::MemorySink;
pub use memory_source::MemorySource;
pub use number::{number_in, session_in};
pub use printed::{Printed, tell};
pub use read::{INPUT_BYTES, PIECE_BYTES, ReadError, read_all};
pub use sink::{Failed, Sink, write_all};
pub use source::Source;
pub use status::Status;
pub use writer::Writer;
