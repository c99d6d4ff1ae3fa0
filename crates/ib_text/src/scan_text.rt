//! How the calls of a session are told.

use ib_io::{Sink, Writer};
use ib_map::{Chunk, Key, Record};

/// How the calls of a session are told: a line for each, and the chunks of a scan.
pub trait ScanText {
    ghost use Rattle.std.specs.Prelude.{ℕ, ◌+◌, ◌≤◌, List, length};
    ghost use Rattle.ib_map.specs.Replies.{Span};
    ghost use Rattle.ib_map.specs.declared.call.Call.{Call};
    ghost use Rattle.ib_map.specs.declared.call.Reply.{Reply};
    ghost use Rattle.ib_io.specs.Writer.{Puts};
    ghost use Rattle.ib_text.specs.Spans.{span_between};

    // a call, its reply and its place
    ghost line: { Call → Reply → ℕ → List ℕ };

    // a chunk of a scan, with its neighbours of one place
    ghost span: { Span → List ℕ };

    /// A call, its reply and its place on a line.
    fn print_line<K: Sink>(writer: &mut Writer<'_, K>, answered: &Record)
        ensures puts { Puts K.written K.faults writer.old writer.new (line answered.now.call answered.now.reply answered.now.place) };

    /// The chunks of one place from a first one to a last one, as one.
    fn print_span<K: Sink>(
        writer: &mut Writer<'_, K>,
        first: &Chunk,
        last: &Chunk,
        pairs: &[(Key, u64)],
    )
        requires order { first.now.start ≤ last.now.start + last.now.len }
        requires within { last.now.start + last.now.len ≤ length pairs.now }
        ensures puts { Puts K.written K.faults writer.old writer.new (span (span_between first.now last.now pairs.now)) };
}
