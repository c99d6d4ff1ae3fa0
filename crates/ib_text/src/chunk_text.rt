//! A scan told by the pairs of its chunks.

ghost use Rattle.std.specs.Prelude.{flat_map};
ghost use Rattle.ib_io.specs.Writer.{Puts};
ghost use Rattle.ib_text.specs.Output.{pair_line, record_line, span_text};

use crate::key::{print_two_keys, print_word_and_pair};
use crate::record_part::print_record_line;
use crate::scan_text::ScanText;
use ib_io::{Sink, Writer};
use ib_map::{Chunk, Key, Record};

fn print_pair_line<K: Sink>(writer: &mut Writer<'_, K>, key: Key, value: u64)
    ensures puts { Puts K.written K.faults writer.old writer.new (pair_line (key, value)) }
{
    print_word_and_pair(writer, b"pair ", key, value);
    writer.byte(b'\n');
}

fn print_pair_lines<K: Sink>(writer: &mut Writer<'_, K>, pairs: &[(Key, u64)])
    ensures puts { Puts K.written K.faults writer.old writer.new (flat_map pair_line pairs.now) }
{
    for pair in pairs {
        print_pair_line(writer, pair.0, pair.1);
    }
}

/// Scans of a map: each call is `CALL -> REPLY at P`, and each chunk `from A to B at P` with a line `pair K V` for each
/// of its pairs.
#[derive(Clone, Copy, Debug)]
pub struct ChunkText;

impl ScanText for ChunkText {
    ghost line = { record_line };

    ghost span = { span_text };

    fn print_line<K: Sink>(writer: &mut Writer<'_, K>, answered: &Record) {
        print_record_line(writer, answered);
    }

    fn print_span<K: Sink>(
        writer: &mut Writer<'_, K>,
        first: &Chunk,
        last: &Chunk,
        pairs: &[(Key, u64)],
    ) {
        let end = last.start as usize + last.len as usize;
        print_two_keys(writer, b"from ", first.low, b" to ", last.high);
        writer.text(b" at ");
        writer.number(u64::from(first.place));
        writer.byte(b'\n');
        print_pair_lines(writer, &pairs[first.start as usize..end]);
    }
}
