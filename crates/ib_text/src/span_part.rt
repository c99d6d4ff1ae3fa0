//! The chunks of a scan as text.

ghost use Rattle.std.specs.Prelude.{flat_map};
ghost use Rattle.ib_map.specs.Chunks.{spans_of};
ghost use Rattle.ib_io.specs.Writer.{Puts};
ghost use Rattle.ib_text.specs.Output.{joined_spans};
ghost use Rattle.ib_text.specs.Spans.{AreNeighbours};

use crate::scan_text::ScanText;
use ib_io::{Sink, Writer};
use ib_map::{Chunk, Key};

// The chunks of one scan. Neighbouring chunks of one place are printed as one.
pub(crate) fn print_chunk_lines<T: ScanText, K: Sink>(
    writer: &mut Writer<'_, K>,
    list: &[Chunk],
    pairs: &[(Key, u64)],
)
    requires { AreNeighbours list.now pairs.now }
    ensures puts { Puts K.written K.faults writer.old writer.new (flat_map T.span (joined_spans (spans_of list.now pairs.now))) }
{
    let Some((chunk, rest)) = list.split_first() else {
        return;
    };
    let mut first = *chunk;
    let mut last = *chunk;
    for chunk in rest {
        if chunk.place != first.place {
            T::print_span(writer, &first, &last, pairs);
            first = *chunk;
        }
        last = *chunk;
    }
    T::print_span(writer, &first, &last, pairs);
}
