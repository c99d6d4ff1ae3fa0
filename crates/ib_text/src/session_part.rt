//! What a session was answered, as text.

ghost use Rattle.std.specs.Prelude.{◌≡◌, flat_map, length};
ghost use Rattle.ib_map.specs.Chunks.{spans_of};
ghost use Rattle.ib_map.specs.FullRecords.{chunk_count, full_records, total_chunks};
ghost use Rattle.ib_io.specs.Writer.{Puts};
ghost use Rattle.ib_text.specs.Output.{record_text_by, session_text_by};

use crate::scan_text::ScanText;
use crate::span_part::print_chunk_lines;
use ib_io::{Sink, Writer};
use ib_map::{Chunks, Record, Reply};

fn chunk_count(reply: Reply) -> usize
    ensures { result ≡ chunk_count reply }
{
    match reply {
        Reply::Scanned { chunks, .. } => chunks as usize,
        _ => 0,
    }
}

fn print_record_lines<T: ScanText, K: Sink>(
    writer: &mut Writer<'_, K>,
    records: &[Record],
    chunks: &Chunks,
)
    requires { total_chunks records.now ≡ length chunks.now.list }
    ensures puts { Puts K.written K.faults writer.old writer.new (flat_map (record_text_by (record { line = T.line; span = T.span })) (full_records records.now (spans_of chunks.now.list chunks.now.pairs))) }
{
    let list = chunks.list();
    let mut next = 0;
    for answered in records {
        let end = next + chunk_count(answered.reply);
        T::print_line(writer, answered);
        print_chunk_lines::<T, _>(writer, &list[next..end], chunks.pairs());
        next = end;
    }
}

/// A session's part: `session N`, and for each of its records a line and the chunks of its scan, which
/// stand in `chunks` one scan's behind another's; nothing where it has no record.
pub fn print_session<T: ScanText, K: Sink>(
    writer: &mut Writer<'_, K>,
    session: u32,
    records: &[Record],
    chunks: &Chunks,
)
    requires { total_chunks records.now ≡ length chunks.now.list }
    ensures puts { Puts K.written K.faults writer.old writer.new (session_text_by (record { line = T.line; span = T.span }) session (full_records records.now (spans_of chunks.now.list chunks.now.pairs))) }
{
    if records.is_empty() {
        return;
    }
    writer.word_and_number(b"session ", u64::from(session));
    writer.byte(b'\n');
    print_record_lines::<T, _>(writer, records, chunks);
}
