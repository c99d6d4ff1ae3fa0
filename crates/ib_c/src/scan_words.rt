//! The chunks of a scan as words, for C.

ghost use Rattle.std.specs.Prelude.{◌≡◌, ◌+◌, ◌*◌, ◌≤◌, ◌++◌, length, take, drop};
ghost use Rattle.ib_c.specs.ScanWords.{HasPut, HasPutChunks, chunk_words};

use crate::replay::put_all as put_pairs;
use ib_map::{Chunk, Chunks};

/// How many words a chunk takes.
pub(crate) const CHUNK_WORDS: usize = 6;

const _: () = prove!(CHUNK_WORDS == 6);

// Writes the words of a chunk from this place on.
fn put_chunk(chunk: Chunk, out: &mut [u64], at: usize)
    requires { at + 6 ≤ length out.old }
    ensures { out.new ≡ take at out.old ++ chunk_words chunk ++ drop (at + 6) out.old }
{
    let (low_first, low_second) = chunk.low.words();
    let (high_first, high_second) = chunk.high.words();
    out[at..at + CHUNK_WORDS].copy_from_slice(&[
        low_first,
        low_second,
        high_first,
        high_second,
        u64::from(chunk.place),
        u64::from(chunk.len),
    ]);
}

// Writes the words of the chunks to the front.
fn put_chunks(list: &[Chunk], out: &mut [u64])
    requires { 6 * length list.now ≤ length out.old }
    ensures { HasPutChunks list.now out.old out.new }
{
    for (k, chunk) in list.iter().enumerate() {
        put_chunk(*chunk, out, CHUNK_WORDS * k);
    }
}

/// Writes the words of the chunks to the front of the one slice, and those of their pairs to the front of the other.
pub(crate) fn put(held: &Chunks, chunks: &mut [u64], pairs: &mut [u64])
    requires chunks { 6 * length held.now.list ≤ length chunks.old }
    requires pairs { 3 * length held.now.pairs ≤ length pairs.old }
    ensures { HasPut held.now chunks.old pairs.old chunks.new pairs.new }
{
    put_chunks(held.list(), chunks);
    put_pairs(held.pairs(), pairs);
}
