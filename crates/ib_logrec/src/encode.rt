//! From an entry to its words.

ghost use Rattle.std.specs.Prelude.{◌≡◌, ◌+◌, ◌*◌, ◌≤◌, ◌++◌, length, drop};
ghost use Rattle.ib_map.specs.Writes.{write_words};
ghost use Rattle.ib_logrec.specs.Words.{words_of_entry};

use crate::entry::{Entry, HEAD_WORDS, MOST_WRITES};
use ib_map::Write;

/// Writes the entry's words to the front of `out`, and answers how many they are. What stands behind
/// them stays.
#[tactic(auto, unfolding(crate::specs::Words::words_of_entry))]
pub fn encode_into(entry: &Entry, out: &mut [u64]) -> usize
    requires few { length entry.now.writes ≤ MOST_WRITES }
    requires room { HEAD_WORDS + 2 * length entry.now.writes ≤ length out.old }
    ensures words { out.new ≡ words_of_entry entry.now ++ drop result out.old }
    ensures number { result ≡ HEAD_WORDS + 2 * length entry.now.writes }
{
    let writes = entry.writes.as_slice();
    put_writes(writes, &mut out[HEAD_WORDS..]);
    entry.head().write_into(out);
    HEAD_WORDS + 2 * writes.len()
}

// The place and the value of each write, to the front of `out`.
fn put_writes(writes: &[Write], out: &mut [u64])
    requires { 2 * length writes.now ≤ length out.old }
    ensures { out.new ≡ write_words writes.now ++ drop (2 * length writes.now) out.old }
{
    for (i, write) in writes.iter().enumerate() {
        out[2 * i] = u64::from(write.place);
        out[2 * i + 1] = write.value;
    }
}
