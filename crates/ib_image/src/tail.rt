//! The entries of a tail, tested for their grammar alone: what stands before them is not known.

ghost use Rattle.std.specs.Prelude.{◌≡◌, ◌^◌, ◌<◌, true, length, IfOk, IfErr};
ghost use Rattle.ib_map.specs.Space.{has_pages};
ghost use Rattle.ib_logrec.specs.Law.{AreInGrammar};
ghost use Rattle.ib_logrec.specs.Log.{log_words};
ghost use Rattle.ib_image.specs.Tails.{IsTailRefused};

use ib_logrec::{Entry, LogFault, decode_at};
use std::alloc::Global;

// The entries that the words of a tail spell, in a space of so many pages, or the first fault of the words.
pub(crate) fn read_tail(alloc: Global, pages: u32, words: &[u64]) -> Result<Vec<Entry>, LogFault>
    requires few_words { length words.now < 2 ^ 32 }
    requires pages { has_pages pages ≡ true }
    ensures entries { IfOk result (λ tail. words.now ≡ log_words tail.items) }
    ensures grammar { IfOk result (λ tail. AreInGrammar pages tail.items) }
    ensures fault { IfErr result (IsTailRefused pages words.now) }
{
    let mut entries = Vec::new(alloc);
    let mut place = 0;
    while (place as usize) < words.len() {
        let (entry, next) = decode_at(alloc, words, place, pages)?;
        entries.push(entry)?;
        place = next;
    }
    Ok(entries)
}
