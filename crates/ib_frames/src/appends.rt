//! The append of an entry: the page words that it writes, its own words, and the log's end.

ghost use Rattle.std.specs.Prelude.{◌≡◌, ◌↔◌, ◌+◌, ◌*◌, ◌^◌, ◌<◌, ◌≤◌, length, IfOk, IfErr, IfSome, IsErr};
ghost use Rattle.ib_logrec.specs.Log.{used};
ghost use Rattle.ib_logrec.specs.Words.{words_of_entry};
ghost use Rattle.ib_rule.specs.Pass.{IsFrom, IsOf, with_view};
ghost use Rattle.ib_rule.specs.Stores.{appending};
ghost use Rattle.ib_rule.specs.Writing.{MayStore, entry_of};
ghost use Rattle.ib_frames.specs.Appends.{IsLaidOut, MayAppend, entry_for};
ghost use Rattle.ib_frames.specs.Storing.{HasStored, PagesStored, WordsStored};

use crate::entries::{lay_out_once, write_at};
use ib_logrec::{HEAD_WORDS, Law};
use ib_map::Change;
use ib_page::WorkSet;
use ib_rule::{ENTRY_WORDS, Pass, Space};
use thiserror::Error;

/// The log has fewer than `ENTRY_WORDS` words left.
#[derive(Clone, Copy, Debug, PartialEq, Eq, Error)]
#[error("{used} of {cap} log words are used")]
pub struct LogFull {
    /// The log words that the entries have.
    pub used: u32,
    /// How many words the log has.
    pub cap: u32,
}

/// Appends an entry for the change, with the words in which the pages of the work set differ from what
/// was read, and answers its place in the log. This is the commit of a mini-transaction (mtr0mtr): its
/// writes become visible to who latches a page afterwards, and the log tells them in order.
///
/// The words that differ are stored in the pages, then the entry's words behind those of the log
/// (head, then place and value of each write: as log0recv reads them), and at last the log's end, which
/// is the append. Nobody else stores meanwhile, since the session owns X on the log latch and on each
/// page that it writes, and, where it writes more than one, SX on the index and not X (WL#6326).
///
/// Refused exactly where the log has fewer than `ENTRY_WORDS` words left: then nothing
/// happened. Of the pass only its view changes, and the words that it lends for an entry.
pub fn append<L: Law>(
    space: &Space<L>,
    pass: &mut Pass,
    change: Change,
    work: &WorkSet,
) -> Result<u32, LogFull>
    requires own { IsOf space.now pass.old }
    requires may { used pass.old.view.memory.seen + ENTRY_WORDS ≤ space.now.sizes.log_words
        → MayAppend (L.lawful space.now.sizes.pages) pass.old change work.now }
    ensures place { IfOk result (λ place. place ≡ length pass.old.view.memory.seen) }
    ensures ok { IfOk result (λ place. pass.new ≡ record (with_view pass.old
        (appending (entry_for pass.old change work.now) pass.old.view)) {
          words = pass.new.words;
        }) }
    ensures err { IfErr result (λ full. (full.used ≡ used pass.old.view.memory.seen)
        × (full.cap ≡ space.now.sizes.log_words) × (pass.new ≡ pass.old)) }
    ensures full { IsErr result
        ↔ (space.now.sizes.log_words < used pass.old.view.memory.seen + ENTRY_WORDS) }
{
    append_laid(space, pass, change, work, None)
}

/// `append`, where the entry may stand at the front of the pass's words already: `laid` says so, with how many
/// writes it has, as `lay_out` told it. None has it laid out first.
///
/// ```
/// let laid = lay_out(pass, change, work);
/// let place = append_laid(space, pass, change, work, Some(laid))?;
/// ```
pub fn append_laid<L: Law>(
    space: &Space<L>,
    pass: &mut Pass,
    change: Change,
    work: &WorkSet,
    laid: Option<usize>,
) -> Result<u32, LogFull>
    requires own { IsOf space.now pass.old }
    requires laid { IfSome laid (IsLaidOut pass.old change work.now) }
    requires may { used pass.old.view.memory.seen + ENTRY_WORDS ≤ space.now.sizes.log_words
        → MayAppend (L.lawful space.now.sizes.pages) pass.old change work.now }
    ensures place { IfOk result (λ place. place ≡ length pass.old.view.memory.seen) }
    ensures ok { IfOk result (λ place. pass.new ≡ record (with_view pass.old
        (appending (entry_for pass.old change work.now) pass.old.view)) {
          words = pass.new.words;
        }) }
    ensures err { IfErr result (λ full. (full.used ≡ used pass.old.view.memory.seen)
        × (full.cap ≡ space.now.sizes.log_words) × (pass.new ≡ pass.old)) }
    ensures full { IsErr result
        ↔ (space.now.sizes.log_words < used pass.old.view.memory.seen + ENTRY_WORDS) }
{
    let geometry = space.geometry();
    // For the proof: the law of logs speaks of the numbers of pages that a space has.
    let _ = geometry.pages();
    let cap = geometry.log_words();
    let used = pass.used();
    if cap < used + ENTRY_WORDS as u32 {
        return Err(LogFull { used, cap });
    }
    let place = pass.place();
    let writes = lay_out_once(pass, change, work, laid);
    append_words(space, pass, used, writes);
    Ok(place)
}

// Appends the entry at the front of the pass's words.
fn append_words<L: Law>(space: &Space<L>, pass: &mut Pass, first: u32, writes: usize)
    requires own { IsFrom space.now pass.old }
    requires ready { MayStore space.now.sizes (L.lawful space.now.sizes.pages) pass.old }
    requires first { first ≡ used pass.old.view.memory.seen }
    requires room { first + ENTRY_WORDS < 2 ^ 32 }
    requires writes { writes ≡ length (entry_of pass.old).writes }
    ensures { pass.new ≡ with_view pass.old (appending (entry_of pass.old) pass.old.view) }
{
    store_pages(space, pass, writes);
    store_words(space, pass, first, HEAD_WORDS + 2 * writes);
    space.store_end(pass);
}

// Stores the page words that the entry at the front of the pass's words writes.
fn store_pages<L: Law>(space: &Space<L>, pass: &mut Pass, writes: usize)
    requires own { IsFrom space.now pass.old }
    requires ready { MayStore space.now.sizes (L.lawful space.now.sizes.pages) pass.old }
    requires writes { writes ≡ length (entry_of pass.old).writes }
    ensures during { HasStored (entry_of pass.old) pass.old pass.new }
    ensures stored { PagesStored (entry_of pass.old) writes pass.new }
{
    // For the proof: the places of page words fit 32 bits.
    let _ = space.geometry().pages();
    for i in 0..writes {
        let write = write_at(pass.words(), i);
        space.store_page_word(pass, write.page(), write.index() as u32, write.value);
    }
}

// Stores the words of the entry in the log, from the first one that is free on.
fn store_words<L: Law>(space: &Space<L>, pass: &mut Pass, first: u32, count: usize)
    requires own { IsFrom space.now pass.old }
    requires ready { MayStore space.now.sizes (L.lawful space.now.sizes.pages) pass.old }
    requires first { first ≡ used pass.old.view.memory.seen }
    requires count { count ≡ length (words_of_entry (entry_of pass.old)) }
    requires room { first + count < 2 ^ 32 }
    ensures during { HasStored (entry_of pass.old) pass.old pass.new }
    ensures stored { WordsStored (entry_of pass.old) count pass.new }
{
    for i in 0..count {
        let word = pass.words()[i];
        space.store_log_word(pass, first + i as u32, word);
    }
}
