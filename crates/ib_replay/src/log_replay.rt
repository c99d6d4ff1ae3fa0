//! What the words of a log make, entry by entry.

ghost use Rattle.std.specs.Prelude.{◌≡◌, ◌+◌, ◌*◌, ◌^◌, ◌<◌, ◌≤◌, ℕ, [], ◌∷◌, ◌++◌, length, slice_index, slice_set, true, List, MatchResult, IfOk, OnOk, IfErr, IsTrue, All};
ghost use Rattle.ib_map.specs.Map.{answer_of, effect_of, is_made, key_of};
ghost use Rattle.ib_map.specs.declared.TheConstants.{PAGE_WORDS};
ghost use Rattle.ib_map.specs.Space.{has_pages};
ghost use Rattle.ib_logrec.specs.Grammar.{IsFault};
ghost use Rattle.ib_logrec.specs.declared.entry.Entry.{Entry};
ghost use Rattle.ib_logrec.specs.Log.{log_words, map_of};
ghost use Rattle.ib_walk.specs.Opening.{opening_word};
ghost use Rattle.ib_validate.specs.TreeMemory.{IsSettled};
ghost use Rattle.ib_tree.specs.Logs.{IsTreeEntry};
ghost use Rattle.ib_tree.specs.TreeLog.{IsTreeLog};
ghost use Rattle.ib_replay.specs.Replays.{IsMemory, IsReplayFault, change_fault};
ghost use Rattle.ib_replay.specs.TreeSteps.{AreTreePages, IsNext};

use crate::memory::Memory;
use ib_logrec::{Entry, LogFault, MOST_SESSIONS, UnlawfulKind, decode_at};
use ib_map::{Change, Key, MapFault, PlainMap};
use ib_sorted_map::SortedMap;
use ib_validate::TreePages;
use std::alloc::{AllocError, Global};

/// What a log makes of the opening memory and of the empty map.
#[derive(Drop)]
pub struct Replayed {
    /// The pages after all entries.
    pub memory: Memory,
    /// The entries, in the order of the log.
    pub entries: Vec<Entry>,
    /// The map that their changes give.
    pub map: PlainMap,
}

// One place for each session number, 0 among them.
const COUNTS: usize = MOST_SESSIONS as usize + 1;

/// What the words of a log make of the opening memory of so many pages and of the empty map. A fault is
/// the first one: of the words of an entry, or of its number, or of its change, or that its pages are no tree
/// with what the map has. The work for an entry is in the pages that it writes, their children and their
/// neighbours.
pub fn replay(alloc: Global, pages: u32, words: &[u64]) -> Result<Replayed, LogFault>
    requires few_words { length words.now < 2 ^ 32 }
    requires pages { has_pages pages ≡ true }

    // The words are those of the entries, which are lawful.
    ensures entries { IfOk result (λ replayed. words.now ≡ log_words replayed.entries.items) }
    ensures lawful { IfOk result (λ replayed. IsTreeLog pages replayed.entries.items) }

    ensures memory { IfOk result (λ replayed. IsMemory pages replayed.entries.items replayed.memory) }
    ensures map { IfOk result (λ replayed. replayed.map ≡ map_of replayed.entries.items) }

    // The words of lawful entries are read as those entries.
    ensures only { (log : List Entry) → IsTreeLog pages log → words.now ≡ log_words log
        → MatchResult result (λ replayed. replayed.entries.items ≡ log) (λ fault. fault ≡ LogFault.OutOfMemory) }

    // Which fault it is.
    ensures fault { IfErr result (IsReplayFault pages words.now) }
{
    put_entries(alloc, pages, words)
}

// What the words make, entry by entry, or their first fault.
fn put_entries(alloc: Global, pages: u32, words: &[u64]) -> Result<Replayed, LogFault>
    requires few_words { length words.now < 2 ^ 32 }
    requires pages { has_pages pages ≡ true }
    ensures entries { IfOk result (λ replayed. words.now ≡ log_words replayed.entries.items) }
    ensures lawful { IfOk result (λ replayed. IsTreeLog pages replayed.entries.items) }
    ensures memory { IfOk result (λ replayed. IsMemory pages replayed.entries.items replayed.memory) }
    ensures map { IfOk result (λ replayed. replayed.map ≡ map_of replayed.entries.items) }
    ensures fault { IfErr result (IsReplayFault pages words.now) }
{
    let mut tree = TreePages::opening(alloc, pages)?;
    let mut map = SortedMap::new(alloc);
    let mut counts = [0; COUNTS];
    let mut entries = Vec::new(alloc);
    let mut place = 0;
    while (place as usize) < words.len() {
        let (entry, next) = decode_at(alloc, words, place, pages)?;
        put_change(&mut map, &mut counts, &entry, place)?;
        if !put_writes(&mut tree, &entry, &map) {
            return Err(LogFault::Unlawful {
                place,
                kind: UnlawfulKind::Tree,
            });
        }
        entries.push(entry)?;
        place = next;
    }
    Ok(Replayed {
        memory: Memory::from_images(tree.into_images()),
        entries,
        map: map.to_plain(alloc)?,
    })
}

// Makes the change of an entry that begins at `place`. `counts` has the number of each session's entries.
fn put_change(
    map: &mut SortedMap,
    counts: &mut [u32],
    entry: &Entry,
    place: u32,
) -> Result<(), LogFault>
    requires session { entry.now.session < length counts.old }
    requires number { 1 ≤ entry.now.number }
    ensures numbered { OnOk result (entry.now.number ≡ slice_index counts.old entry.now.session + 1) }
    ensures made { OnOk result (is_made (answer_of map.old entry.now.change) ≡ true) }
    ensures map { OnOk result (map.new ≡ effect_of map.old entry.now.change) }
    ensures counts { OnOk result (counts.new ≡ slice_set counts.old entry.now.session entry.now.number) }
    ensures fault { IfErr result (IsFault (change_fault place (slice_index counts.old entry.now.session) map.old entry.now)) }
{
    if entry.number - 1 != counts[entry.session as usize] {
        return Err(LogFault::Unlawful {
            place,
            kind: UnlawfulKind::Number,
        });
    }
    if !make(map, entry.change)? {
        return Err(LogFault::Unlawful {
            place,
            kind: UnlawfulKind::Change,
        });
    }
    counts[entry.session as usize] = entry.number;
    Ok(())
}

// Stores what an entry writes, and tells whether its pages are one tree then that has what the map has.
fn put_writes(tree: &mut TreePages, entry: &Entry, map: &SortedMap) -> bool
    requires settled { IsSettled tree.old }
    requires places { All (λ w. w.place < length tree.old.before * PAGE_WORDS) entry.now.writes }
    ensures sound { (pages : ℕ) (log : List Entry) → IsNext pages log entry.now tree.old map.now → IsTrue result
        → IsTreeEntry pages 1 (opening_word 1) log entry.now × AreTreePages pages (log ++ entry.now ∷ []) tree.new }
    ensures complete { (pages : ℕ) (log : List Entry) → IsNext pages log entry.now tree.old map.now
        → IsTreeEntry pages 1 (opening_word 1) log entry.now → IsTrue result }
{
    tree.store(entry.writes.as_slice());
    if !tree.is_tree(changed_key(entry.change), map) {
        return false;
    }
    tree.settle();
    true
}

// The key that a change is of.
fn changed_key(change: Change) -> Key
    ensures { result ≡ key_of change }
{
    match change {
        Change::Insert { key, .. } | Change::Delete { key } => key,
    }
}

// Makes the change, and tells whether the map makes it.
fn make(map: &mut SortedMap, change: Change) -> Result<bool, AllocError>
    ensures made { IfOk result (λ made. made ≡ is_made (answer_of map.old change)) }
    ensures effect { OnOk result (map.new ≡ effect_of map.old change) }
{
    match change {
        Change::Insert { key, value } => match map.insert(key, value) {
            Ok(()) => Ok(true),
            Err(MapFault::Duplicate) => Ok(false),
            Err(_) => Err(AllocError),
        },
        Change::Delete { key } => match map.delete(key) {
            Ok(_) => Ok(true),
            Err(_) => Ok(false),
        },
    }
}
