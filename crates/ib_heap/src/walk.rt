//! The records of a page in the order of the chain.

ghost use Rattle.std.specs.Prelude.{◌≡◌, ◌+◌, ◌/◌, ◌%◌, ◌<◌, ◌≤◌, ◌++◌, length, drop, slice_get, slice_index, IsTrue, Some, ◌↔◌};
ghost use Rattle.ib_map.specs.Keys.{rank};
ghost use Rattle.ib_map.specs.Pairs.{cut};
ghost use Rattle.ib_heap.specs.Chain.{key_at};
ghost use Rattle.ib_heap.specs.Image.{IsTreePage, records_of};

use crate::form::{
    DIRECTORY, FIRST_KEY_WORD, INFIMUM, OWNED_UNIT, SECOND_KEY_WORD, VALUE_WORD, count,
};
use ib_map::{Key, is_below};

// The offset behind another in the chain.
pub(crate) fn next_word(words: &[u64], offset: usize) -> usize
    requires { offset < length words.now }
    ensures next { result ≡ slice_index words.now offset % OWNED_UNIT }
    ensures low { result < OWNED_UNIT }
{
    (words[offset] % OWNED_UNIT) as usize
}

// How many records the slot of an offset owns, 0 where it has none.
pub(crate) fn owned_word(words: &[u64], offset: usize) -> u64
    requires { offset < length words.now }
    ensures { result ≡ slice_index words.now offset / OWNED_UNIT }
{
    words[offset] / OWNED_UNIT
}

// The offset of the record that owns a slot.
pub(crate) fn slot_word(words: &[u64], slot: usize) -> usize
    requires { DIRECTORY + slot < length words.now }
    ensures { result ≡ slice_index words.now (DIRECTORY + slot) }
{
    words[DIRECTORY + slot] as usize
}

// The key and the value at an offset.
pub(crate) fn record_of(words: &[u64], offset: usize) -> (Key, u64)
    requires { offset + VALUE_WORD < length words.now }
    ensures { result ≡ (key_at words.now offset, slice_index words.now (offset + VALUE_WORD)) }
{
    let key = Key::in_words(
        words[offset + FIRST_KEY_WORD],
        words[offset + SECOND_KEY_WORD],
    );
    (key, words[offset + VALUE_WORD])
}

/// The key and the value of a record, by its index in the order of keys (`page_rec_get_nth`). It is found along the
/// chain.
pub fn record_at(words: &[u64], index: usize) -> (Key, u64)
    requires tree { IsTreePage words.now }
    requires in_range { index < length (records_of words.now) }
    ensures { slice_get (records_of words.now) index ≡ Some result }
{
    let mut at = next_word(words, INFIMUM);
    for _step in 0..index {
        at = next_word(words, at);
    }
    record_of(words, at)
}

/// Copies the records whose keys are neither below `low` nor above `high` to the front of `out`, in their order,
/// and says how many they are. `out` must have room for all records of the page.
pub fn copy_between(words: &[u64], low: Key, high: Key, out: &mut [(Key, u64)]) -> usize
    requires tree { IsTreePage words.now }
    requires room { length (records_of words.now) ≤ length out.old }
    ensures records { let records = cut (records_of words.now) low high in out.new ≡ records ++ drop (length records) out.old }
    ensures count { result ≡ length (cut (records_of words.now) low high) }
{
    let len = count(words);
    let mut copied = 0;
    let mut at = next_word(words, INFIMUM);
    for index in 0..len {
        let record = record_of(words, at);
        if is_between(low, high, record.0) {
            out[copied] = record;
            copied += 1;
        }
        at = next_word(words, at);
    }
    copied
}

// Whether a key is neither below `low` nor above `high`.
fn is_between(low: Key, high: Key, key: Key) -> bool
    ensures { IsTrue result ↔ ((rank low ≤ rank key) × (rank key ≤ rank high)) }
{
    !is_below(key, low) && !is_below(high, key)
}
