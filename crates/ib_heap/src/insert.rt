//! A record put into a page: its offset, its links in the chain, and its slot (`page_cur_insert_rec_low`).

ghost use Rattle.std.specs.Prelude.{◌≡◌, ◌≢◌, ◌+◌, ◌-◌, ◌<◌, ◌≤◌, ◌⊎◌, ℕ, length, slice_index, OnOk, None};
ghost use Rattle.ib_map.specs.Pairs.{put, value_at, index_of};
ghost use Rattle.ib_heap.specs.Form.{page_of};
ghost use Rattle.ib_heap.specs.Image.{IsTreePage, records_of, value_with_records};
ghost use Rattle.ib_heap.specs.Chain.{nodes_of};
ghost use Rattle.ib_heap.specs.Heap.{read_heap, used_offsets};
ghost use Rattle.ib_heap.specs.Put.{offset_for, put_in};
ghost use Rattle.ib_heap.specs.Changes.{HasPut};
ghost use Rattle.ib_heap.specs.Kept.{IsKept, IsOutside};
ghost use Rattle.ib_heap.specs.Steps.{IsOffsetOfKey, IsOffsetTaken, CanLink, IsLinkedIn, CanSplitSlot, IsSlotSplit};
ghost use Rattle.ib_heap.specs.Walks.{end_from};

use crate::MOST_RECORDS;
use crate::fault::PageFault;
use crate::form::{
    COUNT, DIRECTORY, FEWEST_OWNED, FIRST_KEY_WORD, FREE, MOST_OWNED, MOST_SLOTS, OWNED_UNIT,
    RECORD_WORDS, SECOND_KEY_WORD, TOP, VALUE_WORD, count,
};
use crate::search::{Cursor, find, seek};
use crate::walk::{next_word, owned_word, slot_word};
use ib_map::{Key, PAGE_WORDS};

/// Puts a record in: it takes the first free offset, or the one at the top, its neighbours in the order of keys
/// are linked to it, and a slot that would own nine is split (`page_cur_insert_rec_low`, `page_dir_split_slot`).
/// Refused as `Duplicate` exactly where the key is there, and then as `PageFull` exactly where there are
/// `MOST_RECORDS` records. A page that refuses is unchanged.
pub fn put(words: &mut [u64], key: Key, value: u64) -> Result<(), PageFault>
    requires { IsTreePage words.old }
    ensures put { HasPut words.old words.new key value result }
    ensures kept { OnOk result ((i : ℕ) → IsKept (used_offsets (read_heap words.new)) i → IsOutside (offset_for (read_heap words.old)) i → slice_index words.new i ≡ slice_index words.old i) }
{
    match find(words, key) {
        Ok(_) => Err(PageFault::Duplicate),
        Err(_) => {
            if count(words) == MOST_RECORDS {
                return Err(PageFault::PageFull);
            }
            put_new(words, key, value);
            Ok(())
        }
    }
}

/// Puts a record in whose key is not there, where it stands by its key.
#[tactic(none)]
pub(crate) fn put_new(words: &mut [u64], key: Key, value: u64)
    requires tree { IsTreePage words.old }
    requires few { length (records_of words.old) < MOST_RECORDS }
    requires absent { value_at key (records_of words.old) ≡ None }
    ensures page { page_of words.new ≡ value_with_records (put key value (records_of words.old)) (page_of words.old) }
    ensures heap { read_heap words.new ≡ put_in (index_of key (records_of words.old)) (read_heap words.old) }
    ensures kept { (i : ℕ) → IsKept (used_offsets (read_heap words.new)) i → IsOutside (offset_for (read_heap words.old)) i → slice_index words.new i ≡ slice_index words.old i }
{
    let cursor = locate(words, key);
    let first = slot_word(words, cursor.slot - 1);
    let owner = slot_word(words, cursor.slot);
    let offset = take_offset(words);
    link(words, cursor, owner, offset, key, value);
    if owned_word(words, owner) > MOST_OWNED {
        let middle = fourth_behind(words, first);
        split_slot(words, cursor.slot, middle, owner);
    }
}

// The fourth offset behind another in the chain.
fn fourth_behind(words: &[u64], offset: usize) -> usize
    requires { (n : ℕ) → n < FEWEST_OWNED → end_from words.now n offset < length words.now }
    ensures { result ≡ end_from words.now FEWEST_OWNED offset }
{
    let mut at = offset;
    for _step in 0..4usize {
        at = next_word(words, at);
    }
    at
}

/// Finds a key.
pub(crate) fn locate(words: &[u64], key: Key) -> Cursor
    requires { IsTreePage words.now }
    ensures { IsOffsetOfKey words.now key result.slot result.before result.at }
{
    let mut page = words;
    seek(&mut page, key)
}

// Writes a word.
pub(crate) fn write(words: &mut [u64], i: usize, word: u64)
    requires { i < length words.old }
    ensures here { slice_index words.new i ≡ word }
    ensures other { (j : ℕ) → j ≢ i → slice_index words.new j ≡ slice_index words.old j }
    ensures size { length words.new ≡ length words.old }
{
    words[i] = word;
}

// The offset for a new record, which is free no more.
fn take_offset(words: &mut [u64]) -> usize
    requires tree { IsTreePage words.old }
    requires few { length (nodes_of words.old) < MOST_RECORDS }
    ensures { IsOffsetTaken words.old words.new result }
{
    let first = words[FREE];
    if first != 0 {
        let next = words[first as usize];
        write(words, FREE, next);
        return first as usize;
    }
    let top = words[TOP];
    write(words, TOP, top + RECORD_WORDS as u64);
    (top % OWNED_UNIT) as usize
}

// Writes a record, and its offset into the chain between its neighbours, and counts it.
fn link(words: &mut [u64], cursor: Cursor, owner: usize, offset: usize, key: Key, value: u64)
    requires { CanLink words.old cursor.before cursor.at owner offset }
    ensures { IsLinkedIn words.old words.new cursor.before cursor.at owner offset key value }
{
    let count = words[COUNT];
    let header = words[cursor.before];
    let owned = words[owner];
    let (first, second) = key.words();
    write(words, offset, cursor.at as u64);
    write(words, offset + FIRST_KEY_WORD, first);
    write(words, offset + SECOND_KEY_WORD, second);
    write(words, offset + VALUE_WORD, value);
    write(
        words,
        cursor.before,
        header - cursor.at as u64 + offset as u64,
    );
    write(words, owner, owned + OWNED_UNIT);
    write(words, COUNT, count + 1);
}

// Makes room in the directory before a slot's owner.
fn open_slot(words: &mut [u64], slot: usize, last: usize)
    requires size { length words.old ≡ PAGE_WORDS }
    requires slot { slot ≤ last }
    requires last { last ≤ MOST_SLOTS - 2 }
    ensures before { (m : ℕ) → m ≤ slot → slice_index words.new (DIRECTORY + m) ≡ slice_index words.old (DIRECTORY + m) }
    ensures behind { (m : ℕ) → slot ≤ m → m ≤ last → slice_index words.new (DIRECTORY + (m + 1)) ≡ slice_index words.old (DIRECTORY + m) }
    ensures other { (i : ℕ) → (i < DIRECTORY) ⊎ (DIRECTORY + 1 + last < i) → slice_index words.new i ≡ slice_index words.old i }
    ensures size { length words.new ≡ length words.old }
{
    for step in 0..last + 1 - slot {
        let from = DIRECTORY + last - step;
        let word = words[from];
        write(words, from + 1, word);
    }
}

// Splits a slot of nine: the fourth of its records owns the first four, and the old owner keeps the others
// (`page_dir_split_slot`).
fn split_slot(words: &mut [u64], slot: usize, middle: usize, owner: usize)
    requires { CanSplitSlot words.old slot middle owner }
    ensures { IsSlotSplit words.old words.new slot middle owner }
{
    let top = words[TOP];
    let last = (top / OWNED_UNIT) as usize - 1;
    let more = words[middle];
    let fewer = words[owner];
    open_slot(words, slot, last);
    write(words, DIRECTORY + slot, middle as u64);
    write(words, middle, more + FEWEST_OWNED * OWNED_UNIT);
    write(words, owner, fewer - FEWEST_OWNED * OWNED_UNIT);
    write(words, TOP, top + OWNED_UNIT);
}
