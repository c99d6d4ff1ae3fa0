//! The test whether words are a page, in one walk of the chain and one of the free list (`page_validate`, `page_simple_validate_new`).

ghost use Rattle.std.specs.Prelude.{[], ◌∷◌, ℕ, ◌≡◌, true, false, suc, ◌+◌, ◌-◌, ◌/◌, ◌%◌, ◌<◌, ◌≤◌, ◌==◌, ◌&&◌, IsTrue, ◌↔◌, SomeIff, MatchOption, length, slice_index, slice_set};
ghost use Rattle.ib_map.specs.Keys.{rank, end_rank};
ghost use Rattle.ib_heap.specs.Image.{IsFormed};
ghost use Rattle.ib_heap.specs.Chain.{key_at, is_key_at, offsets_of, chain_from, free_from, is_directory, is_heap, read_chain};
ghost use Rattle.ib_heap.specs.Walks.{IsUnmet, HasOnlyOffsets, is_new, are_new, met_with, first_step, low_of, chain_holds, LeavesStep, free_end, HasHeader, HasSlots};

use crate::MOST_RECORDS;
use crate::form::{
    COUNT, DIRECTORY, FEWEST_OWNED, FIRST_KEY_WORD, FIRST_OFFSET, FREE, INFIMUM, KIND, LAST_OFFSET,
    LEVEL, MOST_OWNED, MOST_SLOTS, NEXT, OWNED_UNIT, PREV, RECORD_WORDS, SECOND_KEY_WORD, SUPREMUM,
    TOP, TREE,
};
use crate::page::{has_limits, is_free};
use ib_map::{Key, PAGE_WORDS, is_below};

// What a walk has met before it begins: all words but the headers of record offsets.
const NO_OFFSETS: [u8; PAGE_WORDS] = [
    1, 1, 1, 1, 1, 1, 1, 1, 1, 1, 1, 1, 1, 1, 1, 1, 1, 1, 1, 1, 0, 1, 1, 1, 0, 1, 1, 1, 0, 1, 1, 1,
    0, 1, 1, 1, 0, 1, 1, 1, 0, 1, 1, 1, 0, 1, 1, 1, 0, 1, 1, 1, 0, 1, 1, 1, 0, 1, 1, 1, 0, 1, 1, 1,
    0, 1, 1, 1, 0, 1, 1, 1, 0, 1, 1, 1, 0, 1, 1, 1, 0, 1, 1, 1, 0, 1, 1, 1, 0, 1, 1, 1, 0, 1, 1, 1,
    0, 1, 1, 1, 0, 1, 1, 1, 0, 1, 1, 1, 0, 1, 1, 1, 0, 1, 1, 1, 0, 1, 1, 1, 0, 1, 1, 1, 0, 1, 1, 1,
    0, 1, 1, 1, 0, 1, 1, 1, 0, 1, 1, 1, 0, 1, 1, 1, 0, 1, 1, 1, 0, 1, 1, 1, 0, 1, 1, 1, 0, 1, 1, 1,
];

/// Whether the words are those of a free page or of a page of the tree (`page_validate`): the header is within its
/// limits, the chain ends at the supremum after as many records as are counted, the two words of each are a key's
/// and the keys ascend, the slots are those of the directory and own no fewer and no more than they may, and each
/// offset that was used stands once in the chain or in the free list. Nothing is asked of the words but that they
/// are as many as a page has.
pub fn is_formed(words: &[u64]) -> bool
    requires { length words.now ≡ PAGE_WORDS }
    ensures { IsTrue result ↔ IsFormed words.now }
{
    if words[KIND] == TREE {
        has_heap(words)
    } else {
        is_free(words)
    }
}

// Whether the words are those of a page of the tree.
fn has_heap(words: &[u64]) -> bool
    requires { length words.now ≡ PAGE_WORDS }
    ensures { result ≡ is_heap words.now (read_chain words.now) }
{
    if !has_header(words) {
        return false;
    }
    if !has_limits(words[LEVEL], words[PREV], words[NEXT]) {
        return false;
    }
    if !has_slots(words) {
        return false;
    }
    let count = words[COUNT] as usize;
    let n = ((words[TOP] % OWNED_UNIT) as usize - FIRST_OFFSET) / RECORD_WORDS;
    let mut met = unmet();
    if !has_chain(words, &mut met, count, n) {
        return false;
    }
    has_free(words, &mut met, n - count, n)
}

// Whether the words of the header are right that stand by themselves.
fn has_header(words: &[u64]) -> bool
    requires { length words.now ≡ PAGE_WORDS }
    ensures { IsTrue result ↔ HasHeader words.now }
{
    let top = (words[TOP] % OWNED_UNIT) as usize;
    words[KIND] == TREE
        && words[COUNT] <= MOST_RECORDS as u64
        && FIRST_OFFSET <= top
        && (top - FIRST_OFFSET) % RECORD_WORDS == 0
        && top <= PAGE_WORDS
        && words[COUNT] as usize <= (top - FIRST_OFFSET) / RECORD_WORDS
        && words[INFIMUM] / OWNED_UNIT == 1
        && words[SUPREMUM] % OWNED_UNIT == 0
        && words[DIRECTORY] as usize == INFIMUM
}

// Whether the number of slots ends at the supremum's.
fn has_slots(words: &[u64]) -> bool
    requires { length words.now ≡ PAGE_WORDS }
    ensures { IsTrue result ↔ HasSlots words.now }
{
    let slots = words[TOP] / OWNED_UNIT;
    2 <= slots && slots <= MOST_SLOTS as u64 && words[TOP + slots as usize] as usize == SUPREMUM
}

// What a walk has met before it begins.
fn unmet() -> [u8; PAGE_WORDS]
    ensures { IsUnmet result }
{
    NO_OFFSETS
}

// Whether a word is the header of one of the first n record offsets and was not met before. It is met now.
fn meet(met: &mut [u8], at: usize, n: usize) -> bool
    requires size { length met.old ≡ PAGE_WORDS }
    requires few { n ≤ MOST_RECORDS }
    requires offsets { HasOnlyOffsets met.old }
    ensures is_new { result ≡ is_new n met.old at }
    ensures meets { result ≡ true → met.new ≡ slice_set met.old at 1 }
    ensures offsets { HasOnlyOffsets met.new }
    ensures low { result ≡ true → at ≤ LAST_OFFSET }
{
    if at >= FIRST_OFFSET + RECORD_WORDS * n {
        return false;
    }
    if met[at] != 0 {
        return false;
    }
    met[at] = 1;
    true
}

// Where a walk of the chain stands: the next record, how many stand behind the last one that has a slot,
// the next slot of the directory, and the key of the last record.
#[derive(Clone, Copy)]
pub(crate) struct ChainStep {
    at: usize,
    owned: u64,
    slot: usize,
    last: Option<Key>,
}

impl ChainStep {
    // The step behind the record here. None where no chain of a page goes on so.
    fn next(self, words: &[u64]) -> Option<ChainStep>
        requires size { length words.now ≡ PAGE_WORDS }
        requires low { self.at ≤ LAST_OFFSET }
        requires few { self.owned ≤ MOST_RECORDS }
        ensures { MatchOption result ((m : ℕ) → chain_holds words.now (suc m) self ≡ false) (LeavesStep words.now self) }
    {
        let key = key_of(words, self.at)?;
        if !is_above(key, self.last) {
            return None;
        }
        let at = (words[self.at] % OWNED_UNIT) as usize;
        let header = words[self.at] / OWNED_UNIT;
        if header == 0 {
            return Some(ChainStep {
                at,
                owned: self.owned + 1,
                slot: self.slot,
                last: Some(key),
            });
        }
        if !is_slot(header, self.owned) {
            return None;
        }
        if !has_owner(words, self.slot, self.at) {
            return None;
        }
        Some(ChainStep {
            at,
            owned: 0,
            slot: self.slot + 1,
            last: Some(key),
        })
    }

    // Whether a chain of a page ends here.
    fn is_end(self, words: &[u64]) -> bool
        requires size { length words.now ≡ PAGE_WORDS }
        requires few { self.owned ≤ MOST_RECORDS }
        requires last { low_of self.last ≤ end_rank }
        ensures { result ≡ chain_holds words.now 0 self }
    {
        if self.at != SUPREMUM {
            return false;
        }
        if !is_last_slot(words[SUPREMUM] / OWNED_UNIT, self.owned) {
            return false;
        }
        if !has_owner(words, self.slot, SUPREMUM) {
            return false;
        }
        no_more(words, self.slot + 1)
    }
}

// The key of the record at an offset, where its words are a key's.
fn key_of(words: &[u64], at: usize) -> Option<Key>
    requires { at + SECOND_KEY_WORD < length words.now }
    ensures { SomeIff result (is_key_at words.now at ≡ true) (key_at words.now at) }
{
    Key::from_words(words[at + FIRST_KEY_WORD], words[at + SECOND_KEY_WORD])
}

// Whether a key is above another, where there is one.
fn is_above(key: Key, last: Option<Key>) -> bool
    ensures { IsTrue result ↔ (low_of last ≤ rank key) }
{
    match last {
        Some(last) => is_below(last, key),
        None => true,
    }
}

// Whether a slot of the directory is that of the record at an offset.
fn has_owner(words: &[u64], slot: usize, at: usize) -> bool
    requires { length words.now ≡ PAGE_WORDS }
    ensures { IsTrue result ↔ ((slot < MOST_SLOTS) × (slice_index words.now (DIRECTORY + slot) ≡ at)) }
{
    slot < MOST_SLOTS && words[DIRECTORY + slot] == at as u64
}

// Whether a slot with so many records before its owner owns them.
fn is_slot(header: u64, owned: u64) -> bool
    requires { owned ≤ MOST_RECORDS }
    ensures { IsTrue result ↔ ((header ≡ owned + 1) × ((FEWEST_OWNED ≤ header) × (header ≤ MOST_OWNED))) }
{
    header == owned + 1 && FEWEST_OWNED <= header && header <= MOST_OWNED
}

// Whether the supremum's slot with so many records before it owns them.
fn is_last_slot(header: u64, owned: u64) -> bool
    requires { owned ≤ MOST_RECORDS }
    ensures { IsTrue result ↔ ((header ≡ owned + 1) × (header ≤ MOST_OWNED)) }
{
    header == owned + 1 && header <= MOST_OWNED
}

// Whether the directory's words from a slot on are 0.
fn no_more(words: &[u64], from: usize) -> bool
    requires size { length words.now ≡ PAGE_WORDS }
    requires from { from ≤ MOST_SLOTS }
    ensures { result ≡ is_directory words.now (MOST_SLOTS - from) (DIRECTORY + from) [] }
{
    for j in from..MOST_SLOTS {
        if words[DIRECTORY + j] != 0 {
            return false;
        }
    }
    true
}

// Whether so many records of the chain stand at new offsets, have keys that ascend, and have the slots of the directory, with the supremum behind them.
fn has_chain(words: &[u64], met: &mut [u8], count: usize, n: usize) -> bool
    requires size { length words.now ≡ PAGE_WORDS }
    requires met_size { length met.old ≡ PAGE_WORDS }
    requires met_offsets { HasOnlyOffsets met.old }
    requires few { n ≤ MOST_RECORDS }
    requires count { count ≤ MOST_RECORDS }
    ensures holds { result ≡ (are_new n met.old (offsets_of (chain_from words.now count (slice_index words.now INFIMUM % OWNED_UNIT))) && chain_holds words.now count (first_step words.now)) }
    ensures met_offsets { HasOnlyOffsets met.new }
    ensures meets { result ≡ true → met.new ≡ met_with met.old (offsets_of (chain_from words.now count (slice_index words.now INFIMUM % OWNED_UNIT))) }
{
    let mut step = ChainStep {
        at: (words[INFIMUM] % OWNED_UNIT) as usize,
        owned: 0,
        slot: 1,
        last: None,
    };
    for i in 0..count {
        if !meet(met, step.at, n) {
            return false;
        }
        match step.next(words) {
            Some(next) => step = next,
            None => return false,
        }
    }
    step.is_end(words)
}

// Whether so many offsets of the free list are new, with nothing behind them.
fn has_free(words: &[u64], met: &mut [u8], count: usize, n: usize) -> bool
    requires size { length words.now ≡ PAGE_WORDS }
    requires met_size { length met.old ≡ PAGE_WORDS }
    requires met_offsets { HasOnlyOffsets met.old }
    requires few { n ≤ MOST_RECORDS }
    ensures { result ≡ (are_new n met.old (free_from words.now count (slice_index words.now FREE)) && free_end words.now count (slice_index words.now FREE) == 0) }
{
    let mut at = words[FREE] as usize;
    for i in 0..count {
        if !meet(met, at, n) {
            return false;
        }
        at = words[at] as usize;
    }
    at == 0
}
