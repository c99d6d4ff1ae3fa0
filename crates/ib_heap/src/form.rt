//! The header of a page: where its fields stand, and how they are read and set.

ghost use Rattle.std.specs.Prelude.{◌≡◌, ◌≢◌, ℕ, ◌<◌, ◌≤◌, [], length, slice_index, IsTrue, ◌↔◌};
ghost use Rattle.ib_heap.specs.Page.PageValue.{Tree};
ghost use Rattle.ib_heap.specs.Heap.{read_heap};
ghost use Rattle.ib_heap.specs.Form.{page_of, empty_leaf_words};
ghost use Rattle.ib_heap.specs.Filled.{empty_heap};
ghost use Rattle.ib_heap.specs.Image.{IsTreePage, IsFormed, level_of, prev_of, next_of, clock_of, records_of, with_links, with_level, value_with_clock};

use crate::page::CLOCK;
use crate::words::PageWords;
use crate::{MOST_LEVEL, MOST_RECORDS};
use ib_map::PAGE_WORDS;

// The words of the header.
pub(crate) const KIND: usize = 0;

pub(crate) const LEVEL: usize = 1;

pub(crate) const COUNT: usize = 2;

pub(crate) const PREV: usize = 3;

pub(crate) const NEXT: usize = 4;

// What word `KIND` holds.
pub(crate) const TREE: u64 = 1;

// The first free record offset, and how many slots there are with the first word that no record has used.
pub(crate) const FREE: usize = 6;

pub(crate) const TOP: usize = 7;

// The directory.
pub(crate) const DIRECTORY: usize = 8;

pub(crate) const MOST_SLOTS: usize = 10;

// The records at the two ends of the chain.
pub(crate) const INFIMUM: usize = 18;

pub(crate) const SUPREMUM: usize = 19;

// Where the record offsets begin, how many words each has, and where the last one stands: the page ends with it.
pub(crate) const FIRST_OFFSET: usize = 20;

pub(crate) const RECORD_WORDS: usize = 4;

pub(crate) const LAST_OFFSET: usize = FIRST_OFFSET + RECORD_WORDS * (MOST_RECORDS - 1);

const _: () = prove!(LAST_OFFSET + RECORD_WORDS == PAGE_WORDS);

// The words of an offset behind its header: the key's two, and the value.
pub(crate) const FIRST_KEY_WORD: usize = 1;

pub(crate) const SECOND_KEY_WORD: usize = 2;

pub(crate) const VALUE_WORD: usize = 3;

// What a header counts for each record that its slot owns: the header is so many of these, and the offset behind
// it in the chain. Word `TOP` is one for each slot, and the first word that no record has used.
pub(crate) const OWNED_UNIT: u64 = 256;

// The most records that a slot owns, and the fewest that a slot owns between the infimum's and the supremum's.
pub(crate) const MOST_OWNED: u64 = 8;

pub(crate) const FEWEST_OWNED: u64 = 4;

// What a removal may leave a slot that owned the fewest.
pub(crate) const ONE_TOO_FEW: u64 = 3;

// The supremum's slot where no record has one, behind the infimum's.
const SECOND_SLOT: usize = DIRECTORY + 1;

// Word `TOP` and the infimum's header where there are no records.
const EMPTY_TOP: u64 = 2 * OWNED_UNIT + FIRST_OFFSET as u64;

const EMPTY_INFIMUM: u64 = OWNED_UNIT + SUPREMUM as u64;

/// The words of a page with no records and no links, at this level, which is at most `MOST_LEVEL`, and with this
/// modify clock (`page_create`). The chain goes from the infimum to the supremum, and the directory has the slots
/// of these two.
pub fn empty_page(level: u32, clock: u64) -> [u64; PAGE_WORDS]
    requires { level ≤ MOST_LEVEL }
    ensures page { page_of result ≡ Tree (record { level = level; prev = 0; next = 0; clock = clock; records = [] }) }
    ensures leaf { level ≡ 0 → result ≡ empty_leaf_words clock }
    ensures heap { read_heap result ≡ empty_heap }
    ensures rest { (i : ℕ) → FIRST_OFFSET ≤ i → slice_index result i ≡ 0 }
{
    let mut words = [0; PAGE_WORDS];
    words[KIND] = TREE;
    words[LEVEL] = level as u64;
    words[CLOCK] = clock;
    words[TOP] = EMPTY_TOP;
    words[DIRECTORY] = INFIMUM as u64;
    words[SECOND_SLOT] = SUPREMUM as u64;
    words[INFIMUM] = EMPTY_INFIMUM;
    words[SUPREMUM] = OWNED_UNIT;
    words
}

/// One word of an empty leaf with this modify clock, for who writes such a page word by word.
pub fn empty_leaf_word(clock: u64, index: usize) -> u64
    requires { index < PAGE_WORDS }
    ensures { result ≡ slice_index (empty_leaf_words clock) index }
{
    match index {
        KIND => TREE,
        CLOCK => clock,
        TOP => EMPTY_TOP,
        DIRECTORY => INFIMUM as u64,
        SECOND_SLOT => SUPREMUM as u64,
        INFIMUM => EMPTY_INFIMUM,
        SUPREMUM => OWNED_UNIT,
        _ => 0,
    }
}

/// Whether a page is one of the tree, and not free. Asked of words that `is_formed` takes.
pub fn is_tree(words: &[u64]) -> bool
    requires { IsFormed words.now }
    ensures { IsTrue result ↔ IsTreePage words.now }
{
    words[KIND] == TREE
}

/// The level of a page, 0 for a leaf and for a free page (`btr_page_get_level`).
pub fn level(words: &[u64]) -> u32
    requires { IsFormed words.now }
    ensures level { result ≡ level_of words.now }
    ensures low { result ≤ MOST_LEVEL }
{
    words[LEVEL] as u32
}

/// How many records a page has, 0 for a free page (`page_get_n_recs`).
pub fn count(words: &[u64]) -> usize
    requires { IsFormed words.now }
    ensures count { result ≡ length (records_of words.now) }
    ensures few { result ≤ MOST_RECORDS }
    ensures size { length words.now ≡ PAGE_WORDS }
{
    words[COUNT] as usize
}

/// The number of the leaf before this one, 0 for none (`btr_page_get_prev`).
pub fn prev(words: &[u64]) -> u32
    requires { IsFormed words.now }
    ensures { result ≡ prev_of words.now }
{
    words[PREV] as u32
}

/// The number of the leaf behind this one, 0 for none (`btr_page_get_next`).
pub fn next(words: &[u64]) -> u32
    requires { IsFormed words.now }
    ensures { result ≡ next_of words.now }
{
    words[NEXT] as u32
}

/// The modify clock of a page, by which a cursor tells whether what it found there still stands
/// (`buf_block_get_modify_clock`).
pub fn clock(words: &[u64]) -> u64
    requires { IsFormed words.now }
    ensures { result ≡ clock_of words.now }
{
    words[CLOCK]
}

/// The level of a page over a source of its words, of which one is read.
pub fn level_in<W: PageWords>(page: &mut W) -> u32
    requires can { W.can_read page.old }
    requires tree { IsTreePage (W.words page.old) }
    ensures level { result ≡ level_of (W.words page.old) }
    ensures low { result ≤ MOST_LEVEL }
    ensures same { W.words page.new ≡ W.words page.old }
    ensures can { W.can_read page.new }
    ensures read { W.has_read page.old page.new }
{
    page.word(LEVEL) as u32
}

/// Whether a page is one of the tree, over a source of its words, of which one is read. Asked of words that
/// `is_formed` takes.
pub fn is_tree_in<W: PageWords>(page: &mut W) -> bool
    requires can { W.can_read page.old }
    requires formed { IsFormed (W.words page.old) }
    ensures tree { IsTrue result ↔ IsTreePage (W.words page.old) }
    ensures same { W.words page.new ≡ W.words page.old }
    ensures can { W.can_read page.new }
    ensures read { W.has_read page.old page.new }
{
    page.word(KIND) == TREE
}

/// Sets both links of a leaf: the numbers of the leaves before and behind it, 0 for none
/// (`btr_page_set_prev`, `btr_page_set_next`). A node has no links, so there both must be 0. No record moves.
pub fn set_links(words: &mut [u64], prev: u32, next: u32)
    requires tree { IsTreePage words.old }
    requires prev { 0 < level_of words.old → prev ≡ 0 }
    requires next { 0 < level_of words.old → next ≡ 0 }
    ensures page { page_of words.new ≡ with_links prev next (page_of words.old) }
    ensures heap { read_heap words.new ≡ read_heap words.old }
    ensures kept { (i : ℕ) → i ≢ PREV → i ≢ NEXT → slice_index words.new i ≡ slice_index words.old i }
{
    words[PREV] = prev as u64;
    words[NEXT] = next as u64;
}

/// Sets the level of a page, at most `MOST_LEVEL` (`btr_page_set_level`). A page above level 0 has no links, so
/// there the page must have none. No record moves.
pub fn set_level(words: &mut [u64], level: u32)
    requires tree { IsTreePage words.old }
    requires low { level ≤ MOST_LEVEL }
    requires prev { 0 < level → prev_of words.old ≡ 0 }
    requires next { 0 < level → next_of words.old ≡ 0 }
    ensures page { page_of words.new ≡ with_level level (page_of words.old) }
    ensures heap { read_heap words.new ≡ read_heap words.old }
    ensures kept { (i : ℕ) → i ≢ LEVEL → slice_index words.new i ≡ slice_index words.old i }
{
    words[LEVEL] = level as u64;
}

/// Sets the modify clock of a page, free or not (`buf_block_modify_clock_inc`).
pub fn set_clock(words: &mut [u64], clock: u64)
    requires { IsFormed words.old }
    ensures page { page_of words.new ≡ value_with_clock clock (page_of words.old) }
    ensures heap { read_heap words.new ≡ read_heap words.old }
    ensures kept { (i : ℕ) → i ≢ CLOCK → slice_index words.new i ≡ slice_index words.old i }
{
    words[CLOCK] = clock;
}
