//! The directory of a page and its chain, over a source of the page's words (page0page).

ghost use Rattle.std.specs.Prelude.{◌≡◌, ℕ, ◌+◌, ◌-◌, ◌/◌, ◌<◌, ◌≤◌, ◌⊎◌, ◌↔◌, length, take, drop, slice_index, IsTrue};
ghost use Rattle.ib_map.specs.Keys.{rank};
ghost use Rattle.ib_map.specs.Pairs.{index_of};
ghost use Rattle.ib_heap.specs.Image.{records_of};
ghost use Rattle.ib_heap.specs.Chain.{key_at, is_key_at, nodes_of, owners, up_to, last_from, first_of};
ghost use Rattle.ib_heap.specs.Order.{IsOrder};
ghost use Rattle.ib_heap.specs.Source.{IsStillSource, IsTreeSource};

use crate::form::{
    DIRECTORY, FIRST_KEY_WORD, FIRST_OFFSET, INFIMUM, LAST_OFFSET, MOST_SLOTS, OWNED_UNIT,
    SECOND_KEY_WORD, TOP, VALUE_WORD,
};
use crate::words::PageWords;
use ib_map::Key;
use std::cmp::Ordering;

/// The number of the last slot, the supremum's.
pub(crate) fn last_slot<W: PageWords>(page: &mut W) -> usize
    requires { IsTreeSource W.PageWords page.old }
    ensures last { result ≡ length (owners (nodes_of (W.words page.old))) }
    ensures few { result ≤ MOST_SLOTS - 1 }
    ensures some { 0 < result }
    ensures still { IsStillSource W.PageWords page.old page.new }
{
    (page.word(TOP) / OWNED_UNIT) as usize - 1
}

/// The offset of the record that owns a slot.
pub(crate) fn owner<W: PageWords>(page: &mut W, slot: usize) -> usize
    requires page { IsTreeSource W.PageWords page.old }
    requires in_range { slot ≤ length (owners (nodes_of (W.words page.old))) }
    ensures offset { slot < length (owners (nodes_of (W.words page.old))) → result ≡ last_from INFIMUM (take (up_to slot (nodes_of (W.words page.old))) (nodes_of (W.words page.old))) }
    ensures word { result ≡ slice_index (W.words page.old) (DIRECTORY + slot) }
    ensures low { INFIMUM ≤ result }
    ensures high { result ≤ LAST_OFFSET }
    ensures is_record { 0 < slot → slot < length (owners (nodes_of (W.words page.old))) → FIRST_OFFSET ≤ result }
    ensures keyed { 0 < slot → slot < length (owners (nodes_of (W.words page.old))) → IsTrue (is_key_at (W.words page.old) result) }
    ensures still { IsStillSource W.PageWords page.old page.new }
{
    page.word(DIRECTORY + slot) as usize
}

/// How many records the slot of an offset owns, 0 where it has none.
pub(crate) fn owned_at<W: PageWords>(page: &mut W, offset: usize) -> usize
    requires page { IsTreeSource W.PageWords page.old }
    requires in_page { offset ≤ LAST_OFFSET }
    ensures owned { result ≡ slice_index (W.words page.old) offset / OWNED_UNIT }
    ensures still { IsStillSource W.PageWords page.old page.new }
{
    (page.word(offset) / OWNED_UNIT) as usize
}

/// The offset behind another in the chain.
pub(crate) fn next_offset<W: PageWords>(page: &mut W, offset: usize) -> usize
    requires page { IsTreeSource W.PageWords page.old }
    requires in_page { offset ≤ LAST_OFFSET }
    ensures next { (k : ℕ) → k ≤ length (nodes_of (W.words page.old)) → offset ≡ last_from INFIMUM (take k (nodes_of (W.words page.old))) → result ≡ first_of (drop k (nodes_of (W.words page.old))) }
    ensures still { IsStillSource W.PageWords page.old page.new }
{
    (page.word(offset) % OWNED_UNIT) as usize
}

/// Whether the key of the record at an offset is below another. Its second word is read only where the first ones are
/// the same.
pub(crate) fn is_below_at<W: PageWords>(page: &mut W, offset: usize, key: Key) -> bool
    requires page { IsTreeSource W.PageWords page.old }
    requires in_page { offset ≤ LAST_OFFSET }
    requires keyed { IsTrue (is_key_at (W.words page.old) offset) }
    ensures below { IsTrue result ↔ (rank (key_at (W.words page.old) offset) < rank key) }
    ensures still { IsStillSource W.PageWords page.old page.new }
{
    let (first, second) = key.words();
    let word = page.word(offset + FIRST_KEY_WORD);
    if word < first {
        return true;
    }
    if word > first {
        return false;
    }
    page.word(offset + SECOND_KEY_WORD) < second
}

/// How the key of the record at an offset stands to another. Its second word is read only where the first ones are
/// the same.
pub(crate) fn order_at<W: PageWords>(page: &mut W, offset: usize, key: Key) -> Ordering
    requires page { IsTreeSource W.PageWords page.old }
    requires in_page { offset ≤ LAST_OFFSET }
    requires keyed { IsTrue (is_key_at (W.words page.old) offset) }
    ensures order { IsOrder (key_at (W.words page.old) offset) key result }
    ensures still { IsStillSource W.PageWords page.old page.new }
{
    let (first, second) = key.words();
    let word = page.word(offset + FIRST_KEY_WORD);
    // Branches, since the compiler makes a number of an order that is asked for twice.
    if word < first {
        return Ordering::Less;
    }
    if word > first {
        return Ordering::Greater;
    }
    let rest = page.word(offset + SECOND_KEY_WORD);
    if rest < second {
        return Ordering::Less;
    }
    if rest > second {
        return Ordering::Greater;
    }
    Ordering::Equal
}

/// The value of the record at an offset.
pub(crate) fn value_word<W: PageWords>(page: &mut W, offset: usize) -> u64
    requires page { IsTreeSource W.PageWords page.old }
    requires in_page { offset ≤ LAST_OFFSET }
    ensures value { result ≡ slice_index (W.words page.old) (offset + VALUE_WORD) }
    ensures still { IsStillSource W.PageWords page.old page.new }
{
    page.word(offset + VALUE_WORD)
}

/// The slot among whose records a key stands or would stand. By halving, over the keys of the slots' owners.
pub(crate) fn slot_of<W: PageWords>(page: &mut W, key: Key) -> usize
    requires { IsTreeSource W.PageWords page.old }
    ensures some { 0 < result }
    ensures in_range { result ≤ length (owners (nodes_of (W.words page.old))) }
    ensures low { up_to (result - 1) (nodes_of (W.words page.old)) ≤ index_of key (records_of (W.words page.old)) }
    ensures high { (index_of key (records_of (W.words page.old)) < up_to result (nodes_of (W.words page.old))) ⊎ (result ≡ length (owners (nodes_of (W.words page.old)))) }
    ensures still { IsStillSource W.PageWords page.old page.new }
{
    let mut low = 0;
    let mut rest = last_slot(page);
    while rest > 1 {
        let half = rest / 2;
        let middle = low + half;
        let offset = owner(page, middle);
        // A choice of a value, and no branch: which way a search goes cannot be guessed.
        low = if is_below_at(page, offset, key) {
            middle
        } else {
            low
        };
        rest -= half;
    }
    low + rest
}

/// How many records stand up to the owner of a slot, that one with them.
pub(crate) fn index_behind<W: PageWords>(page: &mut W, slot: usize) -> usize
    requires page { IsTreeSource W.PageWords page.old }
    requires in_range { slot < length (owners (nodes_of (W.words page.old))) }
    ensures index { result ≡ up_to slot (nodes_of (W.words page.old)) }
    ensures still { IsStillSource W.PageWords page.old page.new }
{
    let mut index = 0;
    for j in 0..slot {
        let offset = owner(page, j + 1);
        index += owned_at(page, offset);
    }
    index
}
