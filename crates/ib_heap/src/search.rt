//! The search for a key: by the directory to a slot, and along the chain from there (`page_cur_search_with_match`).

ghost use Rattle.std.specs.Prelude.{◌≡◌, ◌≢◌, ◌+◌, ◌-◌, ◌<◌, ◌≤◌, ◌⊎◌, ◌↔◌, length, take, drop, slice_get, slice_index, IsTrue, false, IsSomeAnd, Some};
ghost use Rattle.ib_map.specs.Keys.{rank};
ghost use Rattle.ib_map.specs.Pairs.{value_at, index_of, index_after};
ghost use Rattle.ib_heap.specs.Image.{IsTreePage, records_of};
ghost use Rattle.std.specs.declared.cmp.Ordering.TheVariants.{Greater};
ghost use Rattle.ib_heap.specs.Order.{IsOrder};
ghost use Rattle.ib_heap.specs.Found.{IsFound, IsRouted};
ghost use Rattle.ib_heap.specs.Standing.{IsWithin, standing_of};
ghost use Rattle.ib_heap.specs.declared.search.KeyStanding.TheVariants.{Outside};
ghost use Rattle.ib_heap.specs.Source.{IsStillSource, IsTreeSource};
ghost use Rattle.ib_heap.specs.Chain.{key_at, is_key_at, nodes_of, owners, up_to, last_from, first_of};

use crate::MOST_RECORDS;
use crate::directory::{index_behind, next_offset, order_at, owner, slot_of, value_word};
use crate::form::{INFIMUM, LAST_OFFSET, SUPREMUM, VALUE_WORD};
use crate::walk::record_of;
use crate::words::PageWords;
use ib_map::Key;
use std::cmp::Ordering;

/// Where a key stands in the chain, or would stand: the slot, how many steps behind the owner of the slot
/// before it, the offset before the key, the first offset whose record is not below it, and whether that is the key's.
#[derive(Clone, Copy)]
pub(crate) struct Cursor {
    pub(crate) slot: usize,
    pub(crate) steps: usize,
    pub(crate) before: usize,
    pub(crate) at: usize,
    pub(crate) found: bool,
}

/// Finds a key.
#[inline(always)]
pub(crate) fn seek<W: PageWords>(page: &mut W, key: Key) -> Cursor
    requires { IsTreeSource W.PageWords page.old }
    ensures before { let nodes = nodes_of (W.words page.old) in result.before ≡ last_from INFIMUM (take (index_of key (records_of (W.words page.old))) nodes) }
    ensures at { let nodes = nodes_of (W.words page.old) in result.at ≡ first_of (drop (index_of key (records_of (W.words page.old))) nodes) }
    ensures found { IsTrue result.found → (result.at ≢ SUPREMUM) × (key_at (W.words page.old) result.at ≡ key) }
    ensures other { result.found ≡ false → (result.at ≡ SUPREMUM) ⊎ ((result.at ≢ SUPREMUM) × (rank (key_at (W.words page.old) result.at) ≢ rank key)) }
    ensures some { 0 < result.slot }
    ensures in_range { result.slot ≤ length (owners (nodes_of (W.words page.old))) }
    ensures steps { up_to (result.slot - 1) (nodes_of (W.words page.old)) + result.steps ≡ index_of key (records_of (W.words page.old)) }
    ensures low { up_to (result.slot - 1) (nodes_of (W.words page.old)) ≤ index_of key (records_of (W.words page.old)) }
    ensures high { (index_of key (records_of (W.words page.old)) < up_to result.slot (nodes_of (W.words page.old))) ⊎ (result.slot ≡ length (owners (nodes_of (W.words page.old)))) }
    ensures still { IsStillSource W.PageWords page.old page.new }
{
    let slot = slot_of(page, key);
    let mut before = owner(page, slot - 1);
    let mut at = next_offset(page, before);
    for steps in 0..MOST_RECORDS {
        let order = standing(page, at, key);
        if order.is_ge() {
            return Cursor {
                slot,
                steps,
                before,
                at,
                found: order.is_eq(),
            };
        }
        before = at;
        at = next_offset(page, at);
    }
    Cursor {
        slot,
        steps: MOST_RECORDS,
        before,
        at,
        found: false,
    }
}

// How the record at an offset stands to a key; the supremum stands above each.
fn standing<W: PageWords>(page: &mut W, offset: usize, key: Key) -> Ordering
    requires page { IsTreeSource W.PageWords page.old }
    requires in_page { offset ≤ LAST_OFFSET }
    requires keyed { offset ≢ SUPREMUM → IsTrue (is_key_at (W.words page.old) offset) }
    ensures supremum { offset ≡ SUPREMUM → result ≡ Greater }
    ensures order { offset ≢ SUPREMUM → IsOrder (key_at (W.words page.old) offset) key result }
    ensures still { IsStillSource W.PageWords page.old page.new }
{
    if offset == SUPREMUM {
        return Ordering::Greater;
    }
    order_at(page, offset, key)
}

/// Where a key stands among the records in their order, as `Ok`, or where it would stand, as `Err`
/// (`page_cur_search_with_match`). The search halves the directory down to one slot and goes along the chain
/// from there; the index is what the slots before own, and the steps along the chain.
pub fn find(words: &[u64], key: Key) -> Result<usize, usize>
    requires { IsTreePage words.now }
    ensures { IsFound (records_of words.now) key result }
{
    let mut page = words;
    find_in(&mut page, key)
}

// The same over a source of the page's words.
fn find_in<W: PageWords>(page: &mut W, key: Key) -> Result<usize, usize>
    requires { IsTreeSource W.PageWords page.old }
    ensures found { IsFound (records_of (W.words page.old)) key result }
    ensures still { IsStillSource W.PageWords page.old page.new }
{
    let cursor = seek(page, key);
    let index = index_behind(page, cursor.slot - 1) + cursor.steps;
    if cursor.found { Ok(index) } else { Err(index) }
}

/// The value of a key, by the search of `find`. None exactly where the key is not there.
pub fn get(words: &[u64], key: Key) -> Option<u64>
    requires { IsTreePage words.now }
    ensures { result ≡ value_at key (records_of words.now) }
{
    let mut page = words;
    get_in(&mut page, key)
}

/// The same over a source of the page's words: the search reads the directory, the headers and keys that it
/// passes, and the value.
pub fn get_in<W: PageWords>(page: &mut W, key: Key) -> Option<u64>
    requires can { W.can_read page.old }
    requires tree { IsTreePage (W.words page.old) }
    ensures value { result ≡ value_at key (records_of (W.words page.old)) }
    ensures same { W.words page.new ≡ W.words page.old }
    ensures can { W.can_read page.new }
    ensures read { W.has_read page.old page.new }
{
    let cursor = seek(page, key);
    if cursor.found {
        return Some(value_word(page, cursor.at));
    }
    None
}

/// Where a key stands beside the records of a page.
#[derive(Clone, Copy, Debug, PartialEq, Eq)]
pub enum KeyStanding {
    /// Below the first of them or above the last, or the page has none.
    Outside,
    /// Among them, without a record of its own.
    Between,
    /// With a record of its own, which has this value.
    Found(u64),
}

/// Where a key stands beside the records, by the search of `get_in`: what a guess at the key's page is tested by
/// (`btr_search_check_guess`).
pub fn standing_in<W: PageWords>(page: &mut W, key: Key) -> KeyStanding
    requires can { W.can_read page.old }
    requires tree { IsTreePage (W.words page.old) }
    ensures standing { result ≡ standing_of key (records_of (W.words page.old)) }
    ensures within { (result ≢ Outside) ↔ IsWithin key (records_of (W.words page.old)) }
    ensures same { W.words page.new ≡ W.words page.old }
    ensures can { W.can_read page.new }
    ensures read { W.has_read page.old page.new }
{
    let cursor = seek(page, key);
    if cursor.found {
        return KeyStanding::Found(value_word(page, cursor.at));
    }
    if cursor.before == INFIMUM || cursor.at == SUPREMUM {
        return KeyStanding::Outside;
    }
    KeyStanding::Between
}

/// Where the last record stands whose key is not above this one, among the records in their order: in a node,
/// the child whose keys it is among (`page_cur_search_with_match` in mode `PAGE_CUR_LE`). The first record must
/// have such a key.
pub fn route(words: &[u64], key: Key) -> usize
    requires tree { IsTreePage words.now }
    requires first { IsSomeAnd (slice_get (records_of words.now) 0) (λ r. rank r.0 ≤ rank key) }
    ensures { IsRouted (records_of words.now) key result }
{
    match find(words, key) {
        Ok(index) => index,
        Err(index) => index - 1,
    }
}

/// The key and the value of the record that `route` finds.
pub fn route_to(words: &[u64], key: Key) -> (Key, u64)
    requires tree { IsTreePage words.now }
    requires first { IsSomeAnd (slice_get (records_of words.now) 0) (λ r. rank r.0 ≤ rank key) }
    ensures record { slice_get (records_of words.now) (index_after key (records_of words.now) - 1) ≡ Some result }
    ensures not_above { rank result.0 ≤ rank key }
{
    let mut page = words;
    let offset = route_word(&mut page, key);
    record_of(words, offset)
}

/// The value of the last record whose key is not above this one: in a node, the child whose keys it is
/// among (`page_cur_search_with_match`, `btr_node_ptr_get_child_page_no`). The first record must have such a
/// key. The search reads the directory, the headers and keys that it passes, and this value.
pub fn child_in<W: PageWords>(page: &mut W, key: Key) -> u64
    requires can { W.can_read page.old }
    requires tree { IsTreePage (W.words page.old) }
    requires first { IsSomeAnd (slice_get (records_of (W.words page.old)) 0) (λ r. rank r.0 ≤ rank key) }
    ensures value { IsSomeAnd (slice_get (records_of (W.words page.old))
        (index_after key (records_of (W.words page.old)) - 1)) (λ r. r.1 ≡ result) }
    ensures same { W.words page.new ≡ W.words page.old }
    ensures can { W.can_read page.new }
    ensures read { W.has_read page.old page.new }
{
    let offset = route_word(page, key);
    value_word(page, offset)
}

// The offset of the last record whose key is not above this one.
fn route_word<W: PageWords>(page: &mut W, key: Key) -> usize
    requires page { IsTreeSource W.PageWords page.old }
    requires first { IsSomeAnd (slice_get (records_of (W.words page.old)) 0) (λ r. rank r.0 ≤ rank key) }
    ensures record { slice_get (records_of (W.words page.old)) (index_after key (records_of (W.words page.old)) - 1)
        ≡ Some (key_at (W.words page.old) result, slice_index (W.words page.old) (result + VALUE_WORD)) }
    ensures not_above { rank (key_at (W.words page.old) result) ≤ rank key }
    ensures in_page { result ≤ LAST_OFFSET }
    ensures still { IsStillSource W.PageWords page.old page.new }
{
    let cursor = seek(page, key);
    if cursor.found {
        return cursor.at;
    }
    cursor.before
}
