//! A record taken out of a page: its offset becomes free, and its slot is balanced (`page_cur_delete_rec`).

ghost use Rattle.std.specs.Prelude.{◌≡◌, ◌≢◌, true, ◌+◌, ◌-◌, ◌<◌, ◌≤◌, ◌⊎◌, ℕ, length, slice_index, OnOk, Some, None};
ghost use Rattle.ib_map.specs.Pairs.{without, value_at, index_of};
ghost use Rattle.ib_heap.specs.Form.{page_of};
ghost use Rattle.ib_heap.specs.Image.{IsTreePage, records_of, value_with_records};
ghost use Rattle.ib_heap.specs.Chain.{nodes_of, read_chain, used_in_chain, records_in, page_with, is_shaped};
ghost use Rattle.ib_heap.specs.ChainTake.{unlink_node, unlink_from_chain};
ghost use Rattle.ib_heap.specs.Heap.{read_heap, used_offsets};
ghost use Rattle.ib_heap.specs.Take.{remove_in};
ghost use Rattle.ib_heap.specs.Changes.{HasRemoved};
ghost use Rattle.ib_heap.specs.Kept.{IsKept};
ghost use Rattle.ib_heap.specs.Steps.{IsOffsetOfKey, CanUnlink, IsLinkedPast, CanHandOver, IsHandedOver, CanGiveBack, IsGivenBack, CanLend, IsLent, CanJoin, IsSlotJoined};

use crate::fault::PageFault;
use crate::form::{
    COUNT, DIRECTORY, FEWEST_OWNED, FREE, MOST_SLOTS, ONE_TOO_FEW, OWNED_UNIT, SUPREMUM, TOP,
};
use crate::insert::{locate, write};
use crate::search::{Cursor, get};
use crate::walk::{next_word, owned_word, record_of, slot_word};
use ib_map::{Key, PAGE_WORDS};

/// Takes a record out, and gives its value: its neighbours are linked to each other, its offset goes to the front
/// of the free list, and a slot before the last that is left with three takes a record from the slot after it, or
/// joins it (`page_cur_delete_rec`, `page_mem_free`, `page_dir_balance_slot`). Refused as `Missing` exactly where
/// the key is not there; the page is then unchanged.
pub fn take(words: &mut [u64], key: Key) -> Result<u64, PageFault>
    requires { IsTreePage words.old }
    ensures taken { HasRemoved words.old words.new key result }
    ensures kept { OnOk result ((i : ℕ) → IsKept (used_offsets (read_heap words.old)) i → slice_index words.new i ≡ slice_index words.old i) }
{
    match get(words, key) {
        Some(_) => Ok(take_there(words, key)),
        None => Err(PageFault::Missing),
    }
}

// Takes a record out that is there, and gives its value.
#[tactic(none)]
fn take_there(words: &mut [u64], key: Key) -> u64
    requires tree { IsTreePage words.old }
    requires found { value_at key (records_of words.old) ≢ None }
    ensures value { value_at key (records_of words.old) ≡ Some result }
    ensures page { page_of words.new ≡ value_with_records (without key (records_of words.old)) (page_of words.old) }
    ensures heap { read_heap words.new ≡ remove_in (index_of key (records_of words.old)) (read_heap words.old) }
    ensures kept { (i : ℕ) → IsKept (used_offsets (read_heap words.old)) i → slice_index words.new i ≡ slice_index words.old i }
{
    let cursor = locate(words, key);
    let value = record_of(words, cursor.at).1;
    take_out(words, key, cursor);
    let short = slot_word(words, cursor.slot);
    if short == SUPREMUM {
        return value;
    }
    if owned_word(words, short) != ONE_TOO_FEW {
        return value;
    }
    let after = slot_word(words, cursor.slot + 1);
    if owned_word(words, after) > FEWEST_OWNED {
        let first = next_word(words, short);
        lend(words, cursor.slot, short, first, after);
        return value;
    }
    join_slots(words, cursor.slot, short, after);
    value
}

// Takes a record out of the chain, and leaves its slot as it is then.
#[tactic(none)]
fn take_out(words: &mut [u64], key: Key, cursor: Cursor)
    requires tree { IsTreePage words.old }
    requires found { value_at key (records_of words.old) ≢ None }
    requires stands { IsOffsetOfKey words.old key cursor.slot cursor.before cursor.at }
    ensures shaped { is_shaped words.new (unlink_from_chain (index_of key (records_of words.old)) (read_chain words.old)) ≡ true }
    ensures page { let nodes = unlink_node (index_of key (records_of words.old)) (nodes_of words.old) in page_with words.new (records_in words.new nodes) ≡ page_with words.old (without key (records_of words.old)) }
    ensures kept { (i : ℕ) → IsKept (used_in_chain (read_chain words.old)) i → slice_index words.new i ≡ slice_index words.old i }
{
    let owner = slot_word(words, cursor.slot);
    if cursor.at == owner {
        hand_over(words, cursor.before, cursor.at, cursor.slot);
        give_back(words, cursor.at);
        return;
    }
    unlink(words, cursor.before, cursor.at, owner);
    give_back(words, cursor.at);
}

// Puts an offset at the front of the free list, and counts its record out.
fn give_back(words: &mut [u64], at: usize)
    requires { CanGiveBack words.old at }
    ensures { IsGivenBack words.old words.new at }
{
    let first = words[FREE];
    let count = words[COUNT];
    write(words, at, first);
    write(words, FREE, at as u64);
    write(words, COUNT, count - 1);
}

// Takes a record that owns no slot out of the chain.
fn unlink(words: &mut [u64], before: usize, at: usize, owner: usize)
    requires { CanUnlink words.old before at owner }
    ensures { IsLinkedPast words.old words.new before at owner }
{
    let next = words[at] % OWNED_UNIT;
    let header = words[before];
    let owned = words[owner];
    write(words, before, header - at as u64 + next);
    write(words, owner, owned - OWNED_UNIT);
}

// Takes the owner of a slot out of the chain: the record before it owns the slot.
fn hand_over(words: &mut [u64], before: usize, at: usize, slot: usize)
    requires { CanHandOver words.old before at slot }
    ensures { IsHandedOver words.old words.new before at slot }
{
    let header = words[at];
    write(words, before, header - OWNED_UNIT);
    write(words, DIRECTORY + slot, before as u64);
}

// Fills a slot of three by the first record of the slot after it.
fn lend(words: &mut [u64], slot: usize, short: usize, first: usize, after: usize)
    requires { CanLend words.old slot short first after }
    ensures { IsLent words.old words.new slot short first after }
{
    let fewer = words[short];
    let more = words[first];
    let rest = words[after];
    write(words, short, fewer - ONE_TOO_FEW * OWNED_UNIT);
    write(words, first, more + FEWEST_OWNED * OWNED_UNIT);
    write(words, after, rest - OWNED_UNIT);
    write(words, DIRECTORY + slot, first as u64);
}

// Takes a slot out of the directory.
fn close_slot(words: &mut [u64], slot: usize, last: usize)
    requires size { length words.old ≡ PAGE_WORDS }
    requires slot { slot ≤ last }
    requires last { last ≤ MOST_SLOTS - 1 }
    ensures before { (m : ℕ) → m < slot → slice_index words.new (DIRECTORY + m) ≡ slice_index words.old (DIRECTORY + m) }
    ensures behind { (m : ℕ) → slot ≤ m → m < last → slice_index words.new (DIRECTORY + m) ≡ slice_index words.old (DIRECTORY + (m + 1)) }
    ensures other { (i : ℕ) → (i < DIRECTORY) ⊎ (DIRECTORY + last ≤ i) → slice_index words.new i ≡ slice_index words.old i }
    ensures size { length words.new ≡ length words.old }
{
    for m in slot..last {
        let word = words[DIRECTORY + 1 + m];
        write(words, DIRECTORY + m, word);
    }
}

// Joins a slot of three to the slot after it.
fn join_slots(words: &mut [u64], slot: usize, short: usize, after: usize)
    requires { CanJoin words.old slot short after }
    ensures { IsSlotJoined words.old words.new slot short after }
{
    let top = words[TOP];
    let last = (top / OWNED_UNIT) as usize - 1;
    let fewer = words[short];
    let more = words[after];
    close_slot(words, slot, last);
    write(words, DIRECTORY + last, 0);
    write(words, short, fewer - ONE_TOO_FEW * OWNED_UNIT);
    write(words, after, more + ONE_TOO_FEW * OWNED_UNIT);
    write(words, TOP, top - OWNED_UNIT);
}
