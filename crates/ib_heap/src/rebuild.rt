//! Records moved between pages: each page that they leave or come to is filled anew (`page_copy_rec_list_end`,
//! `btr_page_reorganize`).

ghost use Rattle.std.specs.Prelude.{◌≡◌, ℕ, ◌+◌, ◌*◌, ◌-◌, ◌≤◌, ◌++◌, [], length, take, drop, slice_index};
ghost use Rattle.ib_map.specs.Keys.{end_rank};
ghost use Rattle.ib_map.specs.Pairs.{Rises};
ghost use Rattle.ib_heap.specs.Form.{page_of};
ghost use Rattle.ib_heap.specs.Image.{IsTreePage, records_of, value_with_records};
ghost use Rattle.ib_heap.specs.Heap.{read_heap};
ghost use Rattle.ib_heap.specs.Filled.{empty_heap, filled};

use crate::MOST_RECORDS;
use crate::form::{FIRST_OFFSET, RECORD_WORDS, clock, empty_page, level, next, prev, set_links};
use crate::insert::put_new;
use crate::walk::copy_between;
use ib_map::{Key, PAGE_WORDS};

/// Moves the records from an index on, in the order of keys, to a page that has none, as a split does
/// (`page_move_rec_list_end`). Both pages are filled anew, and keep their levels, links and clocks.
pub fn move_tail(left: &mut [u64], index: usize, right: &mut [u64])
    requires left { IsTreePage left.old }
    requires right { IsTreePage right.old }
    requires none { records_of right.old ≡ [] }
    requires in_range { index ≤ length (records_of left.old) }
    ensures left { page_of left.new ≡ value_with_records (take index (records_of left.old)) (page_of left.old) }
    ensures right { page_of right.new ≡ value_with_records (drop index (records_of left.old)) (page_of right.old) }
    ensures left_heap { read_heap left.new ≡ filled index }
    ensures right_heap { read_heap right.new ≡ filled (length (records_of left.old) - index) }
    ensures left_rest { (i : ℕ) → FIRST_OFFSET + RECORD_WORDS * index ≤ i → slice_index left.new i ≡ 0 }
    ensures right_rest { (i : ℕ) → FIRST_OFFSET + RECORD_WORDS * (length (records_of left.old) - index) ≤ i → slice_index right.new i ≡ 0 }
{
    let mut records = [(Key::least(), 0); MOST_RECORDS];
    let len = copy_all(left, &mut records);
    rebuild(left, &records[..index]);
    rebuild(right, &records[index..len]);
}

/// Appends the records of the right page to those of the left, as a merge does (`page_copy_rec_list_end`,
/// `btr_compress`). Their keys must be above those of the left, and together they must be no more than
/// `MOST_RECORDS`. The left page is filled anew and keeps its level, its links and its clock.
pub fn append(left: &mut [u64], right: &[u64])
    requires left { IsTreePage left.old }
    requires right { IsTreePage right.now }
    requires few { length (records_of left.old) + length (records_of right.now) ≤ MOST_RECORDS }
    requires ascends { Rises 0 (records_of left.old ++ records_of right.now) end_rank }
    ensures page { page_of left.new ≡ value_with_records (records_of left.old ++ records_of right.now) (page_of left.old) }
    ensures heap { read_heap left.new ≡ filled (length (records_of left.old) + length (records_of right.now)) }
    ensures rest { (i : ℕ) → FIRST_OFFSET + RECORD_WORDS * (length (records_of left.old) + length (records_of right.now)) ≤ i → slice_index left.new i ≡ 0 }
{
    let mut records = [(Key::least(), 0); MOST_RECORDS];
    let len = copy_all(left, &mut records);
    let more = copy_all(right, &mut records[len..]);
    rebuild(left, &records[..len + more]);
}

/// Puts the records of a page in anew, one behind the other in the order of keys, so that no offset is free but
/// those at the top (`btr_page_reorganize`). What the page holds stays.
pub fn reorganize(words: &mut [u64])
    requires { IsTreePage words.old }
    ensures page { page_of words.new ≡ page_of words.old }
    ensures heap { read_heap words.new ≡ filled (length (records_of words.old)) }
    ensures rest { (i : ℕ) → FIRST_OFFSET + RECORD_WORDS * length (records_of words.old) ≤ i → slice_index words.new i ≡ 0 }
{
    let mut records = [(Key::least(), 0); MOST_RECORDS];
    let len = copy_all(words, &mut records);
    rebuild(words, &records[..len]);
}

// Copies all records to the front of `out`, and says how many they are.
fn copy_all(words: &[u64], out: &mut [(Key, u64)]) -> usize
    requires tree { IsTreePage words.now }
    requires room { length (records_of words.now) ≤ length out.old }
    ensures records { out.new ≡ records_of words.now ++ drop (length (records_of words.now)) out.old }
    ensures count { result ≡ length (records_of words.now) }
{
    copy_between(words, Key::least(), Key::greatest(), out)
}

// Fills a page anew with these records, which ascend.
fn rebuild(words: &mut [u64], records: &[(Key, u64)])
    requires tree { IsTreePage words.old }
    requires few { length records.now ≤ MOST_RECORDS }
    requires ascends { Rises 0 records.now end_rank }
    ensures page { page_of words.new ≡ value_with_records records.now (page_of words.old) }
    ensures heap { read_heap words.new ≡ filled (length records.now) }
    ensures rest { (i : ℕ) → FIRST_OFFSET + RECORD_WORDS * length records.now ≤ i → slice_index words.new i ≡ 0 }
{
    clear(words);
    fill(words, records);
}

// Makes a page empty, and leaves its level, its links and its clock.
fn clear(words: &mut [u64])
    requires { IsTreePage words.old }
    ensures page { page_of words.new ≡ value_with_records [] (page_of words.old) }
    ensures heap { read_heap words.new ≡ empty_heap }
    ensures rest { (i : ℕ) → FIRST_OFFSET ≤ i → slice_index words.new i ≡ 0 }
{
    let before = prev(words);
    let behind = next(words);
    let empty = empty_page(level(words), clock(words));
    words.copy_from_slice(&empty);
    set_links(words, before, behind);
}

// Puts these records, which ascend, into an empty page.
fn fill(words: &mut [u64], records: &[(Key, u64)])
    requires tree { IsTreePage words.old }
    requires none { records_of words.old ≡ [] }
    requires heap { read_heap words.old ≡ empty_heap }
    requires rest { (i : ℕ) → FIRST_OFFSET ≤ i → slice_index words.old i ≡ 0 }
    requires few { length records.now ≤ MOST_RECORDS }
    requires ascends { Rises 0 records.now end_rank }
    ensures page { page_of words.new ≡ value_with_records records.now (page_of words.old) }
    ensures heap { read_heap words.new ≡ filled (length records.now) }
    ensures rest { (i : ℕ) → FIRST_OFFSET + RECORD_WORDS * length records.now ≤ i → slice_index words.new i ≡ 0 }
{
    for record in records {
        put_new(words, record.0, record.1);
    }
}
