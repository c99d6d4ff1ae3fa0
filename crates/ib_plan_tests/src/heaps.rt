//! The worked rows of words, pages with one word wrong, records found, moved, and changed many times.

ghost use Rattle.ib_heap.specs.Image.{IsTreePage};

use crate::keys::key;
use ib_heap::{
    MOST_RECORDS, PageFault, child_in, copy_between, count, empty_leaf_word, empty_page, find,
    free_page, get, is_formed, level, move_tail, put, record_at, set_links, take,
};
use ib_map::{Key, PAGE_WORDS, is_below};
use std::process::Abort;
use std::test::Fail;

#[test]
fn an_empty_leaf(rt: HostRuntime) {
    let words = empty_page(0, 3);
    assert_eq!(rt; words[0], 1);
    assert_eq!(rt; words[5], 3);
    assert_eq!(rt; words[7], 532);
    assert_eq!(rt; words[8], 18);
    assert_eq!(rt; words[9], 19);
    assert_eq!(rt; words[18], 275);
    assert_eq!(rt; words[19], 256);
    for i in 0..PAGE_WORDS {
        assert_eq!(rt; words[i], empty_leaf_word(3, i));
    }
}

// How many words of two pages differ.
fn differing(before: &[u64; PAGE_WORDS], after: &[u64; PAGE_WORDS]) -> usize {
    let mut count = 0;
    for i in 0..PAGE_WORDS {
        if before[i] != after[i] {
            count += 1;
        }
    }
    count
}

#[test]
fn one_insert_writes_eight_words(rt: HostRuntime) -> Result<(), Fail> {
    let empty = empty_page(0, 0);
    let mut words = empty;
    put(&mut words, key(10), 100)?;
    assert_eq!(rt; words[2], 1);
    assert_eq!(rt; words[7], 536);
    assert_eq!(rt; words[18], 276);
    assert_eq!(rt; words[19], 512);
    assert_eq!(rt; words[20], 19);
    assert_eq!(rt; words[21], 10);
    assert_eq!(rt; words[22], 8);
    assert_eq!(rt; words[23], 100);
    assert_eq!(rt; differing(&empty, &words), 8);
    Ok(())
}

// A leaf with keys 1 to 8, whose values are equal to them.
fn eight() -> [u64; PAGE_WORDS]
    ensures { IsTreePage result }
{
    let mut words = empty_page(0, 0);
    for number in 1..9 {
        let _ = put(&mut words, key(number), number);
    }
    words
}

#[test]
fn a_slot_of_nine_is_split(rt: HostRuntime) {
    let words = eight();
    assert_eq!(rt; words[2], 8);
    assert_eq!(rt; words[7], 820);
    assert_eq!(rt; words[8], 18);
    assert_eq!(rt; words[9], 32);
    assert_eq!(rt; words[10], 19);
    assert_eq!(rt; words[18], 276);
    assert_eq!(rt; words[19], 1280);
    assert_eq!(rt; words[32], 1060);
    assert_eq!(rt; words[48], 19);
}

#[test]
fn a_removed_place_is_taken_again(rt: HostRuntime) -> Result<(), Fail> {
    let mut words = eight();
    assert_eq!(rt; take(&mut words, key(4)), Ok(4));
    assert_eq!(rt; words[2], 7);
    assert_eq!(rt; words[6], 32);
    assert_eq!(rt; words[7], 820);
    assert_eq!(rt; words[9], 36);
    assert_eq!(rt; words[19], 1024);
    assert_eq!(rt; words[28], 36);
    assert_eq!(rt; words[32], 0);
    assert_eq!(rt; words[36], 1064);
    put(&mut words, key(4), 9)?;
    assert_eq!(rt; words[2], 8);
    assert_eq!(rt; words[6], 0);
    assert_eq!(rt; words[28], 32);
    assert_eq!(rt; words[32], 36);
    assert_eq!(rt; words[33], 4);
    assert_eq!(rt; words[34], 8);
    assert_eq!(rt; words[35], 9);
    assert_eq!(rt; words[36], 1320);
    Ok(())
}

// One word of the leaf below, as it must not be: its number, and what it holds.
const FAULTS: [(usize, u64); 36] = [
    // The kind, the level, the links, the number of records.
    (0, 2),
    (1, 8),
    (1, 1),
    (3, 4294967296),
    (4, 4294967296),
    (2, 8),
    (2, 6),
    // The free list: a place is in neither list, in both, or none.
    (6, 0),
    (6, 24),
    (6, 33),
    (32, 20),
    (32, 256),
    // The top: a place in neither list, or one above it; a slot too many, or too few.
    (7, 824),
    (7, 816),
    (7, 821),
    (7, 1076),
    (7, 564),
    // The directory: the infimum's slot, a slot that is another's or none, the supremum's, and what is behind it.
    (8, 20),
    (9, 40),
    (9, 0),
    (10, 20),
    (11, 19),
    // The infimum owns itself alone, and the chain goes on from it to the supremum, with all records.
    (18, 532),
    (18, 280),
    (19, 1280),
    (19, 1044),
    (20, 28),
    (48, 20),
    // What the slots own: one too many, or a record that owns no slot.
    (36, 1320),
    (40, 300),
    // Keys ascend.
    (25, 1),
    (25, 3),
    (25, 9),
    // Their words are those of keys: of 16 bytes they are not, nor where one of the bytes behind the last is not 0.
    (26, 16),
    (26, 0x108),
    (26, 7),
];

// Whether a page is formed with this word in place of its own.
fn is_formed_with(words: &[u64; PAGE_WORDS], index: usize, word: u64) -> bool {
    let mut other = *words;
    if index < PAGE_WORDS {
        other[index] = word;
    }
    is_formed(&other)
}

#[test]
fn one_wrong_word_is_refused(rt: HostRuntime) {
    let mut words = eight();
    assert_eq!(rt; level(&words), 0);
    set_links(&mut words, 5, 6);
    let _ = take(&mut words, key(4));
    assert!(rt; is_formed(&words));
    // Words of the free place, and words that no place was ever in, may hold anything.
    for index in [33, 34, 35, 52, 159] {
        assert!(rt; is_formed_with(&words, index, 77));
    }
    // The key of 2 with a zero byte behind it stands before that of 3, too.
    assert!(rt; is_formed_with(&words, 26, 9));
    for (index, word) in FAULTS.iter() {
        assert!(rt; !is_formed_with(&words, *index, *word));
    }
}

#[test]
fn a_free_page_has_its_clock_alone(rt: HostRuntime) {
    let words = free_page(9);
    assert!(rt; is_formed(&words));
    assert!(rt; is_formed_with(&words, 5, 8));
    assert!(rt; !is_formed_with(&words, 4, 1));
    assert!(rt; !is_formed_with(&words, 7, 532));
}

// A full leaf, whose keys are 2, 4, and so on to 70.
fn full() -> [u64; PAGE_WORDS]
    ensures { IsTreePage result }
{
    let mut words = empty_page(0, 0);
    for number in 1..36 {
        let _ = put(&mut words, key(2 * number), number);
    }
    words
}

#[test]
fn each_key_is_found(rt: HostRuntime) {
    let words = full();
    for number in 0..35usize {
        let twice = 2 * number as u64 + 2;
        assert_eq!(rt; find(&words, key(twice)), Ok(number));
        assert_eq!(rt; find(&words, key(twice - 1)), Err(number));
        assert_eq!(rt; get(&words, key(twice)), Some(twice / 2));
        assert_eq!(rt; get(&words, key(twice - 1)), None);
    }
    assert_eq!(rt; find(&words, key(71)), Err(35));
}

#[test]
fn a_full_page_refuses(rt: HostRuntime) {
    let mut words = full();
    assert_eq!(rt; put(&mut words, key(71), 1), Err(PageFault::PageFull));
    assert_eq!(rt; put(&mut words, key(70), 1), Err(PageFault::Duplicate));
    assert_eq!(rt; take(&mut words, key(71)), Err(PageFault::Missing));
}

// The child of a key, where the first record is not above it.
fn child(rt: &impl Abort, words: &[u64], key: Key) -> u64
    requires { IsTreePage words.now }
{
    assert!(rt; count(words) > 0);
    assert!(rt; !is_below(key, record_at(words, 0).0));
    let mut page = words;
    child_in(&mut page, key)
}

#[test]
fn a_key_is_led_to_its_child(rt: HostRuntime) {
    let words = full();
    assert_eq!(rt; child(&rt, &words, key(2)), 1);
    assert_eq!(rt; child(&rt, &words, key(3)), 1);
    assert_eq!(rt; child(&rt, &words, key(41)), 20);
    assert_eq!(rt; child(&rt, &words, key(99)), 35);
}

#[test]
fn cuts_and_joins(rt: HostRuntime) {
    let mut left = full();
    let mut right = empty_page(0, 4);
    assert_eq!(rt; count(&left), 35);
    move_tail(&mut left, 20, &mut right);
    assert_eq!(rt; count(&left), 20);
    assert_eq!(rt; count(&right), 15);
    assert_eq!(rt; record_at(&right, 0), (key(42), 21));
    assert_eq!(rt; left[7] % 256, 100);
    assert_eq!(rt; right[7] % 256, 80);
    let mut out = [(key(0), 0); MOST_RECORDS];
    assert_eq!(rt; copy_between(&right, key(43), key(50), &mut out), 4);
    assert_eq!(rt; out[0], (key(44), 22));
}

// Inserts a record where it fits and its key is not there, and takes the key out where not.
fn put_or_take(words: &mut [u64; PAGE_WORDS], key: Key, value: u64)
    requires { IsTreePage words.old }
    ensures { IsTreePage words.new }
{
    if put(words, key, value).is_err() {
        let _ = take(words, key);
    }
}

#[test]
fn many_changes_leave_a_page(rt: HostRuntime) {
    let mut words = empty_page(0, 0);
    let mut seed = 1u64;
    for _step in 0..400 {
        seed = seed
            .wrapping_mul(6364136223846793005)
            .wrapping_add(1442695040888963407);
        let one = key((seed >> 33) % 60);
        put_or_take(&mut words, one, seed);
        assert!(rt; is_formed(&words));
    }
    assert!(rt; count(&words) > 20);
}
