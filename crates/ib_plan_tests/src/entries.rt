//! Entries over the pages of a new space: which of them leave a tree.

ghost use Rattle.std.specs.Prelude.{◌≡◌, ◌<◌, IsTrue};
ghost use Rattle.ib_validate.specs.Positions.{positions_of};

use crate::keys::key;
use ib_map::{Key, LEAST_PAGES, PAGE_WORDS, Write};
use ib_sorted_map::SortedMap;
use ib_validate::TreePages;
use std::test::Fail;

// A word of a page.
fn word(page: u32, index: u32, value: u64) -> Write
    requires page { page < LEAST_PAGES }
    requires index { index < PAGE_WORDS }
{
    Write {
        place: page * PAGE_WORDS as u32 + index,
        value,
    }
}

// The root is raised over two leaves, 2 and 3, each with a key. `prev` is the link of leaf 3.
fn raised_root(prev: u64) -> [Write; 34] {
    [
        word(0, 0, 15),
        word(1, 1, 1),
        word(1, 2, 2),
        word(1, 7, 540),
        word(1, 18, 276),
        word(1, 19, 768),
        word(1, 20, 24),
        word(1, 23, 2),
        word(1, 24, 19),
        word(1, 25, 7),
        word(1, 26, 8),
        word(1, 27, 3),
        word(2, 0, 1),
        word(2, 2, 1),
        word(2, 4, 3),
        word(2, 7, 536),
        word(2, 8, 18),
        word(2, 9, 19),
        word(2, 18, 276),
        word(2, 19, 512),
        word(2, 20, 19),
        word(2, 21, 3),
        word(2, 22, 8),
        word(3, 0, 1),
        word(3, 2, 1),
        word(3, 3, prev),
        word(3, 7, 536),
        word(3, 8, 18),
        word(3, 9, 19),
        word(3, 18, 276),
        word(3, 19, 512),
        word(3, 20, 19),
        word(3, 21, 7),
        word(3, 22, 8),
    ]
}

// The first record of an empty leaf, 1, of the key of a number, and its clock.
fn first_record(clock: u64, key: u64, value: u64) -> [Write; 9] {
    [
        word(1, 2, 1),
        word(1, 5, clock),
        word(1, 7, 536),
        word(1, 18, 276),
        word(1, 19, 512),
        word(1, 20, 19),
        word(1, 21, key),
        word(1, 22, 8),
        word(1, 23, value),
    ]
}

// Whether the pages are a tree after these writes, which are then settled.
fn leaves_tree(pages: &mut TreePages, writes: &[Write], key: Key, map: &SortedMap) -> bool
    requires { positions_of pages.old.met_after ≡ positions_of pages.old.met_before }
    ensures { IsTrue result → positions_of pages.new.met_after ≡ positions_of pages.new.met_before }
{
    let end = pages.images().len() * PAGE_WORDS;
    if !writes.iter().all(|write| (write.place as usize) < end) {
        return false;
    }
    pages.store(writes);
    if !pages.is_tree(key, map) {
        return false;
    }
    pages.settle();
    true
}

#[test]
fn an_insert_leaves_a_tree(rt: HostRuntime) -> Result<(), Fail> {
    let mut pages = TreePages::opening(rt.alloc(), 16)?;
    let mut map = SortedMap::new(rt.alloc());
    assert!(rt; leaves_tree(&mut pages, &[word(1, 5, 1)], key(7), &map));
    map.insert(key(7), 9)?;
    let insert = first_record(2, 7, 9);
    assert!(rt; leaves_tree(&mut pages, &insert, key(7), &map));
    Ok(())
}

#[test]
fn another_value_leaves_none(rt: HostRuntime) -> Result<(), Fail> {
    let mut pages = TreePages::opening(rt.alloc(), 16)?;
    let mut map = SortedMap::new(rt.alloc());
    map.insert(key(7), 9)?;
    let insert = first_record(1, 7, 8);
    assert!(rt; !leaves_tree(&mut pages, &insert, key(7), &map));
    Ok(())
}

#[test]
fn a_bit_of_a_page_that_is_not_met_leaves_none(rt: HostRuntime) -> Result<(), Fail> {
    let mut pages = TreePages::opening(rt.alloc(), 16)?;
    let map = SortedMap::new(rt.alloc());
    let bits = Write { place: 0, value: 7 };
    assert!(rt; !leaves_tree(&mut pages, &[bits, word(1, 5, 1)], key(7), &map));
    Ok(())
}

#[test]
fn a_raised_root_leaves_a_tree(rt: HostRuntime) -> Result<(), Fail> {
    let mut pages = TreePages::opening(rt.alloc(), 16)?;
    let mut map = SortedMap::new(rt.alloc());
    map.insert(key(3), 0)?;
    map.insert(key(7), 0)?;
    assert!(rt; leaves_tree(&mut pages, &raised_root(2), key(7), &map));
    map.insert(key(4), 1)?;
    let insert = [
        word(2, 2, 2),
        word(2, 7, 540),
        word(2, 19, 768),
        word(2, 20, 24),
        word(2, 24, 19),
        word(2, 25, 4),
        word(2, 26, 8),
        word(2, 27, 1),
    ];
    assert!(rt; leaves_tree(&mut pages, &insert, key(4), &map));
    map.insert(key(8), 1)?;
    let elsewhere = [
        word(2, 2, 3),
        word(2, 7, 544),
        word(2, 19, 1024),
        word(2, 24, 28),
        word(2, 28, 19),
        word(2, 29, 8),
        word(2, 30, 8),
        word(2, 31, 1),
    ];
    assert!(rt; !leaves_tree(&mut pages, &elsewhere, key(8), &map));
    Ok(())
}

#[test]
fn a_link_that_does_not_lead_back_leaves_none(rt: HostRuntime) -> Result<(), Fail> {
    let mut pages = TreePages::opening(rt.alloc(), 16)?;
    let mut map = SortedMap::new(rt.alloc());
    map.insert(key(3), 0)?;
    map.insert(key(7), 0)?;
    assert!(rt; !leaves_tree(&mut pages, &raised_root(0), key(7), &map));
    Ok(())
}
