//! Whole memories by hand: a new space, a root over two leaves, two trees, and some that are not lawful.

ghost use Rattle.std.specs.Prelude.{◌<◌, ◌≤◌, length};

use crate::keys::key;
use ib_map::{Key, LEAST_PAGES, MOST_PAGES, OutOfMemory, PAGE_WORDS, PlainMap};
use ib_page::{Image, opening_image};
use ib_tree::{check_tree, content_of};
use std::alloc::Global;
use std::test::Fail;

// What the tree of a root has, where the memory is lawful.
fn content(
    alloc: Global,
    memory: &[Image],
    roots: u32,
    root: u32,
) -> Result<Option<PlainMap>, OutOfMemory>
    requires some { 0 < root }
    requires within { root ≤ roots }
    requires few { roots ≤ 2 }
    requires least { LEAST_PAGES ≤ length memory.now }
    requires most { length memory.now ≤ MOST_PAGES }
{
    if !check_tree(memory, roots) {
        return Ok(None);
    }
    Ok(Some(content_of(alloc, memory, root)?))
}

// A page of these words, by index. The others are 0.
fn page(words: &[(usize, u64)]) -> Image {
    let mut image = Image::free(0);
    for (index, value) in words {
        if *index < PAGE_WORDS {
            image.set_word(*index, *value);
        }
    }
    image
}

// A leaf with one record, of the key of a number.
fn leaf(prev: u32, next: u32, number: u64, value: u64) -> Image {
    let mut image = Image::leaf(0);
    image.set_links(prev, next);
    let _ = image.insert(key(number), value);
    image
}

// A node over leaf 2, and over leaf 3 from the key of a number on.
fn node(number: u64) -> Image {
    let mut image = Image::empty(1, 0);
    let _ = image.insert(Key::least(), 2);
    let _ = image.insert(key(number), 3);
    image
}

// The 16 pages of a new space.
fn new_space() -> [Image; 16] {
    let mut pages = [opening_image(2); 16];
    pages[0] = opening_image(0);
    pages[1] = opening_image(1);
    pages
}

// A root over two leaves, 2 and 3, each with a key. `prev` is the link of leaf 3.
fn raised_root(prev: u32) -> [Image; 16] {
    let mut pages = new_space();
    pages[0] = page(&[(0, 15)]);
    pages[1] = node(7);
    pages[2] = leaf(0, 3, 3, 0);
    pages[3] = leaf(prev, 0, 7, 5);
    pages
}

#[test]
fn a_new_space_is_lawful(rt: HostRuntime) -> Result<(), Fail> {
    match content(rt.alloc(), &new_space(), 1, 1)? {
        Some(map) => assert!(rt; map.is_empty()),
        None => assert!(rt; false),
    }
    Ok(())
}

#[test]
fn a_bit_of_a_page_that_is_not_met_is_refused(rt: HostRuntime) -> Result<(), Fail> {
    let mut pages = new_space();
    pages[0] = page(&[(0, 7)]);
    assert!(rt; !check_tree(&pages, 1));
    Ok(())
}

#[test]
fn a_root_over_two_leaves_is_lawful(rt: HostRuntime) -> Result<(), Fail> {
    match content(rt.alloc(), &raised_root(2), 1, 1)? {
        Some(map) => assert_eq!(rt;
            map.range(Key::least(), Key::greatest()),
            [(key(3), 0), (key(7), 5)].as_slice()
        ),
        None => assert!(rt; false),
    }
    Ok(())
}

#[test]
fn a_link_that_does_not_lead_back_is_refused(rt: HostRuntime) -> Result<(), Fail> {
    assert!(rt; !check_tree(&raised_root(0), 1));
    Ok(())
}

#[test]
fn a_second_root_is_another_tree(rt: HostRuntime) -> Result<(), Fail> {
    let mut pages = new_space();
    pages[0] = page(&[(0, 7)]);
    pages[2] = leaf(0, 0, 4, 6);
    assert!(rt; !check_tree(&pages, 1));
    match content(rt.alloc(), &pages, 2, 2)? {
        Some(map) => assert_eq!(rt;
            map.range(Key::least(), Key::greatest()),
            [(key(4), 6)].as_slice()
        ),
        None => assert!(rt; false),
    }
    Ok(())
}
