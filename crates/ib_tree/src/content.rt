//! The content of a tree, read from its leaves.

ghost use Rattle.std.specs.Prelude.{◌≡◌, ◌<◌, ◌++◌, length, OnOk, IfOk};
ghost use Rattle.ib_map.specs.Keys.{end_rank};
ghost use Rattle.ib_map.specs.Pairs.{Rises, put};
ghost use Rattle.ib_page.specs.Form.{page_of};
ghost use Rattle.ib_walk.specs.Trees.{content_of, leaves_of};
ghost use Rattle.ib_walk.specs.Walk.{first_page};
ghost use Rattle.ib_walk.specs.Words.{memory_of, state_of};
ghost use Rattle.ib_tree.specs.Roots.{HasRoot};

use crate::images::{ImageList, Images};
use ib_map::{Key, OutOfMemory, PlainMap};
use ib_page::Image;
use ib_validate::{Page, reading};
use std::alloc::{AllocError, Global};

/// The content of the tree of a root, as a map: the records of its leaves, from the first one along the links. The
/// images are those of a lawful memory, as `check_tree` tells, and the root is one of its roots. Refused only for want
/// of memory.
pub fn content_of(alloc: Global, memory: &[Image], root: u32) -> Result<PlainMap, OutOfMemory>
    requires { HasRoot memory.now root }
    ensures { IfOk result (λ map. map ≡ content_of (memory_of memory.now) root) }
{
    content_in(alloc, &ImageList::new(memory), root)
}

/// `content_of`, where the images are had one by one: no more than one of them is copied at a time.
///
/// ```
/// let map = content_in(alloc, &pages, 1)?;
/// ```
pub fn content_in<P: Images>(alloc: Global, pages: &P, root: u32) -> Result<PlainMap, OutOfMemory>
    requires { HasRoot (P.images pages.now) root }
    ensures { IfOk result (λ map. map ≡ content_of (memory_of (P.images pages.now)) root) }
{
    let mut map = PlainMap::new(alloc);
    let mut page = first_leaf(pages, root);
    for _ in 0..pages.len() {
        if page == 0 {
            return Ok(map);
        }
        let image = image_of(pages, page);
        let leaf = Page::test(&image);
        insert_records(&mut map, &leaf)?;
        page = reading::next(&leaf);
    }
    Ok(map)
}

// The first leaf of the tree of a root: the root's first child, that one's first child, and so on down.
fn first_leaf<P: Images>(pages: &P, root: u32) -> u32
    requires { HasRoot (P.images pages.now) root }
    ensures { result ≡ first_page (leaves_of (memory_of (P.images pages.now)) root) 0 }
{
    let top = image_of(pages, root);
    let mut page = root;
    for _ in 0..reading::level(&Page::test(&top)) {
        let node = image_of(pages, page);
        page = reading::record_at(&Page::test(&node), 0).1 as u32;
    }
    page
}

// The image of a page, which has all words, as each image has.
fn image_of<P: Images>(pages: &P, page: u32) -> Image
    requires { page < length (P.images pages.now) }
    ensures { memory_of (P.images pages.now) page ≡ state_of (page_of result) }
{
    let image = pages.image(page);
    // For the proof: an image has all words of a page.
    let _first = image.word(0);
    image
}

// Inserts the records of a leaf, whose keys are above all of the map's.
fn insert_records(map: &mut PlainMap, leaf: &Page<'_>) -> Result<(), OutOfMemory>
    requires { Rises 0 (map.old ++ (state_of (page_of leaf.now)).records) end_rank }
    ensures { OnOk result (map.new ≡ map.old ++ (state_of (page_of leaf.now)).records) }
{
    for place in 0..reading::count(leaf) {
        let (key, value) = reading::record_at(leaf, place);
        insert(map, key, value)?;
    }
    Ok(())
}

// Inserts a pair. No tree has a key twice, so where that fails it is for want of memory.
fn insert(map: &mut PlainMap, key: Key, value: u64) -> Result<(), OutOfMemory>
    ensures { OnOk result (map.new ≡ put key value map.old) }
{
    match map.insert(key, value) {
        Ok(()) => Ok(()),
        Err(_) => Err(AllocError),
    }
}
