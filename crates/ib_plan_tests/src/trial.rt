//! One memory, and beside it the plain map that it has to hold.

ghost use Rattle.std.specs.Prelude.{◌≤◌, length, IsTrue};
ghost use Rattle.ib_map.specs.declared.TheConstants.{LEAST_PAGES, MOST_PAGES};

use crate::changes;
use ib_map::{Key, LEAST_PAGES, MOST_PAGES, OutOfMemory, PlainMap};
use ib_page::{Image, SpaceImage, WorkSet, opening_image};
use ib_plans::TreeFault;
use ib_tree::{check_tree, content_of};
use ib_validate::{Page, reading};
use std::alloc::Global;
use std::process::Abort;

// What a tree is like: the level of its root, how many records that has, and how many pages are free.
#[derive(Clone, Copy, Debug, PartialEq, Eq)]
pub(crate) struct Shape {
    pub(crate) level: u32,
    pub(crate) root: usize,
    pub(crate) free: u32,
}

// A memory with one tree, and its content as a plain map.
#[derive(Drop)]
pub(crate) struct Trial {
    memory: Vec<Image>,
    map: PlainMap,
    work: WorkSet,
}

impl Trial {
    // The tree of a new space of so many pages.
    pub(crate) fn new(rt: &impl Abort, alloc: Global, pages: usize) -> Result<Trial, OutOfMemory> {
        let mut memory = vec![in alloc; opening_image(2); pages]?;
        assert!(rt; pages > 1);
        memory[0] = opening_image(0);
        memory[1] = opening_image(1);
        Ok(Trial {
            memory,
            map: PlainMap::new(alloc),
            work: WorkSet::with_room(alloc)?,
        })
    }

    // Inserts a record into the tree and the map, which must answer the same.
    pub(crate) fn insert(&mut self, rt: &impl Abort, key: Key, value: u64) {
        assert!(rt; has_pages(&self.memory));
        match changes::insert(rt, &mut self.work, &mut self.memory, key, value) {
            Ok(()) => assert!(rt; self.map.insert(key, value).is_ok()),
            Err(fault) => assert!(rt; fault != TreeFault::Duplicate || self.map.get(key).is_some()),
        }
    }

    // Deletes a key from the tree and the map, which must answer the same.
    pub(crate) fn delete(&mut self, rt: &impl Abort, key: Key) {
        assert!(rt; has_pages(&self.memory));
        match changes::delete(rt, &mut self.work, &mut self.memory, key) {
            Ok(value) => assert!(rt; self.map.delete(key).ok() == Some(value)),
            Err(fault) => {
                assert!(rt; fault == TreeFault::Missing);
                assert!(rt; self.map.get(key).is_none());
            }
        }
    }

    // The memory is lawful, and has what the map has.
    pub(crate) fn compare(&self, rt: &impl Abort, alloc: Global) -> Result<(), OutOfMemory> {
        assert!(rt; has_pages(&self.memory));
        assert!(rt; check_tree(&self.memory, 1));
        let content = content_of(alloc, &self.memory, 1)?;
        let (low, high) = (Key::least(), Key::greatest());
        assert!(rt; content.range(low, high) == self.map.range(low, high));
        Ok(())
    }

    // A page, which the memory has.
    pub(crate) fn page(&self, rt: &impl Abort, page: usize) -> &Image {
        assert!(rt; page < self.memory.len());
        &self.memory[page]
    }

    // How many keys the tree has.
    pub(crate) fn len(&self) -> usize {
        self.map.len()
    }

    // What the tree is like.
    pub(crate) fn shape(&self, rt: &impl Abort) -> Shape {
        assert!(rt; has_pages(&self.memory));
        Shape {
            level: reading::level(&Page::test(&self.memory[1])),
            root: reading::count(&Page::test(&self.memory[1])),
            free: SpaceImage::from_image(&self.memory[0]).free_count(self.memory.len() as u32),
        }
    }
}

// Whether a space may have so many pages.
fn has_pages(memory: &[Image]) -> bool
    ensures { IsTrue result → (LEAST_PAGES ≤ length memory.now) × (length memory.now ≤ MOST_PAGES) }
{
    memory.len() >= LEAST_PAGES as usize && memory.len() <= MOST_PAGES as usize
}
