//! The pages of a space while a log is replayed, and whether each entry leaves them a tree (btr0btr,
//! `btr_validate_index`).

ghost use Rattle.std.specs.Prelude.{◌≡◌, ◌*◌, ◌<◌, ◌≤◌, ◌↔◌, ℕ, Bool, All, [], length, map, true, false, ◌||◌, IsTrue, IfOk};
ghost use Rattle.std.specs.List.{range_with_len};
ghost use Rattle.ib_map.specs.declared.TheConstants.{PAGE_WORDS, LEAST_PAGES, MOST_PAGES};
ghost use Rattle.ib_map.specs.Writes.{stored, touches};
ghost use Rattle.ib_page.specs.Memory.{word_at};
ghost use Rattle.ib_page.specs.Opening.{opening_words};
ghost use Rattle.ib_validate.specs.PatchTest.{Positions};
ghost use Rattle.ib_validate.specs.Positions.{marks_of, position_if, positions_of};
ghost use Rattle.ib_validate.specs.TreeMemory.{IsSettled, IsTreeMemory, IsTreePatch, opening_positions};

use crate::copies::settle_pages;
use crate::forms::{copy_forms, test_pages, tested};
use crate::marks::mark_pages;
use crate::pages::Pages;
use crate::patch::leaves_tree;
use crate::position::{PagePosition, ROOT};
use crate::stores::store_words;
use ib_map::{Key, Write};
use ib_page::{Image, opening_image};
use ib_sorted_map::SortedMap;
use std::alloc::{AllocError, Global};
use std::marker::Model;

/// The pages of a space before and after an entry of a log, where each is met in the tree, and which of them the
/// entry writes. Between entries both are the same, and no page is marked. Beside each image stands whether it can be
/// read.
#[derive(Drop)]
pub struct TreePages {
    before: Vec<Image>,
    after: Vec<Image>,
    forms_before: Vec<bool>,
    forms_after: Vec<bool>,
    met_before: Vec<Option<PagePosition>>,
    met_after: Vec<Option<PagePosition>>,
    written: Vec<bool>,
    pages: Vec<u32>,
}

impl Model for TreePages {
    ghost use Rattle.std.specs.Prelude.{◌≤◌, length};
    ghost use Rattle.std.specs.Vec.{vec_capacity};
    ghost use Rattle.ib_validate.specs.Forms.{AreForms};
    ghost use Rattle.ib_validate.specs.TreeMemory.{TreeMemory, IsTreeMemory};

    ghost Value = { TreeMemory };

    ghost view = { λ t. record {
      before = t.before.items;
      after = t.after.items;
      met_before = t.met_before.items;
      met_after = t.met_after.items;
      written = t.written.items;
      pages = t.pages.items;
    } };

    ghost invariant = { λ t. record {
      kept : IsTreeMemory (record {
        before = t.before.items;
        after = t.after.items;
        met_before = t.met_before.items;
        met_after = t.met_after.items;
        written = t.written.items;
        pages = t.pages.items;
      });
      room : length t.before.items ≤ vec_capacity t.pages;
      forms_before : AreForms t.before.items t.forms_before.items;
      forms_after : AreForms t.after.items t.forms_after.items;
    } };
}

impl TreePages {
    /// The pages of a new space, whose tree is its root, an empty leaf. No other call takes memory.
    pub fn opening(alloc: Global, pages: u32) -> Result<TreePages, AllocError>
        requires least { LEAST_PAGES ≤ pages }
        requires most { pages ≤ MOST_PAGES }
        ensures settled { IfOk result IsSettled }
        ensures images { IfOk result (λ t. t.before ≡ map (opening_words 1) (range_with_len 0 pages)) }
        ensures positions { IfOk result (λ t. positions_of t.met_before ≡ opening_positions) }
    {
        let old = opening_images(alloc, pages)?;
        let new = opening_images(alloc, pages)?;
        Ok(TreePages {
            forms_before: tested(alloc, &old)?,
            forms_after: tested(alloc, &new)?,
            before: old,
            after: new,
            met_before: opening_table(alloc, pages)?,
            met_after: opening_table(alloc, pages)?,
            written: vec![in alloc; false; pages as usize]?,
            pages: Vec::with_capacity(alloc, pages as usize)?,
        })
    }

    /// The images of the pages, by number, after the entry that was stored.
    pub fn images(&self) -> &[Image]
        ensures images { result.now ≡ self.now.after }
        ensures memory { IsTreeMemory self.now }
    {
        &self.after
    }

    /// The images of the pages, by number, before the entry that was stored. It takes no memory.
    pub fn into_images(self) -> Vec<Image>
        ensures { result.items ≡ self.before }
    {
        let TreePages { before, .. } = self;
        before
    }

    /// Stores what an entry writes in the pages after it, and marks those pages.
    pub fn store(&mut self, writes: &[Write])
        requires { All (λ w. w.place < length self.old.before * PAGE_WORDS) writes.now }
        ensures words { (place : ℕ) → place < length self.old.before * PAGE_WORDS → word_at self.new.after place ≡ stored writes.now place (word_at self.old.after place) }
        ensures marks { (page : ℕ) → marks_of self.new.written page ≡ (marks_of self.old.written page || touches page writes.now) }
        ensures kept { self.new ≡ record self.old { after = self.new.after; written = self.new.written; pages = self.new.pages } }
        ensures memory { IsTreeMemory self.new }
    {
        mark_pages(&mut self.written, &mut self.pages, writes);
        store_words(&mut self.after, writes);
        test_pages(&mut self.forms_after, &self.after, &self.pages);
    }

    /// Takes the pages after an entry, and where they are met, for those before the next one. Of the pages that
    /// are not marked none may be met elsewhere than before. It copies the marked pages alone.
    pub fn settle(&mut self)
        requires { (page : ℕ) → marks_of self.old.written page ≡ false → positions_of self.old.met_after page ≡ positions_of self.old.met_before page }
        ensures settled { IsSettled self.new }
        ensures images { self.new.after ≡ self.old.after }
        ensures positions { self.new.met_after ≡ self.old.met_after }
    {
        settle_pages(
            &mut self.before,
            &self.after,
            &mut self.met_before,
            &self.met_after,
            &mut self.written,
            &self.pages,
        );
        copy_forms(
            &mut self.forms_before,
            &self.forms_after,
            &self.after,
            &self.pages,
        );
        self.pages.clear();
    }

    /// Whether the pages after the entry that was stored make one tree whose leaves have what the map has, where
    /// the pages before it did, of a map that differs in this key alone. It looks at the pages that the entry
    /// writes, their children and their neighbours, and at no others. Where it says no, what is kept of where
    /// pages are met after the entry is of no use.
    pub fn is_tree(&mut self, key: Key, map: &SortedMap) -> bool
        requires { positions_of self.old.met_after ≡ positions_of self.old.met_before }
        ensures sound { IsTrue result → IsTreePatch self.old (positions_of self.new.met_after) key map.now }
        ensures complete { (table : Positions) → IsTreePatch self.old table key map.now → IsTrue result }
        ensures rest { IsTrue result → (page : ℕ) → marks_of self.old.written page ≡ false → positions_of self.new.met_after page ≡ positions_of self.old.met_before page }
        ensures kept { self.new ≡ record self.old { met_after = self.new.met_after } }
        ensures memory { IsTreeMemory self.old }
    {
        leaves_tree(
            &mut self.met_after,
            &Pages::new(&self.before, &self.forms_before),
            &Pages::new(&self.after, &self.forms_after),
            &self.met_before,
            &self.written,
            &self.pages,
            key,
            map,
        )
    }
}

// An image for each page of a new space.
fn opening_images(alloc: Global, pages: u32) -> Result<Vec<Image>, AllocError>
    ensures { IfOk result (λ images. images.items ≡ map (opening_words 1) (range_with_len 0 pages)) }
{
    let mut images = Vec::with_capacity(alloc, pages as usize)?;
    for page in 0..pages {
        images.push(opening_image(page))?;
    }
    Ok(images)
}

// Where a page of a new space is met: the root alone is, as a leaf with all keys.
fn opening_position(page: u32) -> Option<PagePosition>
    ensures { position_if result ≡ opening_positions page }
{
    if page != ROOT {
        return None;
    }
    Some(PagePosition {
        tree: ROOT,
        height: 0,
        low: Key::least(),
        high: None,
    })
}

// Where each page of a new space is met.
fn opening_table(alloc: Global, pages: u32) -> Result<Vec<Option<PagePosition>>, AllocError>
    requires { 1 < pages }
    ensures size { IfOk result (λ table. length table.items ≡ pages) }
    ensures positions { IfOk result (λ table. positions_of table.items ≡ opening_positions) }
{
    let mut table = Vec::with_capacity(alloc, pages as usize)?;
    for page in 0..pages {
        table.push(opening_position(page))?;
    }
    Ok(table)
}
