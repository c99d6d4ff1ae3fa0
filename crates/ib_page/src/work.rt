//! The pages that one change works on, those of a mini-transaction (mtr0mtr), in memory that is taken once.

ghost use Rattle.std.specs.Prelude.{◌≡◌, ◌≢◌, ◌+◌, ◌*◌, ◌<◌, ◌≤◌, ◌++◌, [], drop, take, length, slice_get, slice_set, nat_lt, ◌&&◌, ◌||◌, true, All, None, Some, IsSome, IsSomeAnd, IfSome, IfOk, IsTrue, ◌↔◌, MatchOption};
ghost use Rattle.std.specs.List.{prefix_len};
ghost use Rattle.std.specs.Borrow.{sem};
ghost use Rattle.ib_map.specs.Writes.{write_words, spans_pages, touches};
ghost use Rattle.ib_page.specs.Work.{IsWork, changed_of, before_of, with_read, without_page};
ghost use Rattle.ib_page.specs.Rooms.{work_page_in, changed_in};
ghost use Rattle.ib_page.specs.Writes.{page_writes, writes_of};
ghost use Rattle.ib_page.specs.Lending.{LendsChanged, LendsRead};

use crate::image::Image;
use ib_map::{OutOfMemory, PAGE_WORDS};
use std::alloc::Global;
use std::marker::Model;

/// The most pages that a work set has.
pub const MOST_WORK_PAGES: usize = 32;

/// A page of a work set: its image as read, and its image as changed.
#[derive(Clone, Copy)]
pub struct PageImages<'a> {
    /// The number of the page.
    pub page: u32,
    /// Its image as read.
    pub before: &'a Image,
    /// Its image as changed: the one that was read, where the page was not edited.
    pub changed: &'a Image,
}

/// What `write_into` wrote.
#[derive(Clone, Copy, Debug, PartialEq, Eq)]
pub struct Written {
    /// How many writes there are, of a place and a value each.
    pub count: usize,
    /// Whether they lie on more than one page.
    pub structural: bool,
}

// A page, the room in which its images stand, and whether it has a changed image of its own.
#[derive(Clone, Copy, Debug, PartialEq, Eq)]
struct Slot {
    page: u32,
    room: usize,
    edited: bool,
}

/// The pages that a change reads and writes, those of a mini-transaction (mtr0mtr): each with its image as read and its image
/// as changed. Contracts see the list of its pages in ascending order. An image is copied when its page is first edited.
#[derive(Drop)]
pub struct WorkSet {
    slots: Vec<Slot>,
    before: Vec<Image>,
    changed: Vec<Image>,
    spare: Vec<usize>,
}

impl Model for WorkSet {
    ghost use Rattle.std.specs.Prelude.{List, ◌≤◌};
    ghost use Rattle.std.specs.Vec.{vec_capacity};
    ghost use Rattle.ib_page.specs.declared.work.TheConstants.{MOST_WORK_PAGES};
    ghost use Rattle.ib_page.specs.Work.{WorkPage};
    ghost use Rattle.ib_page.specs.Rooms.{IsRoomed, pages_in};

    ghost Value = { List WorkPage };

    ghost view = { λ w. pages_in w.before.items w.changed.items w.slots.items };

    ghost invariant = { λ w. record {
      kept : IsRoomed w.slots.items w.before.items w.changed.items w.spare.items;
      slots_room : MOST_WORK_PAGES ≤ vec_capacity w.slots;
      spare_room : MOST_WORK_PAGES ≤ vec_capacity w.spare;
    } };
}

impl WorkSet {
    /// An empty work set, with all the memory that it will ever have.
    pub fn with_room(alloc: Global) -> Result<WorkSet, OutOfMemory>
        ensures { IfOk result (λ w. w ≡ []) }
    {
        let slots = Vec::with_capacity(alloc, MOST_WORK_PAGES)?;
        let before = vec![in alloc; Image::free(0); MOST_WORK_PAGES]?;
        let changed = vec![in alloc; Image::free(0); MOST_WORK_PAGES]?;
        let mut spare = Vec::with_capacity(alloc, MOST_WORK_PAGES)?;
        for room in 0..MOST_WORK_PAGES {
            spare.push_reserved(room);
        }
        Ok(WorkSet {
            slots,
            before,
            changed,
            spare,
        })
    }

    /// How many pages are there, at most `MOST_WORK_PAGES`.
    pub fn len(&self) -> usize
        ensures count { result ≡ length self.now }
        ensures work { IsWork self.now }
    {
        self.slots.len()
    }

    /// Whether no page is there.
    pub fn is_empty(&self) -> bool
        ensures none { IsTrue result ↔ (self.now ≡ []) }
        ensures work { IsWork self.now }
    {
        self.slots.is_empty()
    }

    /// A page with its images, by its index in the order of pages, from 0 on.
    pub fn page_at(&self, index: usize) -> PageImages<'_>
        requires { index < length self.now }
        ensures page { slice_get self.now index ≡ Some (record {
          page = result.page;
          before = result.before.now;
          changed = result.changed.now;
        }) }
        ensures work { IsWork self.now }
    {
        let slot = self.slots[index];
        PageImages {
            page: slot.page,
            before: &self.before[slot.room],
            changed: latest(slot, &self.before, &self.changed),
        }
    }

    /// The changed image of a page. None exactly where the page is not there.
    pub fn image(&self, page: u32) -> Option<&Image>
        ensures image { MatchOption result (changed_of page self.now ≡ None) (λ image. changed_of page self.now ≡ Some image.now) }
        ensures work { IsWork self.now }
    {
        match find(&self.slots, page) {
            Some(index) => Some(latest(self.slots[index], &self.before, &self.changed)),
            None => None,
        }
    }

    /// The image of a page as it was read. None exactly where the page is not there.
    pub fn before(&self, page: u32) -> Option<&Image>
        ensures image { MatchOption result (before_of page self.now ≡ None) (λ image. before_of page self.now ≡ Some image.now) }
        ensures work { IsWork self.now }
    {
        match find(&self.slots, page) {
            Some(index) => Some(&self.before[self.slots[index].room]),
            None => None,
        }
    }

    /// How many words are changed: in how many the changed images differ from those that were read.
    pub fn changed(&self) -> usize
        ensures count { result ≡ length (writes_of self.now) }
        ensures work { IsWork self.now }
    {
        let mut count = 0;
        for slot in &self.slots {
            count += differing(*slot, &self.before, &self.changed);
        }
        count
    }

    /// Whether the page at an index, in the order of pages, is changed: whether a word of its changed image differs from the one that was read.
    pub fn is_changed_at(&self, index: usize) -> bool
        requires { index < length self.now }
        ensures changed { IsSomeAnd (slice_get self.now index) (λ w. IsTrue result ↔ (touches w.page (writes_of self.now) ≡ true)) }
        ensures work { IsWork self.now }
    {
        let images = self.page_at(index);
        images.before.differences(images.changed) > 0
    }

    /// Writes the words that differ to the front of `out`: the place of each, and what it is changed to. All
    /// else of `out` stays. There must be room for all of them.
    pub fn write_into(&self, out: &mut [u64]) -> Written
        requires { 2 * length (writes_of self.now) ≤ length out.old }
        ensures words { out.new ≡ write_words (writes_of self.now) ++ drop (2 * length (writes_of self.now)) out.old }
        ensures count { result.count ≡ length (writes_of self.now) }
        ensures structural { result.structural ≡ spans_pages (writes_of self.now) }
        ensures work { IsWork self.now }
    {
        let mut count = 0;
        let mut structural = false;
        for slot in &self.slots {
            let end = write_page(*slot, &self.before, &self.changed, out, count);
            structural = spans_further(structural, count, end);
            count = end;
        }
        Written { count, structural }
    }

    /// The changed image of a page that is there, to be changed. The first call for a page copies its image.
    pub fn edit(&mut self, page: u32) -> &mut Image
        requires { IsSome (changed_of page self.old) }
        ensures* lends { sem 𝓛 (LendsChanged self.entry page result) }
        ensures image { changed_of page self.old ≡ Some result.now }
        ensures work { IsWork self.old }
    {
        let index = find(&self.slots, page).unwrap();
        let slot = self.slots[index];
        copy_at_first(slot, &self.before, &mut self.changed);
        self.slots[index] = Slot {
            page: slot.page,
            room: slot.room,
            edited: true,
        };
        &mut self.changed[slot.room]
    }

    /// Takes a page in, that is not there, and lends its image to be filled: what is left there is the image as
    /// read and as changed. There must be room for a page.
    pub fn read_in(&mut self, page: u32) -> &mut Image
        requires absent { changed_of page self.old ≡ None }
        requires index { length self.old < MOST_WORK_PAGES }
        ensures* lends { sem 𝓛 (LendsRead self.entry page result) }
        ensures work { IsWork self.old }
    {
        let index = index_for(&self.slots, page);
        let room = self.spare.pop().unwrap();
        // There is room, so the call takes no memory, and does not fail.
        let _ = self.slots.insert(
            index,
            Slot {
                page,
                room,
                edited: false,
            },
        );
        &mut self.before[room]
    }

    /// Takes a page in, that is not there, with one image as read and as changed. There must be room for a page.
    pub fn add(&mut self, page: u32, image: &Image)
        requires absent { changed_of page self.old ≡ None }
        requires index { length self.old < MOST_WORK_PAGES }
        ensures added { self.new ≡ with_read page image.now self.old }
        ensures work { IsWork self.old }
    {
        *self.read_in(page) = *image;
    }

    /// Takes a page out that is there, and of which the changed image is the one that was read.
    pub fn remove(&mut self, page: u32)
        requires there { IsSome (changed_of page self.old) }
        requires same { changed_of page self.old ≡ before_of page self.old }
        ensures removed { self.new ≡ without_page page self.old }
        ensures work { IsWork self.old }
    {
        let index = find(&self.slots, page).unwrap();
        let slot = self.slots.remove(index);
        self.spare.push_reserved(slot.room);
    }

    /// Takes all pages out.
    pub fn clear(&mut self)
        ensures none { self.new ≡ [] }
        ensures work { IsWork self.old }
    {
        while let Some(slot) = self.slots.pop() {
            self.spare.push_reserved(slot.room);
        }
    }
}

// Where a page stands. None exactly where it is not there.
fn find(slots: &[Slot], page: u32) -> Option<usize>
    ensures there { IfSome result (λ i. IsSomeAnd (slice_get slots.now i) (λ s. s.page ≡ page)) }
    ensures absent { result ≡ None → All (λ s. s.page ≢ page) slots.now }
{
    for (i, slot) in slots.iter().enumerate() {
        if slot.page == page {
            return Some(i);
        }
    }
    None
}

// How many slots stand before a page.
fn index_for(slots: &[Slot], page: u32) -> usize
    ensures index { result ≡ prefix_len (λ s. nat_lt s.page page) slots.now }
    ensures in_range { result ≤ length slots.now }
{
    for (i, slot) in slots.iter().enumerate() {
        if slot.page >= page {
            return i;
        }
    }
    slots.len()
}

// The changed image of a slot.
fn latest<'a>(slot: Slot, before: &'a [Image], changed: &'a [Image]) -> &'a Image
    requires before { slot.room < length before.now }
    requires changed { slot.room < length changed.now }
    ensures { result.now ≡ changed_in before.now changed.now slot }
{
    if slot.edited {
        &changed[slot.room]
    } else {
        &before[slot.room]
    }
}

// Gives a slot a changed image of its own, unless it has one.
fn copy_at_first(slot: Slot, before: &[Image], changed: &mut [Image])
    requires before { slot.room < length before.now }
    requires changed { slot.room < length changed.old }
    ensures { changed.new ≡ slice_set changed.old slot.room (changed_in before.now changed.old slot) }
{
    if !slot.edited {
        changed[slot.room] = before[slot.room];
    }
}

// In how many words the images of a slot differ.
fn differing(slot: Slot, before: &[Image], changed: &[Image]) -> usize
    requires before { slot.room < length before.now }
    requires changed { slot.room < length changed.now }
    ensures count { result ≡ length (page_writes (work_page_in before.now changed.now slot)) }
    ensures few { result ≤ PAGE_WORDS }
{
    if slot.edited {
        before[slot.room].differences(&changed[slot.room])
    } else {
        0
    }
}

// Writes the words in which the images of a slot differ behind `count` others, and says how many there are then.
fn write_page(
    slot: Slot,
    before: &[Image],
    changed: &[Image],
    out: &mut [u64],
    count: usize,
) -> usize
    requires before { slot.room < length before.now }
    requires changed { slot.room < length changed.now }
    requires room { 2 * (count + length (page_writes (work_page_in before.now changed.now slot))) ≤ length out.old }
    ensures words { let writes = page_writes (work_page_in before.now changed.now slot) in
        out.new ≡ take (2 * count) out.old ++ write_words writes ++ drop (2 * (count + length writes)) out.old }
    ensures count { result ≡ count + length (page_writes (work_page_in before.now changed.now slot)) }
{
    if slot.edited {
        let old = &before[slot.room];
        old.write_differences(slot.page, &changed[slot.room], out, count)
    } else {
        count
    }
}

// Whether writes lie on several pages, where of all up to `end` those up to `count` lie on pages before.
fn spans_further(structural: bool, count: usize, end: usize) -> bool
    ensures { result ≡ (structural || (nat_lt 0 count && nat_lt count end)) }
{
    structural || 0 < count && count < end
}
