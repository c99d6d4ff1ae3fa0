//! The changes that a delete makes in a work set: a record taken out, a merge, the lift of a root, pages given back.

ghost use Rattle.std.specs.Prelude.{◌≡◌, ◌≢◌, ◌<◌, ◌≤◌, ◌^◌, ◌+◌, ◌++◌, [], ℕ, length, slice_index, IsSomeAnd};
ghost use Rattle.ib_map.specs.Keys.{end_rank};
ghost use Rattle.ib_map.specs.Pairs.{Rises};
ghost use Rattle.ib_heap.specs.declared.TheConstants.{MOST_RECORDS};
ghost use Rattle.ib_page.specs.declared.space.TheConstants.{MAPPED_PAGES};
ghost use Rattle.ib_page.specs.Image.{IsTreePage};
ghost use Rattle.ib_page.specs.Work.{changed_of};
ghost use Rattle.ib_plans.specs.Merge.{first_child};
ghost use Rattle.ib_plans.specs.Moves.{HasMoved, Takes, Stays};
ghost use Rattle.ib_plans.specs.Split.{with_prev};
ghost use Rattle.ib_plans.specs.Agreement.{SetsBits, memory_in, Sets, tick, taken_bits, with_bits};
ghost use Rattle.ib_merge.specs.Deletes.{without_record, CanMerge, IsJoined, IsMerged, CanLift, IsLifted, AreTaken, MayGivePages};

use crate::images::{join_images, lower_image};
use ib_map::Key;
use ib_page::{Image, SpaceImage, WorkSet};
use ib_plans::{image_of, link_back};

// Two children of a node that become one page: the left one, the record of the one that goes, and which of the two is the
// sibling of the key's child.
#[derive(Clone, Copy)]
pub(crate) struct Merger {
    pub(crate) left: u32,
    pub(crate) gone: (Key, u32),
    pub(crate) beside: u32,
}

// Takes the record of a key out of a page of the tree, where there is one.
pub(crate) fn take_record(work: &mut WorkSet, page: u32, key: Key)
    requires tree { IsSomeAnd (changed_of page work.old) IsTreePage }
    requires clock { (memory_in work.old page).clock < 2 ^ 63 }
    ensures set { Sets page (tick (without_record key (memory_in work.old page))) work.old work.new }
    ensures taken { HasMoved (Takes key) (changed_of page work.old) (changed_of page work.new) }
{
    let image = work.edit(page);
    // Where the key is not there, the page stays as it is.
    let _ = image.remove(key);
    image.touch();
}

// Merges two children of a node.
pub(crate) fn merge(work: &mut WorkSet, parent: u32, merger: Merger)
    requires { CanMerge parent merger.left merger.gone.1 merger.beside work.old }
    ensures { IsMerged parent merger.left merger.gone merger.beside work.old work.new }
{
    let next = image_of(work, merger.gone.1).next();
    join_pages(work, merger.left, merger.gone.1);
    take_record(work, parent, merger.gone.0);
    link_behind(work, next, merger.left);
    work.edit(merger.beside).touch();
}

// The left one of two pages of a level takes the records of the other one, which becomes a free page.
fn join_pages(work: &mut WorkSet, left: u32, gone: u32)
    requires tree { IsSomeAnd (changed_of left work.old) IsTreePage }
    requires gone_tree { IsSomeAnd (changed_of gone work.old) IsTreePage }
    requires level { (memory_in work.old left).level ≡ (memory_in work.old gone).level }
    requires few { length (memory_in work.old left).records + length (memory_in work.old gone).records ≤ MOST_RECORDS }
    requires ascends { Rises 0 ((memory_in work.old left).records ++ (memory_in work.old gone).records) end_rank }
    requires apart { left ≢ gone }
    ensures { IsJoined left gone work.old work.new }
{
    let right = *image_of(work, gone);
    join_images(work.edit(left), &right);
    *work.edit(gone) = Image::free(right.clock());
}

// Links the leaf behind, where there is one, back to another one.
fn link_behind(work: &mut WorkSet, next: u32, prev: u32)
    requires tree { next ≢ 0 → IsSomeAnd (changed_of next work.old) IsTreePage }
    requires leaf { next ≢ 0 → (memory_in work.old next).level ≡ 0 }
    requires clock { next ≢ 0 → (memory_in work.old next).clock < 2 ^ 63 }
    ensures alone { next ≡ 0 → work.new ≡ work.old }
    ensures linked { next ≢ 0 → Sets next (tick (with_prev prev (memory_in work.old next))) work.old work.new }
    ensures stays { next ≢ 0 → HasMoved Stays (changed_of next work.old) (changed_of next work.new) }
{
    if next != 0 {
        link_back(work, next, prev);
    }
}

// Lifts a root that has one child, and answers the child, which becomes a free page.
pub(crate) fn lift(work: &mut WorkSet, root: u32) -> u32
    requires { CanLift root work.old }
    ensures child { result ≡ first_child (memory_in work.old root).records }
    ensures lifted { IsLifted root result work.old work.new }
{
    let child = image_of(work, root).record_at(0).1 as u32;
    let low = *image_of(work, child);
    lower_image(work.edit(root), &low);
    *work.edit(child) = Image::free(low.clock());
    child
}

// Gives pages back that are taken. Where there is none, page 0 is not even read.
pub(crate) fn give_pages(work: &mut WorkSet, pages: &[u32])
    requires { pages.now ≢ [] → MayGivePages pages.now work.old }
    ensures none { pages.now ≡ [] → work.new ≡ work.old }
    ensures given { pages.now ≢ [] → SetsBits 0 pages.now work.old work.new }
{
    if pages.is_empty() {
        return;
    }
    let mut space = SpaceImage::from_image(image_of(work, 0));
    give_all(&mut space, pages);
    space.touch();
    *work.edit(0) = space.to_image();
}

// Clears the bits of pages that are taken.
fn give_all(space: &mut SpaceImage, pages: &[u32])
    requires { AreTaken (taken_bits space.old) pages.now }
    ensures bits { (page : ℕ) → page < MAPPED_PAGES
        → taken_bits space.new page ≡ with_bits pages.now 0 (taken_bits space.old) page }
    ensures behind { (i : ℕ) → 64 ≤ i → slice_index space.new i ≡ slice_index space.old i }
    ensures size { length space.new ≡ length space.old }
{
    for page in pages {
        space.give(*page);
    }
}
