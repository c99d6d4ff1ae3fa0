//! The changes that an insert makes in a work set: a record put in, a split, the raise of a root, pages taken.

ghost use Rattle.std.specs.Prelude.{◌≡◌, ◌<◌, ◌≤◌, ℕ, length, slice_index};
ghost use Rattle.ib_page.specs.declared.space.TheConstants.{MAPPED_PAGES};
ghost use Rattle.ib_page.specs.Work.{changed_of};
ghost use Rattle.ib_plans.specs.Insert.{AreFresh};
ghost use Rattle.ib_plans.specs.Moves.{HasMoved, Puts};
ghost use Rattle.ib_plans.specs.Agreement.{SetsBits, memory_in, Sets, tick, taken_bits, with_bits};
ghost use Rattle.ib_split.specs.Inserts.{with_record, CanPut, CanSplit, IsSplit, CanRaise, IsRaised, MayTakePages};

use crate::halves::{raise_images, split_images};
use ib_map::Key;
use ib_page::{Image, SpaceImage, WorkSet};
use ib_plans::{image_of, link_back};

// Puts a record into a page of the tree that has room for it.
pub(crate) fn put_record(work: &mut WorkSet, page: u32, key: Key, value: u64)
    requires { CanPut page key work.old }
    ensures set { Sets page (tick (with_record key value (memory_in work.old page))) work.old work.new }
    ensures put { HasMoved (Puts key) (changed_of page work.old) (changed_of page work.new) }
{
    let image = work.edit(page);
    // The page has room and the key is not there, so the call does not fail.
    let _ = image.insert(key, value);
    image.touch();
}

// Splits a full page, to which the record belongs: the upper half goes to the fresh page at its right, whose first
// key is answered.
pub(crate) fn split(work: &mut WorkSet, page: u32, fresh: u32, key: Key, value: u64) -> Key
    requires { CanSplit page fresh key work.old }
    ensures { IsSplit page fresh key value work.old result work.new }
{
    let clock = image_of(work, fresh).clock();
    let next = image_of(work, page).next();
    let mut right = Image::empty(image_of(work, page).level(), clock);
    let first = split_images(work.edit(page), &mut right, page, fresh, key, value);
    *work.edit(fresh) = right;
    if next != 0 {
        link_back(work, next, fresh);
    }
    first
}

// Raises a full root, to which the record belongs: its records go to two fresh pages below it, and it has a record for each.
pub(crate) fn raise(work: &mut WorkSet, root: u32, left: u32, right: u32, key: Key, value: u64)
    requires { CanRaise root left right key work.old }
    ensures { IsRaised root left right key value work.old work.new }
{
    let level = image_of(work, root).level();
    let mut low = Image::empty(level, image_of(work, left).clock());
    let mut high = Image::empty(level, image_of(work, right).clock());
    raise_images(
        work.edit(root),
        &mut low,
        &mut high,
        left,
        right,
        key,
        value,
    );
    *work.edit(left) = low;
    *work.edit(right) = high;
}

// Takes pages that are free.
pub(crate) fn take_pages(work: &mut WorkSet, pages: &[u32])
    requires { MayTakePages pages.now work.old }
    ensures { SetsBits 1 pages.now work.old work.new }
{
    let mut space = SpaceImage::from_image(image_of(work, 0));
    take_all(&mut space, pages);
    space.touch();
    *work.edit(0) = space.to_image();
}

// Sets the bits of pages that are free.
fn take_all(space: &mut SpaceImage, pages: &[u32])
    requires { AreFresh (taken_bits space.old) pages.now }
    ensures bits { (page : ℕ) → page < MAPPED_PAGES
        → taken_bits space.new page ≡ with_bits pages.now 1 (taken_bits space.old) page }
    ensures behind { (i : ℕ) → 64 ≤ i → slice_index space.new i ≡ slice_index space.old i }
    ensures size { length space.new ≡ length space.old }
{
    for page in pages {
        space.take(*page);
    }
}
