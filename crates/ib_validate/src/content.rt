//! Whether each written leaf has what the map has in its range, and the leaf of the changed key is one of them.

ghost use Rattle.std.specs.Prelude.{◌≡◌, ◌<◌, ◌≤◌, ◌↔◌, length, IsTrue, All, Some, slice_get};
ghost use Rattle.std.specs.List.{Any};
ghost use Rattle.ib_map.specs.Keys.{rank};
ghost use Rattle.ib_map.specs.Pairs.{Pairs};
ghost use Rattle.ib_page.specs.Form.{page_of};
ghost use Rattle.ib_page.specs.Image.{IsTreePage};
ghost use Rattle.ib_walk.specs.Words.{state_of, memory_of};
ghost use Rattle.ib_validate.specs.Contents.{HasItsContent, IsLeafOf, pairs_inside};
ghost use Rattle.ib_validate.specs.Patch.{slice, IsSliced};
ghost use Rattle.ib_validate.specs.PatchTest.{fresh_of};
ghost use Rattle.ib_validate.specs.Positions.{end_of, positions_of};

use crate::pages::{Page, Pages};
use crate::position::{PagePosition, ROOT, is_inside, position_at};
use crate::reading;
use ib_map::{Key, PAGE_WORDS, is_below, is_same};
use ib_sorted_map::{Between, SortedMap};

// Whether a pair is the record at a place of a page, which has `count` records.
fn is_record_at(image: &Page<'_>, count: usize, place: usize, pair: (Key, u64)) -> bool
    requires count { count ≡ length (state_of (page_of image.now)).records }
    requires tree { 0 < count → IsTreePage image.now }
    ensures { IsTrue result ↔ (slice_get (state_of (page_of image.now)).records place ≡ Some pair) }
{
    if place >= count {
        return false;
    }
    let (key, value) = reading::record_at(image, place);
    is_same(key, pair.0) && value == pair.1
}

// Whether a page has the pairs that lie inside of a range, and no others.
fn has_pairs(image: &Page<'_>, pairs: Between<'_>, high: Option<Key>) -> bool
    ensures same { IsTrue result ↔ ((state_of (page_of image.now)).records ≡ pairs_inside (end_of high) pairs.entry) }
    ensures size { length image.now ≡ PAGE_WORDS }
{
    let count = reading::count(image);
    let mut place = 0;
    for pair in pairs {
        if is_inside(pair.0, high) {
            if !is_record_at(image, count, place, pair) {
                return false;
            }
            place += 1;
        }
    }
    place == count
}

// Whether a page has what the map has in this range.
fn has_content(image: &Page<'_>, map: &SortedMap, low: Key, high: Option<Key>) -> bool
    ensures same { IsTrue result ↔ ((state_of (page_of image.now)).records ≡ slice map.now (rank low) (end_of high)) }
    ensures size { length image.now ≡ PAGE_WORDS }
{
    has_pairs(image, map.range(low, high.unwrap_or(Key::greatest())), high)
}

// Whether a page is met as a leaf of the tree.
fn is_leaf(at: PagePosition) -> bool
    ensures { IsTrue result ↔ ((at.tree ≡ 1) × (at.height ≡ 0)) }
{
    at.tree == ROOT && at.height == 0
}

// Whether a page, where it is met as a leaf, has what the map has in its range.
fn has_its_content(
    after: &Pages<'_>,
    table: &[Option<PagePosition>],
    map: &SortedMap,
    page: u32,
) -> bool
    requires size { length after.now ≡ length table.now }
    requires in_range { page < length table.now }
    ensures { IsTrue result ↔ HasItsContent (memory_of after.now) map.now page (positions_of table.now page) }
{
    match position_at(table, page as usize) {
        Some(at) if is_leaf(at) => has_content(&after.page(page as usize), map, at.low, at.high),
        _ => true,
    }
}

// Whether each of these pages has.
fn have_content(
    after: &Pages<'_>,
    table: &[Option<PagePosition>],
    map: &SortedMap,
    pages: &[u32],
) -> bool
    requires size { length after.now ≡ length table.now }
    requires in_range { All (λ p. p < length table.now) pages.now }
    ensures { IsTrue result ↔ All (λ p. HasItsContent (memory_of after.now) map.now p (positions_of table.now p)) pages.now }
{
    pages
        .iter()
        .all(|page| has_its_content(after, table, map, *page))
}

// Whether a page is met as a leaf, with this key in its range.
fn is_leaf_of(table: &[Option<PagePosition>], key: Key, page: u32) -> bool
    ensures { IsTrue result ↔ IsLeafOf (rank key) (positions_of table.now page) }
{
    match position_at(table, page as usize) {
        Some(at) if is_leaf(at) => !is_below(key, at.low) && is_inside(key, at.high),
        _ => false,
    }
}

// Whether one of these pages is.
fn have_leaf_of(table: &[Option<PagePosition>], key: Key, pages: &[u32]) -> bool
    ensures { IsTrue result ↔ Any (λ p. IsLeafOf (rank key) (positions_of table.now p)) pages.now }
{
    pages.iter().any(|page| is_leaf_of(table, key, *page))
}

// Whether each of these pages that is met as a leaf has what the map has in its range, and one of them is the
// leaf of this key.
pub(crate) fn are_sliced(
    after: &Pages<'_>,
    table: &[Option<PagePosition>],
    key: Key,
    map: &SortedMap,
    pages: &[u32],
) -> bool
    requires size { length after.now ≡ length table.now }
    requires in_range { All (λ p. p < length table.now) pages.now }
    ensures { IsTrue result ↔ IsSliced (memory_of after.now) (fresh_of pages.now (positions_of table.now) 1) map.now key }
{
    have_content(after, table, map, pages) && have_leaf_of(table, key, pages)
}
