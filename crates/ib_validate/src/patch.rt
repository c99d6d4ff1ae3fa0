//! The visits of a patch, old and new: whether the written pages make one tree with all others, each page met
//! once and those that are not written where they were (btr0btr, `btr_validate_index`).

ghost use Rattle.std.specs.Prelude.{◌≡◌, ◌<◌, ◌≤◌, ◌↔◌, length, ℕ, All, IsTrue, false};
ghost use Rattle.ib_map.specs.Keys.{end_rank};
ghost use Rattle.ib_page.specs.Memory.{image_at};
ghost use Rattle.ib_walk.specs.Words.{memory_of};
ghost use Rattle.ib_validate.specs.PatchTest.{Positions, all_back, visited};
ghost use Rattle.ib_validate.specs.TreeMemory.{IsTreeMemory, IsTreePatch, PassesAtAll};
ghost use Rattle.ib_validate.specs.Positions.{is_good_at, marks_of, positions_of, AreVisits};

use crate::back::are_pages_back;
use crate::bits::keeps_space;
use crate::content::are_sliced;
use crate::detach::detach_pages;
use crate::page_test::all_pass;
use crate::pages::Pages;
use crate::position::PagePosition;
use crate::visit::{visit_levels, visit_root};
use ib_map::{Key, LEAST_PAGES, MOST_PAGES, PAGE_WORDS};
use ib_sorted_map::SortedMap;

// Visits the pages that a patch writes. `table` has where each page is met before the patch, as `old` does, and
// then where it is met after it. False where a page is met twice, or is no page of its height and range, or
// where one that is not written is met elsewhere than before.
fn visit_patch(
    table: &mut [Option<PagePosition>],
    before: &Pages<'_>,
    after: &Pages<'_>,
    old: &[Option<PagePosition>],
    written: &[bool],
    pages: &[u32],
) -> bool
    requires same { positions_of table.old ≡ positions_of old.now }
    requires size { length table.old ≡ length old.now }
    requires root { 1 < length old.now }
    requires marks { length written.now ≡ length old.now }
    requires before { length before.now ≡ length old.now }
    requires after { length after.now ≡ length old.now }
    requires in_range { All (λ p. p < length old.now) pages.now }
    ensures visits { AreVisits (visited (marks_of written.now) (memory_of before.now) (memory_of after.now) (is_good_at (memory_of after.now)) end_rank 1 pages.now (positions_of old.now))
        (all_back (marks_of written.now) (memory_of before.now) (positions_of old.now) pages.now) result (positions_of table.new) }
    ensures rest { IsTrue result → (page : ℕ) → marks_of written.now page ≡ false → positions_of table.new page ≡ positions_of old.now page }
{
    detach_pages(table, before, old, pages);
    visit_root(table, after, written);
    visit_levels(table, after, old, written, pages)
        && are_pages_back(table, before, old, written, pages)
}

// Whether the written pages pass what is asked of them where they are met, beside the visits.
fn passes_at_all(
    before: &Pages<'_>,
    after: &Pages<'_>,
    table: &[Option<PagePosition>],
    written: &[bool],
    pages: &[u32],
    key: Key,
    map: &SortedMap,
) -> bool
    requires some { LEAST_PAGES ≤ length table.now }
    requires few { length table.now ≤ MOST_PAGES }
    requires marks { length written.now ≡ length table.now }
    requires before { length before.now ≡ length table.now }
    requires after { length after.now ≡ length table.now }
    requires in_range { All (λ p. p < length table.now) pages.now }
    ensures passes { IsTrue result ↔ PassesAtAll before.now after.now (positions_of table.now) written.now pages.now key map.now }
    ensures before { length (image_at before.now 0) ≡ PAGE_WORDS }
    ensures after { length (image_at after.now 0) ≡ PAGE_WORDS }
{
    keeps_space(before, after, written)
        && all_pass(after, table, pages)
        && are_sliced(after, table, key, map, pages)
}

// Whether the pages after an entry make one tree that has what the map has, where those before it did. `table` has
// where each page is met before the entry, as `old` does, and then where it is met after it.
pub(crate) fn leaves_tree(
    table: &mut [Option<PagePosition>],
    before: &Pages<'_>,
    after: &Pages<'_>,
    old: &[Option<PagePosition>],
    written: &[bool],
    pages: &[u32],
    key: Key,
    map: &SortedMap,
) -> bool
    requires memory { IsTreeMemory (record { before = before.now; after = after.now; met_before = old.now; met_after = table.old; written = written.now; pages = pages.now }) }
    requires same { positions_of table.old ≡ positions_of old.now }
    ensures sound { IsTrue result → IsTreePatch (record { before = before.now; after = after.now; met_before = old.now; met_after = table.old; written = written.now; pages = pages.now }) (positions_of table.new) key map.now }
    ensures complete { (met : Positions) → IsTreePatch (record { before = before.now; after = after.now; met_before = old.now; met_after = table.old; written = written.now; pages = pages.now }) met key map.now → IsTrue result }
    ensures rest { IsTrue result → (page : ℕ) → marks_of written.now page ≡ false → positions_of table.new page ≡ positions_of old.now page }
{
    visit_patch(table, before, after, old, written, pages)
        && passes_at_all(before, after, table, written, pages, key, map)
}
