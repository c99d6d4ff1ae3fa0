//! Whether the old children of the written pages are met again: a page that is not written stays where it was.

ghost use Rattle.std.specs.Prelude.{◌≡◌, ◌<◌, length, All, ◌&&◌, ◌||◌, not};
ghost use Rattle.ib_page.specs.Form.{page_of};
ghost use Rattle.ib_walk.specs.Walk.{children_of};
ghost use Rattle.ib_walk.specs.Words.{state_of, memory_of};
ghost use Rattle.ib_validate.specs.PatchTest.{all_back, are_back, back_at, is_none};
ghost use Rattle.ib_validate.specs.Positions.{end_of, marks_of, positions_of};

use crate::children::child_at;
use crate::pages::{Page, Pages};
use crate::position::{PagePosition, is_marked, is_met, position_at};
use crate::reading;
use ib_map::{Key, PAGE_WORDS};

// Whether a page is written or met.
fn is_back(table: &[Option<PagePosition>], written: &[bool], page: usize) -> bool
    ensures { result ≡ (marks_of written.now page || not (is_none (positions_of table.now page))) }
{
    is_marked(written, page) || is_met(table, page)
}

// Whether each child of a node is.
fn are_children_back(
    table: &[Option<PagePosition>],
    written: &[bool],
    node: &Page<'_>,
    high: Option<Key>,
) -> bool
    ensures back { result ≡ are_back (marks_of written.now) (children_of (state_of (page_of node.now)).records (end_of high)) (positions_of table.now) }
    ensures size { length node.now ≡ PAGE_WORDS }
{
    let count = reading::count(node);
    for place in 0..count {
        let child = child_at(node, count, place, high);
        if !is_back(table, written, child.page as usize) {
            return false;
        }
    }
    true
}

// Whether each child is that a page had, where it was met.
fn is_page_back(
    table: &[Option<PagePosition>],
    before: &Pages<'_>,
    old: &[Option<PagePosition>],
    written: &[bool],
    page: u32,
) -> bool
    requires images { length before.now ≡ length old.now }
    requires in_range { page < length old.now }
    ensures { result ≡ back_at (marks_of written.now) (memory_of before.now) page (positions_of old.now page) (positions_of table.now) }
{
    let Some(position) = position_at(old, page as usize) else {
        return true;
    };
    position.height == 0
        || are_children_back(table, written, &before.page(page as usize), position.high)
}

// Whether each child is that these pages had.
pub(crate) fn are_pages_back(
    table: &[Option<PagePosition>],
    before: &Pages<'_>,
    old: &[Option<PagePosition>],
    written: &[bool],
    pages: &[u32],
) -> bool
    requires images { length before.now ≡ length old.now }
    requires in_range { All (λ p. p < length old.now) pages.now }
    ensures { result ≡ all_back (marks_of written.now) (memory_of before.now) (positions_of old.now) pages.now (positions_of table.now) }
{
    for page in pages {
        if !is_page_back(table, before, old, written, *page) {
            return false;
        }
    }
    true
}
