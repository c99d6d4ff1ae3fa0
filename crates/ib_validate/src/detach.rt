//! The old children of the written pages are met no more, until they are met again.

ghost use Rattle.std.specs.Prelude.{◌≡◌, ◌<◌, length, All};
ghost use Rattle.ib_page.specs.Form.{page_of};
ghost use Rattle.ib_walk.specs.Walk.{children_of};
ghost use Rattle.ib_walk.specs.Words.{state_of, memory_of};
ghost use Rattle.ib_validate.specs.PatchTest.{detach, detach_at, detach_pages};
ghost use Rattle.ib_validate.specs.Positions.{end_of, positions_of};

use crate::children::child_at;
use crate::pages::{Page, Pages};
use crate::position::{PagePosition, position_at};
use crate::reading;
use ib_map::{Key, PAGE_WORDS};

// The children of a node are met no more.
fn detach_children(table: &mut [Option<PagePosition>], node: &Page<'_>, high: Option<Key>)
    ensures table { positions_of table.new ≡ detach (children_of (state_of (page_of node.now)).records (end_of high)) (positions_of table.old) }
    ensures size { length node.now ≡ PAGE_WORDS }
{
    let count = reading::count(node);
    for place in 0..count {
        let page = child_at(node, count, place, high).page as usize;
        if page < table.len() {
            table[page] = None;
        }
    }
}

// The children that a page had, where it was met, are met no more.
fn detach_page(
    table: &mut [Option<PagePosition>],
    before: &Pages<'_>,
    old: &[Option<PagePosition>],
    page: u32,
)
    requires size { length before.now ≡ length old.now }
    requires in_range { page < length old.now }
    ensures { positions_of table.new ≡ detach_at (memory_of before.now) page (positions_of old.now page) (positions_of table.old) }
{
    if let Some(position) = position_at(old, page as usize) {
        if position.height > 0 {
            detach_children(table, &before.page(page as usize), position.high);
        }
    }
}

// The children that these pages had are met no more.
pub(crate) fn detach_pages(
    table: &mut [Option<PagePosition>],
    before: &Pages<'_>,
    old: &[Option<PagePosition>],
    pages: &[u32],
)
    requires size { length before.now ≡ length old.now }
    requires in_range { All (λ p. p < length old.now) pages.now }
    ensures { positions_of table.new ≡ detach_pages (memory_of before.now) (positions_of old.now) pages.now (positions_of table.old) }
{
    for page in pages {
        detach_page(table, before, old, *page);
    }
}
