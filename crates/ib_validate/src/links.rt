//! Whether a leaf's links name the leaves whose ranges touch its own, and theirs name it (btr0btr,
//! `btr_validate_level`).

ghost use Rattle.std.specs.Prelude.{◌≡◌, ◌<◌, ◌↔◌, length, IsTrue};
ghost use Rattle.ib_map.specs.Keys.{end_rank};
ghost use Rattle.ib_walk.specs.Words.{memory_of};
ghost use Rattle.ib_validate.specs.PageTests.{IsLeafBefore, IsLeafBehind, IsLinkedLeft, IsLinkedRight};
ghost use Rattle.ib_validate.specs.PatchTest.{IsLinkedBy};
ghost use Rattle.ib_validate.specs.Positions.{position_in, positions_of};

use crate::pages::Pages;
use crate::position::{PagePosition, is_same_end, position_at};
use crate::reading;
use ib_map::{Key, is_same};

// Whether a leaf ends where another one begins.
fn is_leaf_before(left: PagePosition, at: PagePosition) -> bool
    ensures { IsTrue result ↔ IsLeafBefore (position_in left) (position_in at) }
{
    left.tree == at.tree && left.height == 0 && is_same_end(left.high, Some(at.low))
}

// Whether a leaf begins where another one ends.
fn is_leaf_behind(right: PagePosition, at: PagePosition) -> bool
    ensures { IsTrue result ↔ IsLeafBehind (position_in right) (position_in at) }
{
    right.tree == at.tree && right.height == 0 && is_same_end(Some(right.low), at.high)
}

// Whether a leaf is linked with the one before it, or is the first one and has no such link.
fn is_linked_left(
    after: &Pages<'_>,
    table: &[Option<PagePosition>],
    page: u32,
    at: PagePosition,
) -> bool
    requires size { length after.now ≡ length table.now }
    requires in_range { page < length table.now }
    ensures { IsTrue result ↔ IsLinkedLeft (memory_of after.now) (positions_of table.now) page (position_in at) }
{
    let prev = reading::prev(&after.page(page as usize));
    if is_same(at.low, Key::least()) {
        return prev == 0;
    }
    let Some(left) = position_at(table, prev as usize) else {
        return false;
    };
    is_leaf_before(left, at) && reading::next(&after.page(prev as usize)) == page
}

// Whether a leaf is linked with the one behind it, or is the last one and has no such link.
fn is_linked_right(
    after: &Pages<'_>,
    table: &[Option<PagePosition>],
    page: u32,
    at: PagePosition,
) -> bool
    requires size { length after.now ≡ length table.now }
    requires in_range { page < length table.now }
    ensures { IsTrue result ↔ IsLinkedRight (memory_of after.now) end_rank (positions_of table.now) page (position_in at) }
{
    let next = reading::next(&after.page(page as usize));
    if is_same_end(at.high, None) {
        return next == 0;
    }
    let Some(right) = position_at(table, next as usize) else {
        return false;
    };
    is_leaf_behind(right, at) && reading::prev(&after.page(next as usize)) == page
}

// Whether a leaf is linked with both neighbours, and they with it.
pub(crate) fn is_linked(
    after: &Pages<'_>,
    table: &[Option<PagePosition>],
    page: u32,
    at: PagePosition,
) -> bool
    requires size { length after.now ≡ length table.now }
    requires in_range { page < length table.now }
    ensures { IsTrue result ↔ IsLinkedBy (memory_of after.now) end_rank (positions_of table.now) page (position_in at) }
{
    is_linked_left(after, table, page, at) && is_linked_right(after, table, page, at)
}
