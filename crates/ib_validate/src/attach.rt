//! The new children of the written pages are met: each once, and one that is not written where it was.

ghost use Rattle.std.specs.Prelude.{◌≡◌, ◌<◌, ◌-◌, length, IsTrue, ◌&&◌, ◌||◌};
ghost use Rattle.ib_page.specs.Form.{page_of};
ghost use Rattle.ib_walk.specs.Walk.{children_of};
ghost use Rattle.ib_walk.specs.Words.{state_of};
ghost use Rattle.ib_validate.specs.PatchTest.{attach, is_none, same_position};
ghost use Rattle.ib_validate.specs.Positions.{end_of, marks_of, position_if, position_in, positions_of, IsStep};

use crate::children::child_at;
use crate::pages::Page;
use crate::position::{PagePosition, is_marked, is_met, position_at};
use crate::reading;
use ib_map::PAGE_WORDS;

// Whether a page was met at this position.
fn was_at(old: Option<PagePosition>, position: PagePosition) -> bool
    ensures { result ≡ same_position (position_if old) (position_in position) }
{
    match old {
        None => false,
        Some(there) => there.is_same(position),
    }
}

// Whether a page may be met here: it is not met yet, and it is written or was met here before.
fn may_attach(
    table: &[Option<PagePosition>],
    old: &[Option<PagePosition>],
    written: &[bool],
    page: usize,
    position: PagePosition,
) -> bool
    requires size { length table.now ≡ length old.now }
    requires marks { length written.now ≡ length old.now }
    ensures may { result ≡ (is_none (positions_of table.now page) && (marks_of written.now page || same_position (positions_of old.now page) (position_in position))) }
    ensures in_range { IsTrue result → page < length table.now }
{
    !is_met(table, page) && (is_marked(written, page) || was_at(position_at(old, page), position))
}

// The children of a node that is met here are met, from left to right, unless one of them may not be.
pub(crate) fn attach_children(
    table: &mut [Option<PagePosition>],
    old: &[Option<PagePosition>],
    written: &[bool],
    node: &Page<'_>,
    at: PagePosition,
) -> bool
    requires size { length table.old ≡ length old.now }
    requires marks { length written.now ≡ length old.now }
    requires node { 0 < at.height }
    ensures table { IsStep (attach (marks_of written.now) (positions_of old.now) at.tree (at.height - 1) (children_of (state_of (page_of node.now)).records (end_of at.high)) (positions_of table.old)) result (positions_of table.new) }
    ensures size { length node.now ≡ PAGE_WORDS }
{
    let count = reading::count(node);
    for place in 0..count {
        let child = child_at(node, count, place, at.high);
        let page = child.page as usize;
        let position = PagePosition {
            tree: at.tree,
            height: at.height - 1,
            low: child.low,
            high: child.high,
        };
        if !may_attach(table, old, written, page, position) {
            return false;
        }
        table[page] = Some(position);
    }
    true
}
