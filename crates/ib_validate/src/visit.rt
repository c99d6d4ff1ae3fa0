//! The visits of the written pages, height by height from the highest down: each is a good page where it is
//! met, and its children are met below it.

ghost use Rattle.std.specs.Prelude.{◌≡◌, ◌<◌, length, All};
ghost use Rattle.ib_map.specs.Keys.{end_rank};
ghost use Rattle.ib_walk.specs.Words.{memory_of};
ghost use Rattle.ib_validate.specs.PatchTest.{visit_at, visit_level, visit_levels, set_roots};
ghost use Rattle.ib_validate.specs.Positions.{is_good_at, marks_of, positions_of, IsStep};

use crate::attach::attach_children;
use crate::good::is_good;
use crate::pages::Pages;
use crate::position::{PagePosition, ROOT, is_marked, position_at};
use crate::reading;
use ib_map::Key;
use ib_page::MOST_LEVEL;

// A page, where it is met at this height: it must be good there, and its children are met.
fn visit_page(
    table: &mut [Option<PagePosition>],
    after: &Pages<'_>,
    old: &[Option<PagePosition>],
    written: &[bool],
    page: u32,
    height: u32,
) -> bool
    requires size { length table.old ≡ length old.now }
    requires marks { length written.now ≡ length old.now }
    requires images { length after.now ≡ length old.now }
    requires in_range { page < length old.now }
    ensures { IsStep (visit_at (marks_of written.now) (positions_of old.now) (memory_of after.now) (is_good_at (memory_of after.now)) height page (positions_of table.old page) (positions_of table.old)) result (positions_of table.new) }
{
    let Some(position) = position_at(table, page as usize) else {
        return true;
    };
    if position.height != height {
        return true;
    }
    let image = after.page(page as usize);
    if !is_good(&image, position) {
        return false;
    }
    height == 0 || attach_children(table, old, written, &image, position)
}

// Those of these pages that are met at this height.
fn visit_level(
    table: &mut [Option<PagePosition>],
    after: &Pages<'_>,
    old: &[Option<PagePosition>],
    written: &[bool],
    pages: &[u32],
    height: u32,
) -> bool
    requires size { length table.old ≡ length old.now }
    requires marks { length written.now ≡ length old.now }
    requires images { length after.now ≡ length old.now }
    requires in_range { All (λ p. p < length old.now) pages.now }
    ensures { IsStep (visit_level (marks_of written.now) (positions_of old.now) (memory_of after.now) (is_good_at (memory_of after.now)) height pages.now (positions_of table.old)) result (positions_of table.new) }
{
    for page in pages {
        if !visit_page(table, after, old, written, *page, height) {
            return false;
        }
    }
    true
}

/// Visits these pages at all heights, from the highest down. `table` has where each page is met, above all the
/// written roots, `old` where it was met before, and `written` marks the pages that may be met elsewhere than
/// before. False where a page is met twice, where one that is not written is met elsewhere, or where a page
/// is no leaf or node of its height and range (btr0btr, `btr_validate_level`).
pub fn visit_levels(
    table: &mut [Option<PagePosition>],
    after: &Pages<'_>,
    old: &[Option<PagePosition>],
    written: &[bool],
    pages: &[u32],
) -> bool
    requires size { length table.old ≡ length old.now }
    requires marks { length written.now ≡ length old.now }
    requires images { length after.now ≡ length old.now }
    requires in_range { All (λ p. p < length old.now) pages.now }
    ensures { IsStep (visit_levels (marks_of written.now) (positions_of old.now) (memory_of after.now) (is_good_at (memory_of after.now)) MOST_LEVEL pages.now (positions_of table.old)) result (positions_of table.new) }
{
    for done in 0..=MOST_LEVEL {
        if !visit_level(table, after, old, written, pages, MOST_LEVEL - done) {
            return false;
        }
    }
    true
}

// The root, where it is written, is met with all keys at the height of its new level.
pub(crate) fn visit_root(table: &mut [Option<PagePosition>], after: &Pages<'_>, written: &[bool])
    requires root { 1 < length table.old }
    requires images { length after.now ≡ length table.old }
    ensures { positions_of table.new ≡ set_roots (marks_of written.now) (memory_of after.now) end_rank 1 (positions_of table.old) }
{
    if is_marked(written, ROOT as usize) {
        table[ROOT as usize] = Some(PagePosition {
            tree: ROOT,
            height: reading::level(&after.page(ROOT as usize)),
            low: Key::least(),
            high: None,
        });
    }
}
