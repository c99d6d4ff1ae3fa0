//! Where a page is met: under its root, at its height, with the range of its keys.

ghost use Rattle.std.specs.Prelude.{◌≡◌, ◌<◌, ◌≤◌, ◌↔◌, IsTrue, false, length, not};
ghost use Rattle.ib_map.specs.Keys.{rank, end_rank};
ghost use Rattle.ib_validate.specs.PatchTest.{is_none};
ghost use Rattle.ib_validate.specs.Positions.{end_of, marks_of, position_if, position_in, positions_of};

use ib_map::{Key, is_below, is_same};

// The page of the root.
pub(crate) const ROOT: u32 = 1;

/// Where a page is met: in the tree of a root, at a height, 0 for a leaf, with the keys from `low` on and
/// below `high`, or all from `low` on.
#[derive(Clone, Copy, Debug)]
pub struct PagePosition {
    pub tree: u32,
    pub height: u32,
    pub low: Key,
    pub high: Option<Key>,
}

impl PagePosition {
    // Whether both are the same.
    pub(crate) fn is_same(self, other: PagePosition) -> bool
        ensures { IsTrue result ↔ (position_in self ≡ position_in other) }
    {
        self.tree == other.tree
            && self.height == other.height
            && is_same(self.low, other.low)
            && is_same_end(self.high, other.high)
    }
}

// Whether two ranges end at the same key.
pub(crate) fn is_same_end(a: Option<Key>, b: Option<Key>) -> bool
    ensures { IsTrue result ↔ (end_of a ≡ end_of b) }
{
    match (a, b) {
        (Some(x), Some(y)) => is_same(x, y),
        (Some(x), None) | (None, Some(x)) => is_end(x),
        (None, None) => true,
    }
}

// Whether a key stands at the end of all keys. None does.
fn is_end(key: Key) -> bool
    ensures never { result ≡ false }
    ensures below { rank key < end_rank }
{
    !is_same(key, key)
}

// Whether a key stands below the end of a range.
pub(crate) fn is_inside(key: Key, high: Option<Key>) -> bool
    ensures { IsTrue result ↔ (rank key < end_of high) }
{
    match high {
        Some(end) => is_below(key, end),
        None => !is_end(key),
    }
}

// Whether a range begins at its end or before.
pub(crate) fn begins_up_to(low: Key, high: Option<Key>) -> bool
    ensures { IsTrue result ↔ (rank low ≤ end_of high) }
{
    match high {
        Some(end) => !is_below(end, low),
        None => !is_end(low),
    }
}

// Where a page is met. None for a page that is not there.
pub(crate) fn position_at(table: &[Option<PagePosition>], page: usize) -> Option<PagePosition>
    ensures { position_if result ≡ positions_of table.now page }
{
    if page < table.len() {
        table[page]
    } else {
        None
    }
}

// Whether a page is met.
pub(crate) fn is_met(table: &[Option<PagePosition>], page: usize) -> bool
    ensures { result ≡ not (is_none (positions_of table.now page)) }
{
    position_at(table, page).is_some()
}

// Whether a page has a mark.
pub(crate) fn is_marked(marks: &[bool], page: usize) -> bool
    ensures marked { result ≡ marks_of marks.now page }
    ensures in_range { IsTrue result → page < length marks.now }
{
    page < marks.len() && marks[page]
}
