//! The children of a node: each with the range from its record's key up to the next one's.

ghost use Rattle.std.specs.Prelude.{◌≡◌, ◌<◌, ◌+◌, drop, length, slice_get, Some};
ghost use Rattle.ib_map.specs.Pairs.{first_rank};
ghost use Rattle.ib_page.specs.Form.{page_of};
ghost use Rattle.ib_page.specs.Image.{IsTreePage};
ghost use Rattle.ib_walk.specs.Walk.{children_of};
ghost use Rattle.ib_walk.specs.Words.{state_of};
ghost use Rattle.ib_validate.specs.Children.{visit_of_child};
ghost use Rattle.ib_validate.specs.Positions.{end_of};

use crate::pages::Page;
use crate::reading;
use ib_map::Key;

// A child of a node: its page, and where its keys begin and end.
#[derive(Clone, Copy)]
pub(crate) struct Child {
    pub page: u64,
    pub low: Key,
    pub high: Option<Key>,
}

// A child of a node with `count` records whose keys are below `high`, by its place.
pub(crate) fn child_at(node: &Page<'_>, count: usize, place: usize, high: Option<Key>) -> Child
    requires tree { IsTreePage node.now }
    requires count { count ≡ length (state_of (page_of node.now)).records }
    requires in_range { place < length (state_of (page_of node.now)).records }
    ensures { slice_get (children_of (state_of (page_of node.now)).records (end_of high)) place ≡ Some (visit_of_child result) }
{
    let (low, page) = reading::record_at(node, place);
    Child {
        page,
        low,
        high: end_of_child(node, count, place, high),
    }
}

// Where the keys of a child end: at the next child's, or with the node's.
fn end_of_child(node: &Page<'_>, count: usize, place: usize, high: Option<Key>) -> Option<Key>
    requires tree { IsTreePage node.now }
    requires count { count ≡ length (state_of (page_of node.now)).records }
    requires in_range { place < length (state_of (page_of node.now)).records }
    ensures { end_of result ≡ first_rank (drop (place + 1) (state_of (page_of node.now)).records) (end_of high) }
{
    if place + 1 < count {
        Some(reading::record_at(node, place + 1).0)
    } else {
        high
    }
}
