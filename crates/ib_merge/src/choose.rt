//! Which two pages a delete merges (`btr_compress`: the left sibling before the right one).

ghost use Rattle.std.specs.Prelude.{◌≡◌, ◌<◌, ◌≤◌, ◌+◌, ◌-◌, None, slice_get, IsSomeAnd, length};
ghost use Rattle.ib_map.specs.Keys.{rank};
ghost use Rattle.ib_heap.specs.declared.TheConstants.{MOST_RECORDS};
ghost use Rattle.ib_page.specs.Image.{IsTreePage, records_of};
ghost use Rattle.ib_page.specs.Work.{changed_of};
ghost use Rattle.ib_plans.specs.Merge.{siblings_of, fit_one};
ghost use Rattle.ib_plans.specs.Agreement.{memory_in};
ghost use Rattle.ib_merge.specs.Deletes.{CanChoose, merger_of};

use crate::edits::Merger;
use ib_map::Key;
use ib_page::{Image, MOST_RECORDS, WorkSet};
use ib_plans::image_of;

/// A node's record of the child to which a key belongs, and those beside it.
#[derive(Clone, Copy, Debug)]
pub struct Beside {
    pub left: Option<(Key, u64)>,
    pub here: (Key, u64),
    pub right: Option<(Key, u64)>,
}

// Which two pages are merged where the key's child under a node has few records: the left sibling and the child where both
// fit one page, else the child and the right sibling where both do, else none.
pub(crate) fn choose_merger(work: &WorkSet, parent: u32, key: Key) -> Option<Merger>
    requires { CanChoose parent key work.now }
    ensures { result ≡ merger_of (memory_in work.now) (siblings_of key (memory_in work.now parent).records) }
{
    let Beside { left, here, right } = records_beside(image_of(work, parent), key);
    let child = here.1 as u32;
    if let Some((_, sibling)) = left {
        let sibling = sibling as u32;
        if fit(work, sibling, child) {
            return Some(Merger {
                left: sibling,
                gone: (here.0, child),
                beside: sibling,
            });
        }
    }
    if let Some((first, sibling)) = right {
        let sibling = sibling as u32;
        if fit(work, child, sibling) {
            return Some(Merger {
                left: child,
                gone: (first, sibling),
                beside: sibling,
            });
        }
    }
    None
}

// Whether the records of two pages fit one.
fn fit(work: &WorkSet, a: u32, b: u32) -> bool
    requires a_there { IsSomeAnd (changed_of a work.now) IsTreePage }
    requires b_there { IsSomeAnd (changed_of b work.now) IsTreePage }
    ensures { result ≡ fit_one (memory_in work.now) a b }
{
    image_of(work, a).len() + image_of(work, b).len() <= MOST_RECORDS
}

/// The records of a node that are for the key's child and beside it: those whose pages a planned delete
/// reads. The node's first key is not above the key.
pub fn records_beside(image: &Image, key: Key) -> Beside
    requires tree { IsTreePage image.now }
    requires first { IsSomeAnd (slice_get (records_of image.now) 0) (λ r. rank r.0 ≤ rank key) }
    ensures { siblings_of key (records_of image.now) ≡ record { left = result.left; here = result.here; right = result.right } }
{
    let place = image.route(key);
    Beside {
        left: record_before(image, place),
        here: image.record_at(place),
        right: record_if(image, place + 1),
    }
}

// The record before a place, where there is one.
fn record_before(image: &Image, place: usize) -> Option<(Key, u64)>
    requires tree { IsTreePage image.now }
    requires in_range { place < length (records_of image.now) }
    ensures none { place ≡ 0 → result ≡ None }
    ensures some { 0 < place → slice_get (records_of image.now) (place - 1) ≡ result }
{
    if place == 0 {
        None
    } else {
        Some(image.record_at(place - 1))
    }
}

// The record at a place, where there is one.
fn record_if(image: &Image, place: usize) -> Option<(Key, u64)>
    requires { IsTreePage image.now }
    ensures { slice_get (records_of image.now) place ≡ result }
{
    if place < image.len() {
        Some(image.record_at(place))
    } else {
        None
    }
}
