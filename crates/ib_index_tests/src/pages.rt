//! The pages of a space that was closed, compared with pages that are made record by record.

ghost use Rattle.std.specs.Prelude.{◌≡◌, ◌<◌};

use ib_index::{Index, SharedSpace};
use ib_map::{Key, PAGE_WORDS};
use ib_page::{Image, SpaceImage};
use ib_rule::Closed;
use std::alloc::Global;
use std::process::Abort;

// The index is closed: no pass is out.
pub(crate) fn close(rt: &impl Abort, alloc: Global, index: Index) -> Closed
    ensures { result.sizes ≡ index.sizes }
{
    assert_eq!(rt; index.connected(), 0);
    match index.close(alloc) {
        Ok(closed) => closed,
        Err(refused) => {
            refused.index.discard();
            rt.abort()
        }
    }
}

// A leaf with these links and the keys from `low` to `high`, each with a value equal to it.
pub(crate) fn leaf(
    rt: &impl Abort,
    clock: u64,
    prev: u32,
    next: u32,
    low: u64,
    high: u64,
) -> Image {
    let mut page = Image::leaf(clock);
    page.set_links(prev, next);
    for key in low..=high {
        page.insert(Key::of_number(key), key)
            .expect(rt, "there is room");
    }
    page
}

// A node of level 1 with these records.
pub(crate) fn node(rt: &impl Abort, clock: u64, records: &[(Key, u64)]) -> Image {
    let mut page = Image::empty(1, clock);
    for (key, child) in records {
        page.insert(*key, *child).expect(rt, "there is room");
    }
    page
}

// Word by word the page is as expected.
pub(crate) fn check_page(rt: &impl Abort, closed: &Closed, page: u32, expected: &Image)
    requires { page < closed.now.sizes.pages }
{
    let found = closed.page(page);
    for i in 0..PAGE_WORDS {
        assert_eq!(rt; found.word(i), expected.word(i));
    }
}

// How many of the first 16 pages are free.
pub(crate) fn free_pages(closed: &Closed) -> u32
    requires { 0 < closed.now.sizes.pages }
{
    SpaceImage::from_image(&closed.page(0)).free_count(16)
}
