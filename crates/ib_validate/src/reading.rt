//! What an image says of its page, whatever its words are: one that cannot be read has level 0, no
//! links and no records.

ghost use Rattle.std.specs.Prelude.{◌≡◌, ◌<◌, ◌≤◌, length, ◌↔◌, IsTrue, slice_get, Some};
ghost use Rattle.ib_page.specs.Form.{page_of};
ghost use Rattle.ib_page.specs.Image.{IsTreePage, IsFormed};
ghost use Rattle.ib_walk.specs.Pages.{Free, IsSound};
ghost use Rattle.ib_walk.specs.Words.{state_of};
ghost use Rattle.ib_validate.specs.Positions.{is_tree_page};

use crate::pages::Page;
use ib_map::{Key, PAGE_WORDS};
use ib_page::{Kind, MOST_LEVEL, MOST_RECORDS};

// Whether the words can be read. They are all words of a page, whatever they are.
fn is_formed(page: &Page<'_>) -> bool
    ensures formed { IsTrue result ↔ IsFormed page.now }
    ensures size { length page.now ≡ PAGE_WORDS }
{
    // For the proof: an image has all words of a page.
    let _image = page.image();
    page.is_formed()
}

// Whether the page is one of a tree.
pub(crate) fn is_tree(page: &Page<'_>) -> bool
    ensures kind { result ≡ is_tree_page (state_of (page_of page.now)).kind }
    ensures tree { IsTrue result → IsTreePage page.now }
    ensures size { length page.now ≡ PAGE_WORDS }
{
    is_formed(page) && page.image().kind() != Kind::Free
}

/// The level of the page.
pub fn level(page: &Page<'_>) -> u32
    ensures level { result ≡ (state_of (page_of page.now)).level }
    ensures low { result ≤ MOST_LEVEL }
    ensures size { length page.now ≡ PAGE_WORDS }
{
    if is_formed(page) {
        page.image().level()
    } else {
        0
    }
}

// The leaf before the page, 0 for none.
pub(crate) fn prev(page: &Page<'_>) -> u32
    ensures prev { result ≡ (state_of (page_of page.now)).prev }
    ensures size { length page.now ≡ PAGE_WORDS }
{
    if is_formed(page) {
        page.image().prev()
    } else {
        0
    }
}

/// The leaf behind the page, 0 for none.
pub fn next(page: &Page<'_>) -> u32
    ensures next { result ≡ (state_of (page_of page.now)).next }
    ensures size { length page.now ≡ PAGE_WORDS }
{
    if is_formed(page) {
        page.image().next()
    } else {
        0
    }
}

/// How many records the page has.
pub fn count(page: &Page<'_>) -> usize
    ensures count { result ≡ length (state_of (page_of page.now)).records }
    ensures few { result ≤ MOST_RECORDS }
    ensures tree { 0 < result → IsTreePage page.now }
    ensures size { length page.now ≡ PAGE_WORDS }
{
    if is_formed(page) {
        page.image().len()
    } else {
        0
    }
}

/// A record of the page, by its place in the order of keys.
pub fn record_at(page: &Page<'_>, place: usize) -> (Key, u64)
    requires tree { IsTreePage page.now }
    requires in_range { place < length (state_of (page_of page.now)).records }
    ensures { slice_get (state_of (page_of page.now)).records place ≡ Some result }
{
    page.image().record_at(place)
}

// Whether the page is free.
pub(crate) fn is_free(page: &Page<'_>) -> bool
    ensures free { IsTrue result ↔ ((state_of (page_of page.now)).kind ≡ Free) }
    ensures size { length page.now ≡ PAGE_WORDS }
{
    is_formed(page) && page.image().kind() == Kind::Free
}

// Whether the page is free, or one of a tree within its limits: what can be read is.
pub(crate) fn is_sound(page: &Page<'_>) -> bool
    ensures sound { IsTrue result ↔ IsSound MOST_RECORDS (state_of (page_of page.now)) }
    ensures size { length page.now ≡ PAGE_WORDS }
{
    is_formed(page)
}
