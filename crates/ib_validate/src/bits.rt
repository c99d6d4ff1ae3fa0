//! The bits of page 0: a page that is not written keeps its own (fsp0fsp).

ghost use Rattle.std.specs.Prelude.{◌≡◌, ◌<◌, ◌≤◌, ◌↔◌, ℕ, length, IsTrue};
ghost use Rattle.ib_page.specs.Memory.{image_at};
ghost use Rattle.ib_validate.specs.Bits.{KeepsBit, KeepsSpace, KeepsWord};

use crate::pages::Pages;
use crate::position::is_marked;
use ib_map::{LEAST_PAGES, MOST_PAGES, PAGE_WORDS};
use ib_page::{Image, MAPPED_PAGES, SpaceImage};

// The words of the bits, and the bits of a word.
const BIT_WORDS: usize = 64;

const WORD_BITS: usize = 64;

/// The image of page 0, which has all words of a page.
pub fn space_page<'a>(pages: &Pages<'a>) -> &'a Image
    requires { 0 < length pages.now }
    ensures image { result.now ≡ image_at pages.now 0 }
    ensures size { length result.now ≡ PAGE_WORDS }
{
    pages.page(0).image()
}

// Whether a page that is there and not written keeps its bit.
fn keeps_bit(before: &SpaceImage, after: &SpaceImage, written: &[bool], page: usize) -> bool
    requires { page < MAPPED_PAGES }
    ensures { IsTrue result ↔ KeepsBit before.now after.now written.now page }
{
    is_marked(written, page)
        || page >= written.len()
        || after.is_taken(page as u32) == before.is_taken(page as u32)
}

// Whether each page does that has its bit in this word.
fn keeps_word(before: &SpaceImage, after: &SpaceImage, written: &[bool], word: usize) -> bool
    requires { word < BIT_WORDS }
    ensures { IsTrue result ↔ KeepsWord before.now after.now written.now word }
{
    for bit in 0..WORD_BITS {
        if !keeps_bit(before, after, written, WORD_BITS * word + bit) {
            return false;
        }
    }
    true
}

// Whether each page does. It looks at the bits of those words alone that differ.
fn keeps_bits(before: &Image, after: &Image, written: &[bool]) -> bool
    requires { length written.now ≤ MAPPED_PAGES }
    ensures { IsTrue result ↔ ((page : ℕ) → KeepsBit before.now after.now written.now page) }
{
    let old = SpaceImage::from_image(before);
    let new = SpaceImage::from_image(after);
    for word in 0..BIT_WORDS {
        if before.word(word) != after.word(word) && !keeps_word(&old, &new, written, word) {
            return false;
        }
    }
    true
}

// Whether page 0, where it is written, is the space page of the space, at which pages that are not written keep
// their bits.
pub(crate) fn keeps_space(before: &Pages<'_>, after: &Pages<'_>, written: &[bool]) -> bool
    requires before { length before.now ≡ length written.now }
    requires after { length after.now ≡ length written.now }
    requires some { LEAST_PAGES ≤ length written.now }
    requires few { length written.now ≤ MOST_PAGES }
    ensures space { IsTrue result ↔ KeepsSpace before.now after.now written.now }
    ensures before { length (image_at before.now 0) ≡ PAGE_WORDS }
    ensures after { length (image_at after.now 0) ≡ PAGE_WORDS }
{
    let old = space_page(before);
    let new = space_page(after);
    !is_marked(written, 0)
        || SpaceImage::from_image(new).is_formed(after.len() as u32)
            && keeps_bits(old, new, written)
}
