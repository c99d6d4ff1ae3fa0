//! The pages of a new space, whole and by the word (`fsp_header_init`, `btr_create`).

ghost use Rattle.std.specs.Prelude.{◌≡◌, ◌<◌, ◌≤◌, slice_index};
ghost use Rattle.ib_page.specs.Opening.{opening_words};

use crate::image::Image;
use crate::space;
use ib_map::PAGE_WORDS;

/// A page of a new space with one root: page 0 is the space page, page 1 an empty leaf, and every other page is free.
pub fn opening_image(page: u32) -> Image
    ensures { result ≡ opening_words 1 page }
{
    match page {
        0 => space::opening_image(),
        1 => Image::leaf(0),
        _ => Image::free(0),
    }
}

/// A word of a page of a new space with one root or two, by its index, below `PAGE_WORDS`: page 0 is the space page, each
/// root an empty leaf, and every other page is free.
pub fn opening_word(roots: u32, page: u32, index: usize) -> u64
    requires some { 0 < roots }
    requires few { roots ≤ 2 }
    requires index { index < PAGE_WORDS }
    ensures { result ≡ slice_index (opening_words roots page) index }
{
    if page == 0 {
        return space::opening_word(roots, index);
    }
    if page <= roots {
        return ib_heap::empty_leaf_word(0, index);
    }
    0
}
