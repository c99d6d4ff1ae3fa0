//! Page 0: which pages of a space are taken (fsp0fsp).

ghost use Rattle.std.specs.Prelude.{◌≡◌, ◌+◌, ◌-◌, ◌<◌, ◌≤◌, ◌^◌, ℕ, true, false, nat_lt, length, slice_index, IsTrue, ◌↔◌, IsNone, IfSome};
ghost use Rattle.ib_page.specs.Opening.{opening_space_words};
ghost use Rattle.ib_page.specs.Space.{is_taken, space_clock_of, with_space_clock, free_below, zeros_below, SetsBit, IsSpacePage};

use crate::image::Image;
use ib_heap::are_zeros;
use ib_map::{MOST_PAGES, PAGE_WORDS};
use std::marker::Model;

/// The pages for which the space page has a bit, as an extent descriptor has one for each page of its extent (fsp0fsp).
pub const MAPPED_PAGES: u32 = 4096;

const _: () = prove!(MAPPED_PAGES == 4096);

// Each page that a space may have has its bit.
const _: () = prove!(MAPPED_PAGES == MOST_PAGES);

// The bits of a word, and the word of the clock, which stands behind the words of the bits.
const WORD_BITS: u32 = 64;

const CLOCK: usize = 64;

const _: () = prove!(MAPPED_PAGES as usize == WORD_BITS as usize * CLOCK);

// The bits of page 0 and of one root, and of two.
const FIRST_PAGES: u64 = 3;

const FIRST_PAGES_OF_TWO: u64 = 7;

/// An image of page 0: which pages are taken, and a modify clock (fsp0fsp).
#[derive(Clone, Copy, Drop)]
pub struct SpaceImage {
    words: [u64; PAGE_WORDS],
}

impl Model for SpaceImage {
    ghost use Rattle.std.specs.Prelude.{List, ℕ};

    ghost Value = { List ℕ };

    ghost view = { λ s. s.words };

    ghost inverse = { λ ws. record { words = ws } };
}

impl SpaceImage {
    /// The space page of a new space of so many pages, at least 2: pages 0 and 1 are taken (`fsp_header_init`).
    pub fn opening(pages: u32) -> SpaceImage
        requires { 2 ≤ pages }
        ensures taken { (page : ℕ) → page < MAPPED_PAGES → is_taken result page ≡ nat_lt page 2 }
        ensures clock { space_clock_of result ≡ 0 }
        ensures formed { IsSpacePage pages result }
        ensures words { result ≡ opening_space_words 1 }
    {
        SpaceImage {
            words: opening_page(),
        }
    }

    /// Whether this is the space page of a space of so many pages, at most `MAPPED_PAGES`: no page beyond the last one
    /// is taken, and all words behind the clock are 0.
    pub fn is_formed(&self, pages: u32) -> bool
        requires { pages ≤ MAPPED_PAGES }
        ensures { IsTrue result ↔ IsSpacePage pages self.now }
    {
        ends_with_zeros(&self.words)
            && self.free_count(MAPPED_PAGES) == self.free_count(pages) + (MAPPED_PAGES - pages)
    }

    /// The space page that these words are.
    pub fn from_image(image: &Image) -> SpaceImage
        ensures { result ≡ image.now }
    {
        SpaceImage {
            words: image.to_words(),
        }
    }

    /// The words of the space page.
    pub fn to_image(&self) -> Image
        ensures { result ≡ self.now }
    {
        Image::from_words(self.words)
    }

    /// Whether a page is taken (`xdes_get_bit`).
    pub fn is_taken(&self, page: u32) -> bool
        requires { page < MAPPED_PAGES }
        ensures { result ≡ is_taken self.now page }
    {
        bit(&self.words, page)
    }

    /// How many of the first `pages` pages are free.
    pub fn free_count(&self, pages: u32) -> u32
        requires { pages ≤ MAPPED_PAGES }
        ensures count { result ≡ free_below self.now pages }
        ensures in_range { result ≤ pages }
    {
        let whole = pages / WORD_BITS;
        let mut count = 0;
        for i in 0..whole {
            count += self.words[i as usize].count_zeros();
        }
        count + zeros_below(self.words[whole as usize], pages % WORD_BITS)
    }

    /// The lowest free one of the first `pages` pages. None exactly where none is free (`xdes_find_bit`).
    pub fn lowest_free(&self, pages: u32) -> Option<u32>
        requires { pages ≤ MAPPED_PAGES }
        ensures none { IsNone result ↔ ((page : ℕ) → page < pages → is_taken self.now page ≡ true) }
        ensures in_range { IfSome result (λ page. page < pages) }
        ensures free { IfSome result (λ page. is_taken self.now page ≡ false) }
        ensures lowest { IfSome result (λ page. (lower : ℕ) → lower < page → is_taken self.now lower ≡ true) }
    {
        for i in 0..pages.div_ceil(WORD_BITS) {
            let word = self.words[i as usize];
            if word != u64::MAX {
                let page = WORD_BITS * i + word.trailing_ones();
                return (page < pages).then_some(page);
            }
        }
        None
    }

    /// Takes a page that is free (`fsp_alloc_free_page`).
    pub fn take(&mut self, page: u32)
        requires in_range { page < MAPPED_PAGES }
        requires free { is_taken self.old page ≡ false }
        ensures { SetsBit self.old self.new page true }
    {
        self.words[(page / WORD_BITS) as usize] |= 1 << (page % WORD_BITS);
    }

    /// Gives a page back that is taken (`fsp_free_page`).
    pub fn give(&mut self, page: u32)
        requires in_range { page < MAPPED_PAGES }
        requires taken { is_taken self.old page ≡ true }
        ensures { SetsBit self.old self.new page false }
    {
        self.words[(page / WORD_BITS) as usize] &= !(1 << (page % WORD_BITS));
    }

    /// Adds 1 to the modify clock, which is below 2^63.
    pub fn touch(&mut self)
        requires { space_clock_of self.old < 2 ^ 63 }
        ensures touched { self.new ≡ with_space_clock (space_clock_of self.old + 1) self.old }
        ensures bits { (page : ℕ) → page < MAPPED_PAGES → is_taken self.new page ≡ is_taken self.old page }
    {
        self.words[CLOCK] += 1;
    }
}

// Whether all words behind the clock are 0.
fn ends_with_zeros(words: &[u64]) -> bool
    requires { length words.now ≡ PAGE_WORDS }
    ensures zeros { IsTrue result ↔ ((i : ℕ) → CLOCK < i → slice_index words.now i ≡ 0) }
    ensures size { length words.now ≡ PAGE_WORDS }
{
    are_zeros(&words[CLOCK + 1..])
}

// The words of the space page of a new space with one root.
fn opening_page() -> [u64; PAGE_WORDS]
    ensures { result ≡ opening_space_words 1 }
{
    let mut words = [0; PAGE_WORDS];
    words[0] = FIRST_PAGES;
    words
}

// The same as an image.
pub(crate) fn opening_image() -> Image
    ensures { result ≡ opening_space_words 1 }
{
    Image::from_words(opening_page())
}

// The bits of page 0 and of the roots.
fn first_pages(roots: u32) -> u64
    requires some { 0 < roots }
    requires few { roots ≤ 2 }
    ensures { result ≡ 2 ^ (roots + 1) - 1 }
{
    if roots == 1 {
        FIRST_PAGES
    } else {
        FIRST_PAGES_OF_TWO
    }
}

// A word of the space page of a new space with one root or two.
pub(crate) fn opening_word(roots: u32, index: usize) -> u64
    requires some { 0 < roots }
    requires few { roots ≤ 2 }
    requires index { index < PAGE_WORDS }
    ensures { result ≡ slice_index (opening_space_words roots) index }
{
    if index == 0 { first_pages(roots) } else { 0 }
}

// How many of the lowest bits of a word are 0.
fn zeros_below(word: u64, bits: u32) -> u32
    requires { bits < WORD_BITS }
    ensures count { result ≡ zeros_below bits word }
    ensures few { result ≤ bits }
{
    (!word & ((1 << bits) - 1)).count_ones()
}

// Whether the bit of a page is set.
fn bit(words: &[u64], page: u32) -> bool
    requires size { length words.now ≡ PAGE_WORDS }
    requires in_range { page < MAPPED_PAGES }
    ensures { result ≡ is_taken words.now page }
{
    (words[(page / WORD_BITS) as usize] >> (page % WORD_BITS)) & 1 == 1
}
