//! The sizes of a space, and the places of its words in the table.

ghost use Rattle.std.specs.Prelude.{◌≡◌, ◌<◌, ◌^◌, ◌↔◌, ◌&&◌, true, false, IfOk, IsOk};
ghost use Rattle.ib_map.specs.Space.{has_pages};
ghost use Rattle.ib_layout.specs.Geometry.{has_log};
ghost use Rattle.ib_layout.specs.Places.{lock_place, waiters_place, writer_place, gen_place, ex_gen_place, latches_of, page_place, log_place, words_of};

use ib_levels::Latch;
use ib_map::{LEAST_PAGES, MOST_PAGES, PAGE_WORDS};
use std::marker::Model;
use thiserror::Error;

/// The fewest words that a log has: the longest entry has no more.
pub const LEAST_LOG_WORDS: u32 = 8196;

const _: () = prove!(LEAST_LOG_WORDS == 8196);

/// The most words that a log has.
pub const MOST_LOG_WORDS: u32 = 16_777_216;

const _: () = prove!(MOST_LOG_WORDS == 16_777_216);

// Each page of a space has its latch.
const _: () = prove!(MOST_PAGES == ib_levels::MOST_PAGES);

/// The place of the number of sessions drawn.
pub const DRAWN_PLACE: usize = 0;

/// The place of the log's end: `entries * 2^32 + used log words`.
pub const END_PLACE: usize = 1;

// Where the words of the latches begin, and how many each has.
const LATCHES: usize = 2;

pub(crate) const LATCH_WORDS: usize = 5;

/// Why there is no space of these sizes.
#[derive(Clone, Copy, Debug, PartialEq, Eq, Error)]
pub enum LayoutFault {
    /// Not `LEAST_PAGES` to `MOST_PAGES` pages.
    #[error("{given} pages")]
    BadPages { given: u32 },
    /// Not `LEAST_LOG_WORDS` to `MOST_LOG_WORDS` log words.
    #[error("{given} log words")]
    BadLog { given: u32 },
}

/// The sizes of a space: its pages, and the words of its log.
#[derive(Clone, Copy, Debug, PartialEq, Eq)]
pub struct Geometry {
    pages: u32,
    log_words: u32,
}

impl Model for Geometry {
    ghost use Rattle.std.specs.Prelude.{◌≡◌, true};
    ghost use Rattle.ib_map.specs.Space.{has_pages};
    ghost use Rattle.ib_layout.specs.Geometry.{Sizes, has_log, sizes_code};

    ghost Value = { Sizes };

    ghost coded = { sizes_code };

    ghost view = { λ g. record { pages = g.pages; log_words = g.log_words } };

    ghost invariant = { λ g. (has_pages g.pages ≡ true) × (has_log g.log_words ≡ true) };

    ghost inverse = { λ s. record { pages = s.pages; log_words = s.log_words } };
}

impl Geometry {
    /// Refused as `BadPages` exactly where the pages are out of range, and then as `BadLog` exactly where the log words are.
    pub fn new(pages: u32, log_words: u32) -> Result<Geometry, LayoutFault>
        ensures sizes { IfOk result (λ g. g ≡ record { pages = pages; log_words = log_words }) }
        ensures ok { IsOk result ↔ (has_pages pages && has_log log_words ≡ true) }
        ensures bad_pages { (result ≡ Err (LayoutFault.BadPages pages)) ↔ (has_pages pages ≡ false) }
        ensures bad_log { (result ≡ Err (LayoutFault.BadLog log_words)) ↔ ((has_pages pages ≡ true) × (has_log log_words ≡ false)) }
    {
        if !(LEAST_PAGES..=MOST_PAGES).contains(&pages) {
            return Err(LayoutFault::BadPages { given: pages });
        }
        if !(LEAST_LOG_WORDS..=MOST_LOG_WORDS).contains(&log_words) {
            return Err(LayoutFault::BadLog { given: log_words });
        }
        Ok(Geometry { pages, log_words })
    }

    /// How many pages the space has, `LEAST_PAGES` to `MOST_PAGES`.
    pub fn pages(&self) -> u32
        ensures pages { result ≡ self.now.pages }
        ensures in_range { has_pages result ≡ true }
    {
        self.pages
    }

    /// How many words its log has, `LEAST_LOG_WORDS` to `MOST_LOG_WORDS`.
    pub fn log_words(&self) -> u32
        ensures words { result ≡ self.now.log_words }
        ensures in_range { has_log result ≡ true }
    {
        self.log_words
    }

    /// The place of a latch's lock word in the table of words. The latch is one of this space.
    pub fn lock_place(&self, l: Latch) -> usize
        requires { l.0 < latches_of self.now }
        ensures place { result ≡ lock_place l.0 }
        ensures in_range { result < words_of self.now }
    {
        LATCHES + LATCH_WORDS * l.0 as usize
    }

    /// The place of its waiters flag.
    pub fn waiters_place(&self, l: Latch) -> usize
        requires { l.0 < latches_of self.now }
        ensures place { result ≡ waiters_place l.0 }
        ensures in_range { result < words_of self.now }
    {
        self.lock_place(l) + 1
    }

    /// The place of the number of the session that last took it in SX or X.
    pub fn writer_place(&self, l: Latch) -> usize
        requires { l.0 < latches_of self.now }
        ensures place { result ≡ writer_place l.0 }
        ensures in_range { result < words_of self.now }
    {
        self.lock_place(l) + 2
    }

    /// The place of its generation, which each signal to sleepers raises.
    pub fn gen_place(&self, l: Latch) -> usize
        requires { l.0 < latches_of self.now }
        ensures place { result ≡ gen_place l.0 }
        ensures in_range { result < words_of self.now }
    {
        self.lock_place(l) + 3
    }

    /// The place of its ex generation, which each signal to a next writer raises.
    pub fn ex_gen_place(&self, l: Latch) -> usize
        requires { l.0 < latches_of self.now }
        ensures place { result ≡ ex_gen_place l.0 }
        ensures in_range { result < words_of self.now }
    {
        self.lock_place(l) + 4
    }

    /// The place of a word of a page.
    pub fn page_place(&self, page: u32, index: u32) -> usize
        requires page { page < self.now.pages }
        requires index { index < PAGE_WORDS }
        ensures place { result ≡ page_place self.now page index }
        ensures in_range { result < words_of self.now }
    {
        self.pages_place() + PAGE_WORDS * page as usize + index as usize
    }

    /// The place of a word of the log.
    pub fn log_place(&self, word: u32) -> usize
        requires { word < self.now.log_words }
        ensures place { result ≡ log_place self.now word }
        ensures in_range { result < words_of self.now }
    {
        self.pages_place() + PAGE_WORDS * self.pages as usize + word as usize
    }

    /// How many words the table has.
    pub fn words(&self) -> usize
        ensures words { result ≡ words_of self.now }
    {
        self.pages_place() + PAGE_WORDS * self.pages as usize + self.log_words as usize
    }

    // Where the words of the pages begin.
    fn pages_place(&self) -> usize
        ensures place { result ≡ page_place self.now 0 0 }
        ensures in_range { result < 2 ^ 16 }
    {
        LATCHES + LATCH_WORDS * (self.pages as usize + 2)
    }

    /// The largest space.
    pub fn largest() -> Geometry
        ensures pages { result.pages ≡ MOST_PAGES }
        ensures words { result.log_words ≡ MOST_LOG_WORDS }
    {
        Geometry {
            pages: MOST_PAGES,
            log_words: MOST_LOG_WORDS,
        }
    }
}
