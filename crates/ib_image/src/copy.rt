//! What a fuzzy copy has: for each page an image, and the place of the log at which it was read.

ghost use Rattle.std.specs.Prelude.{◌≡◌, ◌<◌, length, true, IfOk};
ghost use Rattle.ib_map.specs.Space.{has_pages};
ghost use Rattle.ib_image.specs.Copies.{page_in};

use ib_map::OutOfMemory;
use ib_page::Image;
use std::alloc::Global;
use std::marker::Model;

/// A page of a copy.
#[derive(Drop)]
pub struct CopiedPage {
    /// The words of the page.
    pub image: Image,
    /// How many entries of the log the image is behind.
    pub place: u32,
}

/// A fuzzy copy of a space: an image and a place for each page. It is made once for a space, and `copy_all` fills it
/// as often as wanted. Until then its images, places and tail say nothing.
///
/// ```
/// let mut copy = FuzzyCopy::with_room(alloc, geometry.pages())?;
/// copy_all(rt, index.latches(), &mut pass, &mut copy);
/// let first = copy.place(0);
/// ```
#[derive(Drop)]
pub struct FuzzyCopy {
    pub(crate) pages: Vec<CopiedPage>,
    pub(crate) tail_word: u32,
}

impl Model for FuzzyCopy {
    ghost use Rattle.std.specs.Prelude.{◌≡◌, length, true};
    ghost use Rattle.ib_map.specs.Space.{has_pages};
    ghost use Rattle.ib_image.specs.Copies.{CopyState};

    ghost Value = { CopyState };

    ghost view = { λ c. record { pages = c.pages.items; tail_word = c.tail_word } };

    // Its pages are as many as a space may have.
    ghost invariant = { λ c. has_pages (length c.pages.items) ≡ true };
}

impl FuzzyCopy {
    /// Room for a copy of a space of so many pages. Refused where memory lacks.
    pub fn with_room(alloc: Global, pages: u32) -> Result<FuzzyCopy, OutOfMemory>
        requires { has_pages pages ≡ true }
        ensures { IfOk result (λ copy. length copy.pages ≡ pages) }
    {
        let mut list = Vec::with_capacity(alloc, pages as usize)?;
        for _ in 0..pages {
            list.push(CopiedPage {
                image: Image::free(0),
                place: 0,
            })?;
        }
        Ok(FuzzyCopy {
            pages: list,
            tail_word: 0,
        })
    }

    /// The image of a page.
    pub fn image(&self, page: u32) -> &Image
        requires { page < length self.now.pages }
        ensures { result.now ≡ (page_in self.now.pages page).image }
    {
        &self.pages[page as usize].image
    }

    /// How many entries of the log a page's image is behind.
    pub fn place(&self, page: u32) -> u32
        requires { page < length self.now.pages }
        ensures { result ≡ (page_in self.now.pages page).place }
    {
        self.pages[page as usize].place
    }

    /// How many words of the log stand before the place of page 0: the tail of the copy begins with the next one.
    pub fn tail_word(&self) -> u32
        ensures { result ≡ self.now.tail_word }
    {
        self.tail_word
    }
}
