//! The images of the pages of a space, each tested once and not at each reading: whether it can be read stands beside it.

ghost use Rattle.std.specs.Prelude.{◌≡◌, ◌<◌, ◌↔◌, length, IsTrue};
ghost use Rattle.ib_map.specs.declared.TheConstants.{PAGE_WORDS};
ghost use Rattle.ib_page.specs.Image.{IsFormed};
ghost use Rattle.ib_page.specs.Memory.{image_at};
ghost use Rattle.ib_validate.specs.Forms.{AreForms};

use ib_page::Image;
use std::marker::Model;

/// An image of a page, which was tested. Contracts see its words.
#[derive(Drop)]
pub struct Page<'a> {
    image: &'a Image,
    is_formed: bool,
}

impl<'a> Model for Page<'a> {
    ghost use Rattle.std.specs.Prelude.{ℕ, List, IsTrue, ◌↔◌};
    ghost use Rattle.ib_page.specs.Image.{IsFormed};

    ghost Value = { List ℕ };

    ghost view = { λ p. p.image.now };

    ghost invariant = { λ p. IsTrue p.is_formed ↔ IsFormed p.image.now };
}

impl<'a> Page<'a> {
    /// This image, which is tested now.
    pub fn test(image: &'a Image) -> Page<'a>
        ensures { result ≡ image.now }
    {
        Page {
            image,
            is_formed: image.is_formed(),
        }
    }

    /// The image.
    pub fn image(&self) -> &'a Image
        ensures image { result.now ≡ self.now }
        ensures size { length self.now ≡ PAGE_WORDS }
    {
        // For the proof: an image has all words of a page.
        let _first = self.image.word(0);
        self.image
    }

    /// Whether the words can be read: they are those of a page of the tree, or of a free page.
    pub fn is_formed(&self) -> bool
        ensures { IsTrue result ↔ IsFormed self.now }
    {
        self.is_formed
    }
}

/// The images of the pages of a space, by number, which were tested. Contracts see the words of each.
#[derive(Drop)]
pub struct Pages<'a> {
    images: &'a [Image],
    forms: &'a [bool],
}

impl<'a> Model for Pages<'a> {
    ghost use Rattle.std.specs.Prelude.{ℕ, List};
    ghost use Rattle.ib_validate.specs.Forms.{AreForms};

    ghost Value = { List (List ℕ) };

    ghost view = { λ p. p.images.now };

    ghost invariant = { λ p. AreForms p.images.now p.forms.now };
}

impl<'a> Pages<'a> {
    /// These images, of which `forms` says for each whether it can be read.
    pub fn new(images: &'a [Image], forms: &'a [bool]) -> Pages<'a>
        requires { AreForms images.now forms.now }
        ensures { result ≡ images.now }
    {
        Pages { images, forms }
    }

    /// How many pages there are.
    pub fn len(&self) -> usize
        ensures { result ≡ length self.now }
    {
        self.images.len()
    }

    /// A page by its number.
    pub fn page(&self, page: usize) -> Page<'a>
        requires { page < length self.now }
        ensures { result ≡ image_at self.now page }
    {
        let images = self.images;
        let forms = self.forms;
        Page {
            image: &images[page],
            is_formed: forms[page],
        }
    }
}
