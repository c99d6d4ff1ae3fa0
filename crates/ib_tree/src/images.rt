//! The images of the pages of a space, which are had one by one.

ghost use Rattle.std.specs.Prelude.{◌≡◌};

use ib_page::Image;
use std::marker::Model;

/// The images of the pages of a space, of which each is had when it is asked for: of a list, or of words that lie elsewhere.
/// Contracts see the list of them.
pub trait Images {
    ghost use Rattle.std.specs.Prelude.{◌≡◌, ◌<◌, ℕ, List, length};
    ghost use Rattle.ib_page.specs.Memory.{image_at};

    // the images, one a page
    ghost images: { Self → List (List ℕ) };

    /// How many pages there are.
    fn len(&self) -> usize
        ensures { result ≡ length (images self.now) };

    /// The image of a page, by its number.
    fn image(&self, page: u32) -> Image
        requires { page < length (images self.now) }
        ensures { result ≡ image_at (images self.now) page };
}

/// A list of images, one a page.
#[derive(Drop)]
pub struct ImageList<'a> {
    images: &'a [Image],
}

impl<'a> Model for ImageList<'a> {
    ghost use Rattle.std.specs.Prelude.{ℕ, List};

    ghost Value = { List (List ℕ) };

    ghost view = { λ l. l.images.now };
}

impl<'a> ImageList<'a> {
    /// These images.
    pub fn new(images: &'a [Image]) -> ImageList<'a>
        ensures { result ≡ images.now }
    {
        ImageList { images }
    }
}

impl<'a> Images for ImageList<'a> {
    ghost images = { λ l. l };

    fn len(&self) -> usize {
        self.images.len()
    }

    fn image(&self, page: u32) -> Image {
        self.images[page as usize]
    }
}
