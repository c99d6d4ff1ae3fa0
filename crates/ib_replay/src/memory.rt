//! The images of all pages of a space.

ghost use Rattle.std.specs.Prelude.{◌≡◌};

use ib_page::Image;
use std::marker::Model;

/// The pages of a space: an image for each, by number.
#[derive(Drop)]
pub struct Memory {
    images: Vec<Image>,
}

impl Model for Memory {
    ghost use Rattle.std.specs.Prelude.{ℕ, List};

    ghost Value = { List (List ℕ) };

    ghost view = { λ m. m.images.items };
}

impl Memory {
    /// The images, by page.
    pub fn images(&self) -> &[Image]
        ensures { result.now ≡ self.now }
    {
        &self.images
    }

    /// These images. It takes no memory.
    pub fn from_images(images: Vec<Image>) -> Memory
        ensures { result ≡ images.items }
    {
        Memory { images }
    }

    /// The images again. It takes no memory.
    pub fn into_images(self) -> Vec<Image>
        ensures { result.items ≡ self }
    {
        let Memory { images } = self;
        images
    }
}
