//! An image as a source of its words.

ghost use Rattle.std.specs.Prelude.{◌≡◌, refl};
ghost use Rattle.std.proofs.Common.{◌∙◌};

use crate::Image;
use ib_heap::PageWords;

impl PageWords for Image {
    ghost words = { λ image. image };

    ghost can_read = { λ _. Unit {0} };

    ghost has_read = { λ first second. second ≡ first };

    fn word(&mut self, index: usize) -> u64 {
        Image::word(self, index)
    }

    ghost read_none = { λ _. refl };

    ghost read_more = { λ _ _ _ one two. two ∙ one };
}
