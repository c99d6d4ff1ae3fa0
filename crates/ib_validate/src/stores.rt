//! Words stored in the images of pages.

ghost use Rattle.std.specs.Prelude.{◌≡◌, ◌*◌, ◌<◌, ℕ, All, false, length};
ghost use Rattle.ib_map.specs.declared.TheConstants.{PAGE_WORDS};
ghost use Rattle.ib_map.specs.Writes.{stored, touches};
ghost use Rattle.ib_page.specs.Memory.{image_at, word_at};

use ib_map::Write;
use ib_page::Image;

// Stores the writes, in order. A page that is not written stays as it is.
pub(crate) fn store_words(images: &mut [Image], writes: &[Write])
    requires { All (λ w. w.place < length images.old * PAGE_WORDS) writes.now }
    ensures words { (place : ℕ) → place < length images.old * PAGE_WORDS → word_at images.new place ≡ stored writes.now place (word_at images.old place) }
    ensures others { (page : ℕ) → touches page writes.now ≡ false → image_at images.new page ≡ image_at images.old page }
{
    for write in writes {
        let image = &mut images[write.page() as usize];
        image.set_word(write.index(), write.value);
    }
}
