//! The writes of a tail, applied to each page from the place on at which the page was read.

ghost use Rattle.std.specs.Prelude.{◌≡◌, ◌*◌, ◌<◌, ◌∷◌, [], ℕ, All, length};
ghost use Rattle.ib_map.specs.declared.TheConstants.{PAGE_WORDS};
ghost use Rattle.ib_page.specs.Memory.{word_at};
ghost use Rattle.ib_logrec.specs.Law.{AreInGrammar};
ghost use Rattle.ib_image.specs.Applied.{IsApplied, start_of, stored_from};

use ib_logrec::Entry;
use ib_map::Write;
use ib_page::Image;

// Stores a write of the tail's entry of this number, unless its page begins behind that entry.
fn put_word(images: &mut [Image], starts: &[u32], count: usize, write: Write)
    requires size { length starts.now ≡ length images.old }
    requires inside { write.place < length images.old * PAGE_WORDS }
    ensures size { length images.new ≡ length images.old }
    ensures words { (place : ℕ) → place < length images.old * PAGE_WORDS → word_at images.new place
        ≡ stored_from (start_of starts.now place) count (write ∷ []) place (word_at images.old place) }
{
    let page = write.page() as usize;
    if count < starts[page] as usize {
        return;
    }
    let image = &mut images[page];
    image.set_word(write.index(), write.value);
}

// Stores the writes of the tail's entry of this number.
fn put_entry(images: &mut [Image], starts: &[u32], count: usize, writes: &[Write])
    requires size { length starts.now ≡ length images.old }
    requires inside { All (λ w. w.place < length images.old * PAGE_WORDS) writes.now }
    ensures size { length images.new ≡ length images.old }
    ensures words { (place : ℕ) → place < length images.old * PAGE_WORDS → word_at images.new place
        ≡ stored_from (start_of starts.now place) count writes.now place (word_at images.old place) }
{
    for write in writes {
        put_word(images, starts, count, *write);
    }
}

// Applies the entries of a tail to the images of all pages, to each from the entry on that its start names.
pub(crate) fn put_tail(images: &mut [Image], starts: &[u32], tail: &[Entry])
    requires size { length starts.now ≡ length images.old }
    requires grammar { AreInGrammar (length images.old) tail.now }
    ensures { IsApplied images.old starts.now tail.now images.new }
{
    for (count, entry) in tail.iter().enumerate() {
        put_entry(images, starts, count, entry.writes.as_slice());
    }
}
