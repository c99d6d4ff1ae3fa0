//! A source of the words of a page, wherever the page lies.

ghost use Rattle.std.specs.Prelude.{◌≡◌, ◌<◌, length, slice_index, refl};
ghost use Rattle.std.proofs.Common.{◌∙◌};
ghost use Rattle.ib_map.specs.declared.TheConstants.{PAGE_WORDS};

use ib_map::PAGE_WORDS;

/// A page whose words are read one by one, where they lie: in an image, or in a table that is shared,
/// under the page's latch. A search in it loads the words that it asks for, and no others.
pub trait PageWords {
    ghost use Rattle.std.specs.Prelude.{ℕ, List};

    // the words of the page
    ghost words: { Self → List ℕ };

    // a word may be read
    ghost can_read: { Self → Type 0 };

    // what has become of the source by reads
    ghost has_read: { Self → Self → Type 0 };

    /// A word of the page.
    fn word(&mut self, index: usize) -> u64
        requires can { can_read self.old }
        requires index { index < PAGE_WORDS }
        ensures word { result ≡ slice_index (words self.old) index }
        ensures same { words self.new ≡ words self.old }
        ensures can { can_read self.new }
        ensures read { has_read self.old self.new };

    // no read leaves it as it is, and further reads leave what reads leave
    ghost read_none: { (page : Self) → has_read page page };

    ghost read_more: { (first second third : Self) → has_read first second
        → has_read second third → has_read first third };
}

impl<'a> PageWords for &'a [u64] {
    ghost words = { λ page. page.now };

    ghost can_read = { λ page. length page.now ≡ PAGE_WORDS };

    ghost has_read = { λ first second. second ≡ first };

    fn word(&mut self, index: usize) -> u64 {
        self[index]
    }

    ghost read_none = { λ _. refl };

    ghost read_more = { λ _ _ _ one two. two ∙ one };
}
