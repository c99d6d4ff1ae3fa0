//! What every form of a page has: its limits, and the words of a free page.

ghost use Rattle.std.specs.Prelude.{◌≡◌, length, All, IsTrue, ◌↔◌};
ghost use Rattle.ib_heap.specs.Words.{free_page_words, clock_in};
ghost use Rattle.ib_heap.specs.Page.{HasLimits};

use crate::MOST_LEVEL;
use ib_map::PAGE_WORDS;

/// The word of the modify clock.
pub const CLOCK: usize = 5;

/// The words of a free page with this modify clock: all others are 0.
pub fn free_page(clock: u64) -> [u64; PAGE_WORDS]
    ensures { result ≡ free_page_words clock }
{
    let mut words = [0; PAGE_WORDS];
    words[CLOCK] = clock;
    words
}

/// Whether the words are those of a free page.
pub fn is_free(words: &[u64]) -> bool
    requires { length words.now ≡ PAGE_WORDS }
    ensures { IsTrue result ↔ (words.now ≡ free_page_words (clock_in words.now)) }
{
    are_zeros(&words[..CLOCK]) && are_zeros(&words[CLOCK + 1..])
}

/// Whether level and links are within their limits.
pub fn has_limits(level: u64, prev: u64, next: u64) -> bool
    ensures { IsTrue result ↔ HasLimits level prev next }
{
    level <= MOST_LEVEL as u64
        && prev <= u32::MAX as u64
        && next <= u32::MAX as u64
        && (level == 0 || prev == 0 && next == 0)
}

/// Whether all these words are 0.
pub fn are_zeros(words: &[u64]) -> bool
    ensures { IsTrue result ↔ All (λ word. word ≡ 0) words.now }
{
    words.iter().all(|word| *word == 0)
}
