//! The law of places, stated of the places of any space.

ghost use Rattle.std.specs.Prelude.{◌≡◌, ◌+◌, ◌<◌, ℕ};
ghost use Rattle.ib_layout.specs.Geometry.{Sizes};
ghost use Rattle.ib_layout.specs.Places.{drawn_place, end_place, lock_place, latches_of, page_place, log_place, words_of};

use crate::geometry::LATCH_WORDS;
use ib_map::PAGE_WORDS;

/// The law of places, as a contract: no two words of a space have one place, and each lies within
/// the table. The words of latches are those at a lock place and the four places behind it.
pub fn place_law()
    // The words of latches, of pages and of the log, each among themselves.
    ensures latches { (latch other i j : ℕ) → i < LATCH_WORDS → j < LATCH_WORDS
        → lock_place latch + i ≡ lock_place other + j → (latch ≡ other) × (i ≡ j) }
    ensures pages { (sizes : Sizes) (page other i j : ℕ) → i < PAGE_WORDS → j < PAGE_WORDS
        → page_place sizes page i ≡ page_place sizes other j → (page ≡ other) × (i ≡ j) }
    ensures log { (sizes : Sizes) (word other : ℕ)
        → log_place sizes word ≡ log_place sizes other → word ≡ other }
    // The first two words, at the places 0 and 1, the latches, the pages, the log: they stand in
    // this order.
    ensures drawn { drawn_place ≡ 0 }
    ensures end { end_place ≡ 1 }
    ensures latches_behind_first { (latch i : ℕ) → end_place < lock_place latch + i }
    ensures pages_behind_latches { (sizes : Sizes) (latch i page index : ℕ)
        → latch < latches_of sizes → i < LATCH_WORDS → lock_place latch + i < page_place sizes page index }
    ensures log_behind_pages { (sizes : Sizes) (page index word : ℕ)
        → page < sizes.pages → index < PAGE_WORDS
        → page_place sizes page index < log_place sizes word }
    // Each lies within the table.
    ensures latch_in_range { (sizes : Sizes) (latch i : ℕ) → latch < latches_of sizes → i < LATCH_WORDS
        → lock_place latch + i < words_of sizes }
    ensures page_in_range { (sizes : Sizes) (page index : ℕ) → page < sizes.pages
        → index < PAGE_WORDS → page_place sizes page index < words_of sizes }
    ensures log_in_range { (sizes : Sizes) (word : ℕ) → word < sizes.log_words
        → log_place sizes word < words_of sizes }
{}
