//! The laws of pages and of work sets, as contracts.

ghost use Rattle.std.specs.Prelude.{◌≡◌, ◌≢◌, ◌↔◌, ℕ, ◌+◌, ◌*◌, ◌<◌, ◌≤◌, List, All, false, nat_lt, Some, None, slice_index};
ghost use Rattle.std.specs.List.{Any, Contains};
ghost use Rattle.ib_map.specs.Writes.{PlacesRise, stored, touches, word_place};
ghost use Rattle.ib_heap.specs.Laws.{FormLaw};
ghost use Rattle.ib_heap.specs.Words.{free_page_words};
ghost use Rattle.ib_heap.specs.Form.{empty_leaf_words};
ghost use Rattle.ib_page.specs.Space.{IsSpacePage, is_taken};
ghost use Rattle.ib_page.specs.Opening.{opening_words};
ghost use Rattle.ib_page.specs.Work.{WorkPage, PagesAscend, changed_of, before_of};
ghost use Rattle.ib_page.specs.Writes.{word_in, writes_of};

use crate::space::MAPPED_PAGES;
use crate::work::MOST_WORK_PAGES;
use ib_map::PAGE_WORDS;

/// The law of pages, as a contract: what an image holds as a page of the tree is within the limits and its
/// records ascend, an image of a page is whole, and the pages of a new space are formed.
pub fn page_law()
    ensures form { FormLaw }
    // Page 0 of a new space is its space page, each root an empty leaf, and every other page is free.
    ensures opening_space { (pages roots : ℕ) → 0 < roots → roots ≤ 2 → roots < pages → IsSpacePage pages (opening_words roots 0) }
    ensures opening_taken { (roots page : ℕ) → 0 < roots → roots ≤ 2 → page < MAPPED_PAGES
        → is_taken (opening_words roots 0) page ≡ nat_lt page (roots + 1) }
    ensures opening_leaf { (roots page : ℕ) → 0 < page → page ≤ roots → opening_words roots page ≡ empty_leaf_words 0 }
    ensures opening_free { (roots page : ℕ) → roots < page → opening_words roots page ≡ free_page_words 0 }
{}

/// The law of a work set, as a contract over the lists of its pages: what stands of a page, and that the
/// words that differ, in order, are the writes that turn the images as read into the changed ones.
pub fn work_law()
    ensures pages { MOST_WORK_PAGES ≡ 32 }
    // A page's images are those that stand beside it in the list.
    ensures changed { (pages : List WorkPage) (page : ℕ) (image : List ℕ) → PagesAscend 0 pages
        → (changed_of page pages ≡ Some image) ↔ Any (λ p. (p.page ≡ page) × (p.changed ≡ image)) pages }
    ensures before { (pages : List WorkPage) (page : ℕ) (image : List ℕ) → PagesAscend 0 pages
        → (before_of page pages ≡ Some image) ↔ Any (λ p. (p.page ≡ page) × (p.before ≡ image)) pages }
    // The writes stand in the order of their places, below the end of the last page.
    ensures rise { (pages : List WorkPage) (end : ℕ) → PagesAscend 0 pages → All (λ p. p.page < end) pages
        → PlacesRise 0 (writes_of pages) (end * PAGE_WORDS) }
    // Stored over the images as read they give the changed ones.
    ensures leads { (pages : List WorkPage) (p : WorkPage) (index : ℕ) → PagesAscend 0 pages → Contains pages p
        → index < PAGE_WORDS → stored (writes_of pages) (word_place p.page index) (slice_index p.before index)
        ≡ slice_index p.changed index }
    // A page is written where its two images differ, and a page that is not there is not written.
    ensures written { (pages : List WorkPage) (p : WorkPage) → PagesAscend 0 pages → Contains pages p
        → (touches p.page (writes_of pages) ≡ false)
        ↔ ((index : ℕ) → index < PAGE_WORDS → slice_index p.before index ≡ slice_index p.changed index) }
    ensures absent { (pages : List WorkPage) (page : ℕ) → changed_of page pages ≡ None
        → touches page (writes_of pages) ≡ false }
    // A word is written exactly where it is that of the changed image, and not that of the image as read.
    ensures word { (pages : List WorkPage) (page index word : ℕ) → PagesAscend 0 pages → index < PAGE_WORDS
        → Contains (writes_of pages) (record { place = word_place page index; value = word })
        ↔ ((word_in (changed_of page pages) index ≡ Some word) × (word_in (before_of page pages) index ≢ Some word)) }
{}
