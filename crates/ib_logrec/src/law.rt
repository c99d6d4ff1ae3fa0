//! Which logs are lawful: what a layer above says of pages, and the laws that it must keep.

/// What the log's rule is generic in: which lists of entries are lawful on so many pages, and the words
/// of the pages at the start. Of a page's range a law may say what it likes, as long as an entry that
/// writes no word of the page changes none of it.
pub trait Law {
    ghost use Rattle.std.specs.Prelude.{ℕ, ◌≡◌, ◌↔◌, List, [], ◌∷◌, ◌++◌, true, false};
    ghost use Rattle.ib_map.specs.Space.{has_pages};
    ghost use Rattle.ib_map.specs.Writes.{touches};
    ghost use Rattle.ib_logrec.specs.Law.{AreInGrammar, PageRange};
    ghost use Rattle.ib_logrec.specs.declared.entry.Entry.{Entry};

    // the lists of entries that are lawful on so many pages
    ghost lawful: { ℕ → List Entry → Type 0 };

    // the word of a page at an index, at the start
    ghost opening: { ℕ → ℕ → ℕ → ℕ };

    // after these entries, the page has this range
    ghost range: { ℕ → List Entry → ℕ → PageRange → Type 0 };

    /// The word that stands at this index of the page at the start.
    fn opening_word(pages: u32, page: u32, index: u32) -> u64
        ensures { result ≡ opening pages page index };

    // The laws speak of the numbers of pages that a space has. No entries are lawful
    ghost empty: { (pages : ℕ) → has_pages pages ≡ true → lawful pages [] };

    // each front of lawful entries is lawful
    ghost begins: { (pages : ℕ) (xs ys : List Entry) → has_pages pages ≡ true
        → lawful pages (xs ++ ys) → lawful pages xs };

    // lawful entries are in the grammar
    ghost grammar: { (pages : ℕ) (log : List Entry) → has_pages pages ≡ true
        → lawful pages log → AreInGrammar pages log };

    // the range of a page that a lawful entry doesn't write is as before
    ghost stays: { (pages : ℕ) (xs : List Entry) (e : Entry) (page : ℕ) (r : PageRange)
        → has_pages pages ≡ true → lawful pages (xs ++ e ∷ []) → touches page e.writes ≡ false
        → range pages (xs ++ e ∷ []) page r ↔ range pages xs page r };
}

/// A law for tests: pages of zeros at the start, each list of entries in the grammar lawful, and each
/// page's range all keys of the first root.
pub struct AnyLaw;

impl Law for AnyLaw {
    ghost use Rattle.std.specs.Prelude.{◌≡◌};
    ghost use Rattle.ib_logrec.specs.Law.{AreInGrammar, AreInGrammar-front, all_keys};

    ghost lawful = { AreInGrammar };

    ghost opening = { λ _ _ _. 0 };

    ghost range = { λ _ _ _ r. r ≡ all_keys };

    fn opening_word(_pages: u32, _page: u32, _index: u32) -> u64 {
        0
    }

    ghost empty = { λ _ _. tt };

    ghost begins = { λ pages xs ys _. AreInGrammar-front pages xs ys };

    ghost grammar = { λ _ _ _ lawful. lawful };

    ghost stays = { λ _ _ _ _ _ _ _ _. (λ is. is, λ is. is) };
}
