//! The law of a tree: which lists of entries keep it.

ghost use Rattle.std.specs.Prelude.{◌≡◌, slice_index};

use ib_logrec::Law;
use ib_map::PAGE_WORDS;

/// The law of one tree, whose root is page 1: the opening pages are those of a new space, and each entry
/// leads from lawful trees to lawful trees whose records are the map of the log.
pub struct TreeLaw;

impl Law for TreeLaw {
    ghost use Rattle.ib_tree.specs.TreeLog.{opening, IsTreeLog, HasTreeRange, IsLawfulLog-none, IsLawfulLog-front, HasRange-stays};
    ghost use Rattle.ib_logrec.specs.Log.{by_place};

    ghost lawful = { IsTreeLog };

    ghost opening = { opening };

    ghost range = { HasTreeRange };

    fn opening_word(_pages: u32, page: u32, index: u32) -> u64 {
        let index = index as usize;
        if index < PAGE_WORDS {
            ib_page::opening_word(1, page, index)
        } else {
            0
        }
    }

    ghost empty = { λ pages _. IsLawfulLog-none pages 1 (by_place opening pages) };

    ghost begins = { λ pages xs ys _. IsLawfulLog-front pages 1 (by_place opening pages) xs ys };

    ghost grammar = { λ pages log _ lawful. lawful.grammar };

    ghost stays = { λ pages xs e page r _. HasRange-stays pages 1 (by_place opening pages) xs e page r };
}

/// A law whose lawful lists of entries lead to lawful memories of so many trees, with the roots 1 to `ROOTS`.
pub trait Trees: Law {
    ghost use Rattle.std.specs.Prelude.{ℕ, ◌≡◌, ◌↔◌, List, [], ◌∷◌, ◌++◌, true};
    ghost use Rattle.std.specs.List.{AllByRecursion};
    ghost use Rattle.ib_map.specs.Space.{has_pages};
    ghost use Rattle.ib_map.specs.Writes.{spans_pages};
    ghost use Rattle.ib_logrec.specs.declared.entry.Entry.{Entry};
    ghost use Rattle.ib_logrec.specs.Law.{PageRange};
    ghost use Rattle.ib_logrec.specs.Log.{memory_after, map_of, by_place};
    ghost use Rattle.ib_walk.specs.Trees.{content_of};
    ghost use Rattle.ib_walk.specs.Words.{IsLawfulMemory};
    ghost use Rattle.ib_tree.specs.Logs.{HasRange, pages_after};

    ghost ROOTS: { ℕ };

    /// How many trees there are.
    const ROOTS: u32;

    /// What a lawful list of entries says of the pages after it: they are lawful trees, the first of which
    /// has the map of the list. An entry is structural where its writes lie on several pages, and a page's
    /// range is where the walk meets it.
    fn trees_law()
        ensures memory { (pages : ℕ) (log : List Entry) → has_pages pages ≡ true → Self.Law.lawful pages log
            → IsLawfulMemory pages ROOTS (memory_after (by_place Self.Law.opening pages) log) }
        ensures content { (pages : ℕ) (log : List Entry) → has_pages pages ≡ true → Self.Law.lawful pages log
            → content_of (pages_after (by_place Self.Law.opening pages) log) 1 ≡ map_of log }
        ensures structural { (pages : ℕ) (log : List Entry) → has_pages pages ≡ true → Self.Law.lawful pages log
            → AllByRecursion (λ e. e.structural ≡ spans_pages e.writes) log }
        ensures range { (pages : ℕ) (log : List Entry) (page : ℕ) (r : PageRange)
            → Self.Law.range pages log page r
            ↔ HasRange ROOTS (pages_after (by_place Self.Law.opening pages) log) page r };
}

impl Trees for TreeLaw {
    ghost ROOTS = { 1 };

    const ROOTS: u32 = 1;

    fn trees_law() {}
}
