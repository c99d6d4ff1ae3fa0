//! The laws of pair-kept logs, as contracts.

ghost use Rattle.std.specs.Prelude.{◌≡◌, ◌≢◌, ℕ, ◌+◌, ◌*◌, ◌≤◌, List, [], ◌∷◌, ◌++◌, length, true};
ghost use Rattle.ib_map.specs.Map.{answer_of, is_made};
ghost use Rattle.ib_map.specs.History.{changes_of};
ghost use Rattle.ib_map.specs.Space.{has_pages};
ghost use Rattle.ib_page.specs.Space.{space_clock_of, IsSpacePage};
ghost use Rattle.ib_logrec.specs.declared.entry.Entry.{Entry};
ghost use Rattle.ib_logrec.specs.Grammar.{IsInGrammar};
ghost use Rattle.ib_logrec.specs.Log.{memory_after, history_of, map_of, by_place};
ghost use Rattle.ib_walk.specs.Trees.{content_of};
ghost use Rattle.ib_walk.specs.Words.{image_of, IsLawfulMemory};
ghost use Rattle.ib_tree.specs.Logs.{pages_after};
ghost use Rattle.ib_pair_law.specs.Opening.{pair_opening};
ghost use Rattle.ib_pair_law.specs.PairKept.{IsPairEntry, IsPairLog};
ghost use Rattle.ib_second_key.specs.SecondKeys.{second_of, ArePrimary};

/// The law of pair-kept logs: what they say of the two trees, and which entries may come after them.
pub fn pair_law()
    ensures memory { (pages : ℕ) (log : List Entry) → has_pages pages ≡ true → IsPairLog pages log
        → IsLawfulMemory pages 2 (memory_after (by_place pair_opening pages) log) }
    // The first tree has the map, and the second has its pairs by their values.
    ensures first { (pages : ℕ) (log : List Entry) → has_pages pages ≡ true → IsPairLog pages log
        → content_of (pages_after (by_place pair_opening pages) log) 1 ≡ map_of log }
    ensures second { (pages : ℕ) (log : List Entry) → has_pages pages ≡ true → IsPairLog pages log
        → content_of (pages_after (by_place pair_opening pages) log) 2 ≡ second_of (map_of log) }
    ensures primary { (pages : ℕ) (log : List Entry) → IsPairLog pages log → ArePrimary (map_of log) }
    // A planned entry that the map takes, and that leaves page 0 the space page, may come after a pair-kept log.
    ensures push { (pages : ℕ) (log : List Entry) (e : Entry) → has_pages pages ≡ true → IsPairLog pages log
        → IsInGrammar pages e → is_made (answer_of (map_of log) e.change) ≡ true
        → e.number ≡ length (changes_of e.session (history_of log)) + 1
        → IsPairEntry pages (by_place pair_opening pages) log e
        → IsSpacePage pages (image_of (memory_after (by_place pair_opening pages) (log ++ e ∷ [])) 0)
        → IsPairLog pages (log ++ e ∷ []) }
    // Clocks begin at 0, and an entry raises each by two at most.
    ensures clocks { (pages : ℕ) (log : List Entry) (page : ℕ) → has_pages pages ≡ true → IsPairLog pages log → page ≢ 0
        → (pages_after (by_place pair_opening pages) log page).clock ≤ 2 * length log }
    ensures space_clock { (pages : ℕ) (log : List Entry) → has_pages pages ≡ true → IsPairLog pages log
        → space_clock_of (image_of (memory_after (by_place pair_opening pages) log) 0) ≤ 2 * length log }
{}
