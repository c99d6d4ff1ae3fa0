//! The laws of kept logs, as contracts.

ghost use Rattle.std.specs.Prelude.{◌≡◌, ◌≢◌, ℕ, ◌+◌, ◌<◌, ◌≤◌, ◌⊎◌, List, [], ◌∷◌, ◌++◌, length, None, Some, true, false};
ghost use Rattle.ib_map.specs.Keys.{MapKey};
ghost use Rattle.ib_map.specs.Pairs.{value_at};
ghost use Rattle.ib_map.specs.Map.{answer_of, is_made};
ghost use Rattle.ib_map.specs.History.{changes_of};
ghost use Rattle.ib_map.specs.Space.{has_pages};
ghost use Rattle.ib_map.specs.declared.call.Change.TheVariants.{Insert, Delete};
ghost use Rattle.ib_heap.specs.declared.TheConstants.{MOST_RECORDS};
ghost use Rattle.ib_page.specs.Space.{space_clock_of, IsSpacePage};
ghost use Rattle.ib_logrec.specs.declared.entry.Entry.{Entry};
ghost use Rattle.ib_logrec.specs.Grammar.{IsInGrammar};
ghost use Rattle.ib_logrec.specs.Log.{memory_after, history_of, map_of, by_place};
ghost use Rattle.ib_walk.specs.Full.{need_of, is_too_high};
ghost use Rattle.ib_walk.specs.Words.{image_of};
ghost use Rattle.ib_plans.specs.declared.TheConstants.{FEWEST_RECORDS};
ghost use Rattle.ib_plans.specs.Moves.{Puts, Takes};
ghost use Rattle.ib_tree.specs.TreeLog.{opening, IsTreeLog};
ghost use Rattle.ib_planned_log.specs.Kept.{IsPlannedEntry, IsKeptLog};
ghost use Rattle.ib_planned_log.specs.LeafChange.{kept_pages, leaf_after, with_pair, without_pair, ChangesPage};

/// The law of kept logs: what they say of pages and clocks, and which entries may come behind them.
pub fn kept_law()
    ensures tree { (pages : ℕ) (log : List Entry) → IsKeptLog pages log → IsTreeLog pages log }
    // A planned entry that the map takes, and that leaves page 0 the space page, may come behind a kept log.
    ensures push { (pages : ℕ) (log : List Entry) (e : Entry) → has_pages pages ≡ true → IsKeptLog pages log
        → IsInGrammar pages e → is_made (answer_of (map_of log) e.change) ≡ true
        → e.number ≡ length (changes_of e.session (history_of log)) + 1
        → IsPlannedEntry pages (by_place opening pages) log e
        → IsSpacePage pages (image_of (memory_after (by_place opening pages) (log ++ e ∷ [])) 0)
        → IsKeptLog pages (log ++ e ∷ []) }
    // Clocks begin at 0, and an entry raises each by one at most.
    ensures clocks { (pages : ℕ) (log : List Entry) (page : ℕ) → has_pages pages ≡ true → IsKeptLog pages log → page ≢ 0
        → (kept_pages pages log page).clock ≤ length log }
    ensures space_clock { (pages : ℕ) (log : List Entry) → has_pages pages ≡ true → IsKeptLog pages log
        → space_clock_of (image_of (memory_after (by_place opening pages) log) 0) ≤ length log }
    // What the map has of a key is what the key's leaf has.
    ensures lookup { (pages : ℕ) (log : List Entry) (key : MapKey) → has_pages pages ≡ true → IsKeptLog pages log
        → value_at key (map_of log) ≡ value_at key (kept_pages pages log (leaf_after pages log key)).records }
    // With room in the key's leaf no page is full that an insert comes to: it needs no other page, and the tree
    // grows no higher.
    ensures room { (pages : ℕ) (log : List Entry) (key : MapKey) → has_pages pages ≡ true → IsKeptLog pages log
        → length (kept_pages pages log (leaf_after pages log key)).records < MOST_RECORDS
        → (is_too_high 1 (kept_pages pages log) key 1 ≡ false) × (need_of (kept_pages pages log) key 1 ≡ 0) }
    // An insert of a missing key into a leaf with room changes that leaf alone (`btr_cur_optimistic_insert`).
    ensures leaf_insert { (pages : ℕ) (log : List Entry) (key : MapKey) (value : ℕ) (e : Entry)
        → has_pages pages ≡ true → IsKeptLog pages log
        → value_at key (kept_pages pages log (leaf_after pages log key)).records ≡ None
        → length (kept_pages pages log (leaf_after pages log key)).records < MOST_RECORDS
        → ChangesPage pages log (leaf_after pages log key) (with_pair key value (kept_pages pages log (leaf_after pages log key))) (Puts key) (Insert key value) e
        → IsPlannedEntry pages (by_place opening pages) log e × IsKeptLog pages (log ++ e ∷ []) }
    // A delete from the root, or from a leaf that is left with enough, changes that leaf alone (`btr_cur_optimistic_delete`).
    ensures leaf_delete { (pages : ℕ) (log : List Entry) (key : MapKey) (value : ℕ) (e : Entry)
        → has_pages pages ≡ true → IsKeptLog pages log
        → value_at key (kept_pages pages log (leaf_after pages log key)).records ≡ Some value
        → (leaf_after pages log key ≡ 1) ⊎ (FEWEST_RECORDS < length (kept_pages pages log (leaf_after pages log key)).records)
        → ChangesPage pages log (leaf_after pages log key) (without_pair key (kept_pages pages log (leaf_after pages log key))) (Takes key) (Delete key) e
        → IsPlannedEntry pages (by_place opening pages) log e × IsKeptLog pages (log ++ e ∷ []) }
{}
