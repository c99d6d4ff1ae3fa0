//! The law of changes of both trees, as a contract.

ghost use Rattle.std.specs.Prelude.{◌≡◌, List, [], ◌∷◌, ◌++◌, ℕ, true, false};
ghost use Rattle.std.specs.List.{AllByRecursion};
ghost use Rattle.ib_map.specs.Keys.{MapKey};
ghost use Rattle.ib_map.specs.Space.{has_pages};
ghost use Rattle.ib_map.specs.declared.call.Change.{Change};
ghost use Rattle.ib_map.specs.declared.call.Change.TheVariants.{Insert, Delete};
ghost use Rattle.ib_second_key.specs.SecondKeys.{second_key_of};
ghost use Rattle.ib_page.specs.Work.{WorkPage};
ghost use Rattle.ib_logrec.specs.declared.entry.Entry.{Entry};
ghost use Rattle.ib_logrec.specs.Log.{by_place};
ghost use Rattle.ib_pair_law.specs.Opening.{pair_opening};
ghost use Rattle.ib_pair_law.specs.PairKept.{IsPairEntry, IsPairLog};
ghost use Rattle.ib_pair_change.specs.PairCommits.{IsPairChange, IsPlannedBoth};
ghost use Rattle.ib_pair_change.specs.PairPlans.{CanDeletePair, CanInsertPair, IsPlannedPair, IsPlannedPairDelete};

/// The law of changes of both trees: an entry that writes the words of a work set that differ, on which the change of the map was
/// planned for the first tree and then the second tree's change for the second, may come after a kept log of a pair.
pub fn pair_change_law()
    ensures push { (pages : ℕ) (log : List Entry) (change : Change) (old middle new : List WorkPage) (e : Entry)
        → has_pages pages ≡ true → IsPairLog pages log → IsPairChange pages log change old middle new e
        → IsPairEntry pages (by_place pair_opening pages) log e × IsPairLog pages (log ++ e ∷ []) }
    // Each entry is structural. So what a session first sees while it has the index in SX, which is none that is structural,
    // is nothing.
    ensures structural { (pages : ℕ) (log : List Entry) (e : Entry) → has_pages pages ≡ true
        → IsPairLog pages (log ++ e ∷ []) → e.structural ≡ true }
    ensures alone { (pages : ℕ) (log others : List Entry) → has_pages pages ≡ true → IsPairLog pages (log ++ others)
        → AllByRecursion (λ e. e.structural ≡ false) others → others ≡ [] }
    // Two inserts that were planned one after the other are planned so, and two deletes.
    ensures inserts { (path fresh : List ℕ) (key : MapKey) (value : ℕ) (other_path other_fresh : List ℕ)
        (old new : List WorkPage) (can : CanInsertPair path fresh key value other_path other_fresh old)
        (planned : IsPlannedPair path fresh key value other_path other_fresh old new)
        → IsPlannedBoth can.pages can.memory can.bits (Insert key value) (Insert (second_key_of key value) 0) old planned.middle new }
    ensures deletes { (path : List ℕ) (key : MapKey) (value : ℕ) (other_path : List ℕ)
        (old new : List WorkPage) (can : CanDeletePair path key value other_path old)
        (planned : IsPlannedPairDelete path key value other_path old new)
        → IsPlannedBoth can.pages can.memory can.bits (Delete key) (Delete (second_key_of key value)) old planned.middle new }
{}
