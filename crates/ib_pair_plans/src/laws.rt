//! What a planned change of one tree leaves of the others, as a contract.

ghost use Rattle.std.specs.Prelude.{◌≡◌, ◌≢◌, ℕ, ◌+◌, ◌<◌, ◌≤◌, ◌++◌, List, None, length};
ghost use Rattle.ib_map.specs.Keys.{MapKey};
ghost use Rattle.ib_map.specs.Pairs.{value_at};
ghost use Rattle.ib_walk.specs.Pages.{PageMemory};
ghost use Rattle.ib_walk.specs.Walk.{counts_page};
ghost use Rattle.ib_walk.specs.Trees.{content_of, height_of, weight_of, IsLawful};
ghost use Rattle.ib_walk.specs.Full.{chosen, free_of, is_root_full, need_of};
ghost use Rattle.ib_plans.specs.Agreement.{path_of, with_bits};
ghost use Rattle.ib_plans.specs.Insert.{AreFresh, planned_insert};
ghost use Rattle.ib_plans.specs.Delete.{planned_delete};
ghost use Rattle.ib_pair_plans.specs.Apart.{IsApart};

/// The law of changes beside each other: a change of one tree touches no page of another, so that tree is as it was,
/// and an insert leaves all free pages but those that it takes.
pub fn apart_law()
    ensures insert { (memory : PageMemory) (bits : ℕ → ℕ) (roots root : ℕ) (key : MapKey) (value : ℕ) (fresh : List ℕ)
        → IsLawful memory bits roots → 0 < root → root ≤ roots → AreFresh bits fresh
        → value_at key (content_of memory root) ≡ None → need_of memory key root ≤ length fresh
        → IsApart memory roots root (planned_insert memory bits fresh key value root).touched }
    ensures delete { (memory : PageMemory) (bits : ℕ → ℕ) (roots root : ℕ) (key : MapKey)
        → IsLawful memory bits roots → 0 < root → root ≤ roots
        → IsApart memory roots root (planned_delete memory bits key root).touched }
    // A tree whose pages are as they were has each key's path, and needs as many pages, as before.
    ensures stays { (memory new : PageMemory) (bits after : ℕ → ℕ) (roots root : ℕ) (key : MapKey)
        → IsLawful memory bits roots → IsLawful new after roots → 0 < root → root ≤ roots
        → ((n : ℕ) → 0 < weight_of (counts_page n) memory root → new n ≡ memory n)
        → (path_of new key root ≡ path_of memory key root) × (height_of new root ≡ height_of memory root)
        × (content_of new root ≡ content_of memory root) × (need_of new key root ≡ need_of memory key root)
        × (is_root_full new key root ≡ is_root_full memory key root) }
    // An insert takes just its fresh pages, and the lowest free pages for two are those of the first with those of the second.
    ensures taken { (memory : PageMemory) (bits : ℕ → ℕ) (roots root : ℕ) (key : MapKey) (value : ℕ) (fresh : List ℕ)
        → IsLawful memory bits roots → 0 < root → root ≤ roots → AreFresh bits fresh
        → value_at key (content_of memory root) ≡ None → need_of memory key root ≡ length fresh
        → (planned_insert memory bits fresh key value root).bits ≡ with_bits fresh 1 bits }
    ensures free { (bits : ℕ → ℕ) (pages need : ℕ) → need ≤ free_of bits pages
        → free_of (with_bits (chosen bits pages need) 1 bits) pages + need ≡ free_of bits pages }
    ensures both { (bits : ℕ → ℕ) (pages one two : ℕ)
        → chosen bits pages (one + two) ≡ chosen bits pages one ++ chosen (with_bits (chosen bits pages one) 1 bits) pages two }
{}
