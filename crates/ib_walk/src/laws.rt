//! The laws of walks and of lawful memories, as a contract.

ghost use Rattle.std.specs.Prelude.{◌≡◌, ℕ, ◌<◌, ◌≤◌, ◌==◌, [], true};
ghost use Rattle.std.specs.List.{IsDistinct};
ghost use Rattle.ib_map.specs.Keys.{MapKey, end_rank};
ghost use Rattle.ib_map.specs.Pairs.{value_at};
ghost use Rattle.ib_map.specs.Map.{IsMap};
ghost use Rattle.ib_map.specs.Space.{has_pages};
ghost use Rattle.ib_page.specs.Opening.{opening_words};
ghost use Rattle.ib_walk.specs.Pages.{PageMemory};
ghost use Rattle.ib_walk.specs.Walk.{IsTiled};
ghost use Rattle.ib_walk.specs.Trees.{leaves_of, content_of, pages_met, IsLawful};
ghost use Rattle.ib_walk.specs.Search.{leaf_for, IsPageFor};
ghost use Rattle.ib_walk.specs.Opening.{opening_word};
ghost use Rattle.ib_walk.specs.Words.{image_of, pages_of, IsLawfulMemory};

/// The law of walks, as a contract: what the path of a key finds in lawful trees is what they have, and the
/// pages of a new space are lawful. What is lawful is what `btr_validate_index` looks at, and the space
/// page's bits with it.
pub fn walk_law()
    // The records of a tree are a map, its leaves stand side by side over all keys, and no page is met twice.
    ensures map { (memory : PageMemory) (bits : ℕ → ℕ) (roots root : ℕ) → IsLawful memory bits roots
        → 0 < root → root ≤ roots → IsMap (content_of memory root) }
    ensures tiled { (memory : PageMemory) (bits : ℕ → ℕ) (roots root : ℕ) → IsLawful memory bits roots
        → 0 < root → root ≤ roots → IsTiled 0 (leaves_of memory root) end_rank }
    ensures once { (memory : PageMemory) (bits : ℕ → ℕ) (roots : ℕ) → IsLawful memory bits roots
        → IsDistinct ◌==◌ (pages_met memory roots) }
    // The path of a key ends at the leaf whose range has it, and the tree has of the key what that leaf has.
    ensures leaf { (memory : PageMemory) (bits : ℕ → ℕ) (roots root : ℕ) (key : MapKey) → IsLawful memory bits roots
        → 0 < root → root ≤ roots → IsPageFor key (leaves_of memory root) (leaf_for memory key root) }
    ensures value { (memory : PageMemory) (bits : ℕ → ℕ) (roots root : ℕ) (key : MapKey) → IsLawful memory bits roots
        → 0 < root → root ≤ roots
        → value_at key (content_of memory root) ≡ value_at key (memory (leaf_for memory key root)).records }
    // The pages of a new space are lawful: one tree or two, which have no records.
    ensures opening { (pages roots : ℕ) → has_pages pages ≡ true → 0 < roots → roots ≤ 2 → IsLawfulMemory pages roots (opening_word roots) }
    ensures images { (roots page : ℕ) → image_of (opening_word roots) page ≡ opening_words roots page }
    ensures empty { (roots root : ℕ) → roots ≤ 2 → 0 < root → root ≤ roots → content_of (pages_of (opening_word roots)) root ≡ [] }
{}
