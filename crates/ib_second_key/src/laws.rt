//! What holds of second keys by their definitions alone.

ghost use Rattle.std.specs.Prelude.{◌≡◌, ◌↔◌, ◌<◌, ◌≤◌, ◌^◌, ◌++◌, ◌==◌, ℕ, List, true, map, filter};
ghost use Rattle.std.specs.Int.{w64, to_be_bytes};
ghost use Rattle.ib_map.specs.Keys.{MapKey, rank};
ghost use Rattle.ib_map.specs.KeyBytes.{bytes_of};
ghost use Rattle.ib_map.specs.Pairs.{Pairs, cut};
ghost use Rattle.ib_map.specs.Map.{IsMap, answer_of, effect_of, is_made};
ghost use Rattle.ib_map.specs.declared.call.Change.{Change};
ghost use Rattle.ib_second_key.specs.SecondChanges.{IsPrimaryChange, second_change};
ghost use Rattle.ib_second_key.specs.SecondKeys.{ArePrimary, IsPrimaryPair, greatest_of_value, least_of_value, primary_of, second_key_of, second_of, value_of};

/// The law of second keys, as a contract: each pair has another one, of which its value and its key can be read, and those of one value
/// stand between two keys, with no other second key there.
pub fn second_key_law()
    ensures bytes { (key : MapKey) (value : ℕ) → IsPrimaryPair key value
        → bytes_of (second_key_of key value) ≡ to_be_bytes w64 value ++ bytes_of key }
    ensures injective { (a : MapKey) (v : ℕ) (b : MapKey) (w : ℕ) → IsPrimaryPair a v → IsPrimaryPair b w
        → second_key_of a v ≡ second_key_of b w → (a ≡ b) × (v ≡ w) }
    ensures primary { (key : MapKey) (value : ℕ) → IsPrimaryPair key value
        → (primary_of (second_key_of key value) ≡ key) × (value_of (second_key_of key value) ≡ value) }
    ensures least { (value : ℕ) → value < 2 ^ 64 → value_of (least_of_value value) ≡ value }
    ensures between { (key : MapKey) (value other : ℕ) → IsPrimaryPair key value → other < 2 ^ 64
        → ((rank (least_of_value other) ≤ rank (second_key_of key value)) × (rank (second_key_of key value) ≤ rank (greatest_of_value other)))
        ↔ (value ≡ other) }
{}

/// The law of the second tree's map, as a contract: a change of a map, where it is made, is one change of the second tree's map, and that is
/// made as well; and what the second tree's map has between the ends of a value is found by the map's own pairs with that value.
pub fn second_map_law()
    ensures map { (m : Pairs) → IsMap m → ArePrimary m → IsMap (second_of m) }
    ensures effect { (m : Pairs) (change : Change) → IsMap m → ArePrimary m → IsPrimaryChange change
        → is_made (answer_of m change) ≡ true → second_of (effect_of m change) ≡ effect_of (second_of m) (second_change m change) }
    ensures made { (m : Pairs) (change : Change) → IsMap m → ArePrimary m → IsPrimaryChange change
        → is_made (answer_of m change) ≡ true → is_made (answer_of (second_of m) (second_change m change)) ≡ true }
    ensures primary { (m : Pairs) (change : Change) → IsPrimaryChange change → ArePrimary m → ArePrimary (effect_of m change) }
    // The keys of a value, in their order.
    ensures found { (m : Pairs) (value : ℕ) → IsMap m → ArePrimary m → value < 2 ^ 64
        → map (λ x. primary_of x.0) (cut (second_of m) (least_of_value value) (greatest_of_value value))
        ≡ map (λ x. x.0) (filter (λ x. x.1 == value) m) }
{}
