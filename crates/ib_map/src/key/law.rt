//! What holds of keys by their definitions alone.

ghost use Rattle.std.specs.Prelude.{◌≡◌, ◌<◌, ◌≤◌, ◌+◌, ◌↔◌, ◌⊎◌, ℕ, List, length};
ghost use Rattle.ib_map.specs.KeyBytes.{AreBytes, Precedes, bytes_of, key_of_bytes};
ghost use Rattle.ib_map.specs.Keys.{MapKey, rank, end_rank, key_in, least, greatest};

/// The order of keys, as a contract. It is that of their ranks, natural numbers from 0, that of the least key, to
/// that of the greatest; and that is the order of their bytes, with a prefix first.
pub fn key_law()
    ensures below_end { (key : MapKey) → rank key < end_rank }
    ensures injective { (a b : MapKey) → rank a ≡ rank b → a ≡ b }
    ensures least { rank least ≡ 0 }
    ensures greatest { rank greatest + 1 ≡ end_rank }
    ensures words { (key : MapKey) → key_in key.first key.second ≡ key }
    ensures pairs { (a b : MapKey) → (rank a < rank b) ↔ ((a.first < b.first) ⊎ ((a.first ≡ b.first) × (a.second < b.second))) }
    ensures of_bytes { (bs : List ℕ) → length bs ≤ 15 → AreBytes bs → bytes_of (key_of_bytes bs) ≡ bs }
    ensures are_bytes { (key : MapKey) → AreBytes (bytes_of key) }
    ensures few_bytes { (key : MapKey) → length (bytes_of key) ≤ 15 }
    ensures one_key { (a b : MapKey) → bytes_of a ≡ bytes_of b → a ≡ b }
    ensures bytes { (a b : MapKey) → (rank a < rank b) ↔ Precedes (bytes_of a) (bytes_of b) }
{}
