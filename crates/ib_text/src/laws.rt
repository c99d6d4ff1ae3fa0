//! What holds of texts by their definitions alone.

ghost use Rattle.std.specs.Prelude.{◌≡◌, ◌∷◌, ◌++◌, [], ℕ, List, Ok, codes};
ghost use Rattle.ib_io.specs.Lines.{fields_of};
ghost use Rattle.ib_map.specs.Keys.{MapKey};
ghost use Rattle.ib_text.specs.Keys.{key_in, key_text};

/// The law of the text of a key, as a contract: it is one field of its line, and is the one field that is read as
/// that key.
pub fn key_text_law()
    ensures read { (key : MapKey) → key_in (key_text key) ≡ Ok key }
    ensures one { (field : List ℕ) (key : MapKey) → key_in field ≡ Ok key → key_text key ≡ field }
    ensures alone { (key : MapKey) → fields_of (key_text key) ≡ key_text key ∷ [] }
    // What follows it behind a space are further fields.
    ensures before { (key : MapKey) (rest : List ℕ)
        → fields_of (key_text key ++ codes " " ++ rest) ≡ key_text key ∷ fields_of rest }
{}
