//! Keys as two words, as pages and the log keep them.

ghost use Rattle.std.specs.Prelude.{◌≡◌, true, IsTrue, SomeIff};
ghost use Rattle.ib_map.specs.KeyWords.{is_key_words};
ghost use Rattle.ib_map.specs.Keys.{key_in};

use super::Key;
use super::order::are_key_words;

impl Key {
    /// The key of two words. None exactly where they are no key's: the last byte is above 15, or a byte behind so
    /// many is not 0.
    pub fn from_words(first: u64, second: u64) -> Option<Key>
        ensures { SomeIff result (is_key_words first second ≡ true) (key_in first second) }
    {
        if are_key_words(first, second) {
            return Some(Key { first, second });
        }
        None
    }

    /// The key of two words, and the least one where they are no key's.
    pub fn in_words(first: u64, second: u64) -> Key
        ensures { result ≡ key_in first second }
    {
        match Key::from_words(first, second) {
            Some(key) => key,
            None => Key::least(),
        }
    }

    /// The two words of the key.
    pub fn words(&self) -> (u64, u64)
        ensures first { result.0 ≡ self.now.first }
        ensures second { result.1 ≡ self.now.second }
        ensures are_words { IsTrue (is_key_words result.0 result.1) }
        ensures key { key_in result.0 result.1 ≡ self.now }
    {
        (self.first, self.second)
    }
}
