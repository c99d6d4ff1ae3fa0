//! Keys as words of the log: how many, and which.

ghost use Rattle.std.specs.Prelude.{◌≡◌, ◌≤◌, ◌++◌, length, drop, true, SomeIff};
ghost use Rattle.ib_logrec.specs.KeyWords.{key_in, key_words, spells_key};

use ib_map::Key;

/// The words that a key is written as.
pub(crate) const KEY_WORDS: usize = 2;

// Writes the key to the front of `out`. What stands behind it stays.
#[tactic(auto, unfolding(crate::specs::KeyWords::key_words))]
pub(crate) fn put_key(key: Key, out: &mut [u64])
    requires { KEY_WORDS ≤ length out.old }
    ensures { out.new ≡ key_words key ++ drop KEY_WORDS out.old }
{
    let (first, second) = key.words();
    out[0] = first;
    out[1] = second;
}

// The key that is spelled at the front of the words. None exactly where none is.
#[tactic(auto, unfolding(crate::specs::KeyWords::spells_key, crate::specs::KeyWords::key_in))]
pub(crate) fn key_at(words: &[u64]) -> Option<Key>
    requires { KEY_WORDS ≤ length words.now }
    ensures { SomeIff result (spells_key words.now ≡ true) (key_in words.now) }
{
    Key::from_words(words[0], words[1])
}
