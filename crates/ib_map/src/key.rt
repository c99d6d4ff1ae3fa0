//! The type of keys.

mod bytes;
mod law;
mod order;
mod words;

ghost use Rattle.std.specs.Prelude.{IsTrue};
ghost use Rattle.ib_map.specs.KeyWords.{is_key_words};

pub use bytes::LongKey;
pub use law::key_law;
pub use order::{after, is_below, is_same};

/// A key of the index: 0 to 15 bytes, ordered byte by byte, a prefix first. Code outside this crate copies keys,
/// and compares them by the calls beside.
///
/// It is kept as two words: the bytes with zeros behind them, up to 15, and how many they are as the sixteenth,
/// read from the highest down. So the order of the pairs of words is that of the keys.
#[derive(Clone, Copy, Debug, PartialEq, Eq)]
pub struct Key {
    first: u64,
    second: u64,
    ghost is_key: { IsTrue (is_key_words first second) },
}

/// The most bytes that a key has.
pub const MOST_KEY_BYTES: usize = 15;

const _: () = prove!(MOST_KEY_BYTES == 15);

impl Key {
    ghost use Rattle.std.specs.Prelude.{◌≡◌};
    ghost use Rattle.ib_map.specs.Keys.{least, greatest};

    /// The key with no bytes: no key is below it.
    pub fn least() -> Key
        ensures { result ≡ least }
    {
        Key {
            first: 0,
            second: 0,
        }
    }

    /// The key of 15 bytes 255: no key is above it.
    pub fn greatest() -> Key
        ensures { result ≡ greatest }
    {
        Key {
            first: u64::MAX,
            second: u64::MAX - 240,
        }
    }
}
