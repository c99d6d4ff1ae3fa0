//! Keys as bytes.

ghost use Rattle.std.specs.Prelude.{◌≡◌, ◌<◌, ◌≤◌, length, slice_index, IfOk, IfErr, IsOk};
ghost use Rattle.std.specs.Int.{w64, to_be_bytes};
ghost use Rattle.ib_map.specs.KeyBytes.{bytes_of, key_of_bytes};

use super::{Key, MOST_KEY_BYTES};
use thiserror::Error;

/// So many bytes are more than a key has.
#[derive(Clone, Copy, Debug, PartialEq, Eq, Error)]
#[error("a key of {len} bytes: it has 15 at most")]
pub struct LongKey {
    pub len: usize,
}

impl Key {
    /// The key of these bytes. Refused exactly where they are more than 15.
    pub fn from_bytes(bytes: &[u8]) -> Result<Key, LongKey>
        ensures bytes { IfOk result (λ key. bytes_of key ≡ bytes.now) }
        ensures key { IfOk result (λ key. key ≡ key_of_bytes bytes.now) }
        ensures short { length bytes.now ≤ 15 → IsOk result }
        ensures long { IfErr result (λ fault. (fault.len ≡ length bytes.now) × (15 < length bytes.now)) }
    {
        let len = bytes.len();
        if len > MOST_KEY_BYTES {
            return Err(LongKey { len });
        }
        let first = u64::from_be_bytes([
            byte_at(bytes, 0),
            byte_at(bytes, 1),
            byte_at(bytes, 2),
            byte_at(bytes, 3),
            byte_at(bytes, 4),
            byte_at(bytes, 5),
            byte_at(bytes, 6),
            byte_at(bytes, 7),
        ]);
        let second = u64::from_be_bytes([
            byte_at(bytes, 8),
            byte_at(bytes, 9),
            byte_at(bytes, 10),
            byte_at(bytes, 11),
            byte_at(bytes, 12),
            byte_at(bytes, 13),
            byte_at(bytes, 14),
            len as u8,
        ]);
        Ok(Key { first, second })
    }

    /// How many bytes the key has.
    pub fn len(&self) -> usize
        ensures count { result ≡ length (bytes_of self.now) }
        ensures few { result ≤ 15 }
    {
        (self.second % 256) as usize
    }

    /// One of the key's bytes, from 0 on.
    pub fn byte(&self, i: usize) -> u8
        requires { i < length (bytes_of self.now) }
        ensures { result ≡ slice_index (bytes_of self.now) i }
    {
        if i < 8 {
            self.first.to_be_bytes()[i]
        } else {
            self.second.to_be_bytes()[i - 8]
        }
    }

    /// The key of the 8 bytes of a number, from the highest down: a greater number has a greater key.
    pub fn of_number(n: u64) -> Key
        ensures { bytes_of result ≡ to_be_bytes w64 n }
    {
        Key {
            first: n,
            second: 8,
        }
    }
}

// A byte, or 0 behind the last one.
fn byte_at(bytes: &[u8], i: usize) -> u8
    ensures { result ≡ slice_index bytes.now i }
{
    match bytes.get(i) {
        Some(byte) => *byte,
        None => 0,
    }
}
