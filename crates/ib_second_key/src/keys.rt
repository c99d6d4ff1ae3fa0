//! The second key of a pair, and what is read off one.

ghost use Rattle.std.specs.Prelude.{◌≡◌, ◌++◌, ◌<◌, ◌≤◌, ◌↔◌, IsTrue, drop, length, slice_index, take};
ghost use Rattle.std.specs.Int.{w64, to_be_bytes};
ghost use Rattle.ib_map.specs.KeyBytes.{bytes_of, key_of_bytes};
ghost use Rattle.ib_second_key.specs.SecondKeys.{IsPrimary, greatest_of_value, least_of_value, primary_of, second_key_of, value_of};

use ib_map::Key;

/// The most bytes of a key that has a second key: with the eight of a value before them they are a key's.
pub const MOST_PRIMARY_BYTES: usize = 7;

const _: () = prove!(MOST_PRIMARY_BYTES == 7);

/// Whether a key is short enough to have a second key.
pub fn is_primary(key: Key) -> bool
    ensures { IsTrue result ↔ IsPrimary key }
{
    key.len() <= MOST_PRIMARY_BYTES
}

// A byte of a key, or 0 behind its last one.
fn byte_or_zero(key: &Key, i: usize) -> u8
    ensures { result ≡ slice_index (bytes_of key.now) i }
{
    if i < key.len() { key.byte(i) } else { 0 }
}

// The key of so many of these bytes.
fn key_of(bytes: &[u8], len: usize) -> Key
    requires few { len ≤ 15 }
    requires within { len ≤ length bytes.now }
    ensures { result ≡ key_of_bytes (take len bytes.now) }
{
    Key::from_bytes(&bytes[..len]).unwrap()
}

/// The key at which a second tree finds the pair of a key and a value, as a secondary index has it (`row_build_index_entry`):
/// the eight bytes of the value from the highest down, and the key's own behind them. So the pairs of one value stand
/// together, in the order of their keys.
///
/// ```
/// let second = second_key(key, 5);
/// same = primary_key(second) == key && value_of(second) == 5;
/// ```
pub fn second_key(key: Key, value: u64) -> Key
    requires { IsPrimary key }
    ensures key { result ≡ second_key_of key value }
    ensures bytes { bytes_of result ≡ to_be_bytes w64 value ++ bytes_of key }
{
    let front = value.to_be_bytes();
    let bytes = [
        front[0],
        front[1],
        front[2],
        front[3],
        front[4],
        front[5],
        front[6],
        front[7],
        byte_or_zero(&key, 0),
        byte_or_zero(&key, 1),
        byte_or_zero(&key, 2),
        byte_or_zero(&key, 3),
        byte_or_zero(&key, 4),
        byte_or_zero(&key, 5),
        byte_or_zero(&key, 6),
    ];
    key_of(&bytes, 8 + key.len())
}

/// The value of which this is a second key: its first eight bytes, as a number.
pub fn value_of(second: Key) -> u64
    ensures { result ≡ value_of second }
{
    let (first, _) = second.words();
    first
}

/// The key of which this is a second key: its bytes but the first eight (`row_build_row_ref`).
pub fn primary_key(second: Key) -> Key
    requires { 8 ≤ length (bytes_of second) }
    ensures key { result ≡ primary_of second }
    ensures bytes { bytes_of result ≡ drop 8 (bytes_of second) }
{
    let bytes = [
        byte_or_zero(&second, 8),
        byte_or_zero(&second, 9),
        byte_or_zero(&second, 10),
        byte_or_zero(&second, 11),
        byte_or_zero(&second, 12),
        byte_or_zero(&second, 13),
        byte_or_zero(&second, 14),
    ];
    key_of(&bytes, second.len() - 8)
}

/// The keys between which the second keys of a value stand: the least key with its eight bytes, and the greatest.
///
/// ```
/// let (low, high) = keys_of_value(5);
/// let scanned = scan_at(rt, pair.latches(), 2, &mut pass, low, high, &mut chunks);
/// ```
pub fn keys_of_value(value: u64) -> (Key, Key)
    ensures low { result.0 ≡ least_of_value value }
    ensures high { result.1 ≡ greatest_of_value value }
{
    let front = value.to_be_bytes();
    let bytes = [
        front[0], front[1], front[2], front[3], front[4], front[5], front[6], front[7], 255, 255,
        255, 255, 255, 255, 255,
    ];
    (Key::of_number(value), key_of(&bytes, 15))
}
