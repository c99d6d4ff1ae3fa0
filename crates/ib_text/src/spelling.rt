//! The two ways in which a key is written.

ghost use Rattle.std.specs.Prelude.{◌≡◌, ◌==◌, ◌&&◌, ◌<◌, ◌≤◌, ◌*◌, ◌++◌, ℕ, Some, None, IfSome, count_by, drop, false, flat_map, length, map, nat_lt, slice_index, take, true};
ghost use Rattle.std.specs.Int.{w64, from_be_bytes};
ghost use Rattle.ib_map.specs.KeyBytes.{first_bytes, second_bytes, word_bytes};
ghost use Rattle.ib_map.specs.Keys.{key_in};
ghost use Rattle.ib_text.specs.Keys.{hex_byte, hex_bytes, hex_digit, hex_key, is_plain, is_plain_text, joined_from, number_or_255, plain_key};

use ib_io::LineKind;
use ib_map::{Key, MOST_KEY_BYTES};
use std::simd::prelude::*;

// A key's two words have 16 bytes: its own, zeros behind them, and how many are its own.
const PADDED_BYTES: usize = 16;

// All of them have so many hexadecimal digits.
const PADDED_DIGITS: usize = 32;

// Whether a byte is written as it is.
fn is_plain(byte: u8) -> bool
    ensures { result ≡ is_plain byte }
{
    byte.is_ascii_alphanumeric() || byte == b'_' || byte == b'.'
}

// Whether bytes are written as they are. It ends at the first that is not.
fn is_plain_text(bytes: &[u8]) -> bool
    ensures { result ≡ is_plain_text bytes.now }
{
    for byte in bytes {
        if !is_plain(*byte) {
            return false;
        }
    }
    !bytes.is_empty()
}

// How many of the bytes are written as they are. With a fixed count, and not put into its callers, it is compiled to a
// few steps that take all bytes at once.
#[inline(never)]
fn count_plain(bytes: &[u8; PADDED_BYTES]) -> u8
    ensures { result ≡ count_by is_plain bytes.now }
{
    let mut count = 0;
    for byte in bytes {
        count += u8::from(is_plain(*byte));
    }
    count
}

// Whether a key of so many bytes is written as it is, by its padded bytes: zeros and counts never are.
pub(crate) fn is_plain_padded(bytes: &[u8; PADDED_BYTES], len: usize) -> bool
    ensures { result ≡ (nat_lt 0 len && (count_by is_plain bytes.now == len)) }
{
    len > 0 && usize::from(count_plain(bytes)) == len
}

// The padded bytes of a key.
pub(crate) fn padded_bytes(key: Key) -> [u8; PADDED_BYTES]
    ensures { result ≡ word_bytes key }
{
    let (first, second) = key.words();
    let mut bytes = [0; PADDED_BYTES];
    bytes[..8].copy_from_slice(&first.to_be_bytes());
    bytes[8..].copy_from_slice(&second.to_be_bytes());
    bytes
}

// A hexadecimal digit.
fn hex_digit(n: u8) -> u8
    requires { n < 16 }
    ensures { result ≡ hex_digit n }
{
    if n < 10 { b'0' + n } else { b'a' - 10 + n }
}

// Two hexadecimal digits for each byte. With a fixed count, and not put into its callers, it is compiled to a few steps
// that take many bytes at once.
#[inline(never)]
pub(crate) fn hex_digits(bytes: &[u8; PADDED_BYTES]) -> [u8; PADDED_DIGITS]
    ensures { result ≡ flat_map hex_byte bytes.now }
{
    let mut digits = [0; PADDED_DIGITS];
    for i in 0..PADDED_BYTES {
        digits[2 * i] = hex_digit(bytes[i] / 16);
        digits[2 * i + 1] = hex_digit(bytes[i] % 16);
    }
    digits
}

// Bytes as the padded ones of their key.
fn with_zeros(field: &[u8]) -> [u8; PADDED_BYTES]
    requires { length field.now ≤ MOST_KEY_BYTES }
    ensures { result ≡ first_bytes field.now ++ second_bytes field.now }
{
    let mut bytes = [0; PADDED_BYTES];
    bytes[..field.len()].copy_from_slice(field);
    bytes[MOST_KEY_BYTES] = field.len() as u8;
    bytes
}

// The key of padded bytes.
fn padded_key(bytes: &[u8; PADDED_BYTES]) -> Key
    ensures { result ≡ key_in (from_be_bytes w64 (take 8 bytes.now)) (from_be_bytes w64 (drop 8 bytes.now)) }
{
    let mut first = [0; 8];
    let mut second = [0; 8];
    first.copy_from_slice(&bytes[..8]);
    second.copy_from_slice(&bytes[8..]);
    Key::in_words(u64::from_be_bytes(first), u64::from_be_bytes(second))
}

// The key of bytes that are written as they are.
pub(crate) fn plain_key(field: &[u8]) -> Result<Key, LineKind>
    ensures { result ≡ plain_key field.now }
{
    if field.len() > MOST_KEY_BYTES {
        return Err(LineKind::Key);
    }
    let bytes = with_zeros(field);
    if !is_plain_padded(&bytes, field.len()) {
        return Err(LineKind::Key);
    }
    Ok(padded_key(&bytes))
}

// Digits with zeros behind them.
fn with_zero_digits(digits: &[u8]) -> [u8; PADDED_DIGITS]
    requires { length digits.now ≤ PADDED_DIGITS }
    ensures own { (k : ℕ) → k < length digits.now → slice_index result k ≡ slice_index digits.now k }
    ensures others { (k : ℕ) → length digits.now ≤ k → k < PADDED_DIGITS → slice_index result k ≡ 48 }
{
    let mut padded = [b'0'; PADDED_DIGITS];
    padded[..digits.len()].copy_from_slice(digits);
    padded
}

// The number of each hexadecimal digit, and 255 for any other byte.
#[inline(always)]
fn digit_numbers(digits: u8x16) -> u8x16
    ensures { result ≡ map number_or_255 digits }
{
    let figures = digits - u8x16::splat(b'0');
    let letters = digits - u8x16::splat(b'a');
    let others = letters
        .simd_le(u8x16::splat(5))
        .select(letters + u8x16::splat(10), u8x16::splat(255));
    figures.simd_le(u8x16::splat(9)).select(figures, others)
}

// Whether all are numbers of digits.
#[inline(always)]
fn are_numbers(numbers: u8x16) -> bool
    ensures yes { result ≡ true → (k : ℕ) → k < 16 → slice_index numbers k < 16 }
    ensures no { result ≡ false → (k : ℕ) × (k < 16) × (16 ≤ slice_index numbers k) }
{
    numbers.simd_ge(u8x16::splat(16)).to_bitmask() == 0
}

// The bytes of the numbers of digits, two for each.
#[inline(always)]
fn joined(front: u8x16, back: u8x16) -> [u8; PADDED_BYTES]
    ensures { result ≡ joined_from 0 16 (front ++ back) }
{
    let (high, low) = front.deinterleave(back);
    (high * u8x16::splat(16) + low).to_array()
}

// The bytes of hexadecimal digits, two for each, and zeros behind them. None where they are none.
fn read_hex(digits: &[u8], len: usize) -> Option<[u8; PADDED_BYTES]>
    requires pairs { length digits.now ≡ 2 * len }
    requires few { len ≤ MOST_KEY_BYTES }
    ensures some { IfSome result (λ bytes. hex_bytes digits.now ≡ Some (take len bytes)) }
    ensures zeros { IfSome result (λ bytes. (k : ℕ) → len ≤ k → slice_index bytes k ≡ 0) }
    ensures none { result ≡ None → hex_bytes digits.now ≡ None }
{
    let padded = with_zero_digits(digits);
    let front = digit_numbers(u8x16::from_slice(&padded));
    let back = digit_numbers(u8x16::from_slice(&padded[16..]));
    if !are_numbers(front) || !are_numbers(back) {
        return None;
    }
    Some(joined(front, back))
}

// The key of hexadecimal digits, two for each byte.
pub(crate) fn hex_key(digits: &[u8]) -> Result<Key, LineKind>
    ensures { result ≡ hex_key (hex_bytes digits.now) }
{
    let len = digits.len() / 2;
    if digits.len() % 2 != 0 || len > MOST_KEY_BYTES {
        return Err(LineKind::Key);
    }
    let Some(mut bytes) = read_hex(digits, len) else {
        return Err(LineKind::Key);
    };
    if is_plain_text(&bytes[..len]) {
        return Err(LineKind::Key);
    }
    bytes[MOST_KEY_BYTES] = len as u8;
    Ok(padded_key(&bytes))
}
