//! The order of keys.

ghost use Rattle.std.specs.Prelude.{IsNone, IfSome, ◌≤◌, ◌≡◌, ◌<◌, ◌+◌, ◌*◌, ◌/◌, ◌%◌, ◌^◌, ◌↔◌, IsTrue};
ghost use Rattle.ib_map.specs.Keys.{MapKey, rank, end_rank, key_after, least, greatest};
ghost use Rattle.ib_map.specs.KeyWords.{number_of, number_behind, zero_bytes, is_key_words};

use super::Key;

/// The next key: no key lies between. Of fewer than 15 bytes it is the key with a zero byte behind them; of 15,
/// trailing bytes 255 go and the last byte that is left rises by 1. None exactly for the greatest key.
pub fn after(key: Key) -> Option<Key>
    ensures next { result ≡ key_after key }
    ensures last { IsNone result ↔ (key ≡ greatest) }
    ensures above { IfSome result (λ next. rank key < rank next) }
    ensures adjacent { IfSome result (λ next. (other : MapKey)
        → rank key < rank other → rank next ≤ rank other) }
{
    let (first, second) = words_behind(key)?;
    Key::from_words(first, second)
}

// The words of the number behind a key's: a zero byte more, or a higher front.
fn words_behind(key: Key) -> Option<(u64, u64)>
    ensures number { IfSome result (λ words. number_of words.0 words.1 ≡ number_behind (number_of key.first key.second)) }
    ensures none { IsNone result ↔ (number_of key.first key.second + 241 ≡ 2 ^ 128) }
    ensures room { IfSome result (λ words. number_of key.first key.second + 241 < 2 ^ 128) }
{
    if key.second % 256 < 15 {
        return Some((key.first, key.second + 1));
    }
    let (first, second) = raised(key.first, key.second)?;
    Some((first, second + (15 - zero_bytes_of(first, second))))
}

// The words of the number that is greater by 241, where two words have it: the front of 15 bytes rises by 1, and the
// last byte, which was 15, is 0.
fn raised(first: u64, second: u64) -> Option<(u64, u64)>
    ensures number { IfSome result (λ words. number_of words.0 words.1 ≡ number_of first second + 241) }
    ensures none { IsNone result ↔ (2 ^ 128 ≤ number_of first second + 241) }
{
    if second <= u64::MAX - 241 {
        return Some((first, second + 241));
    }
    if first == u64::MAX {
        return None;
    }
    Some((first + 1, second - (u64::MAX - 240)))
}

// How many of the lowest bytes above the last one are 0.
fn zero_bytes_of(first: u64, second: u64) -> u64
    ensures zeros { result ≡ zero_bytes 15 (number_of first second / 256) }
    ensures few { result ≤ 15 }
{
    let low = zero_bytes(second / 256, 7);
    if low < 7 {
        return low;
    }
    7 + zero_bytes(first, 8)
}

// How many of the lowest bytes of a word are 0, `most` at most.
#[tactic(auto, unfolding(crate::specs::KeyWords::zero_bytes))]
fn zero_bytes(word: u64, most: u64) -> u64
    ensures zeros { result ≡ zero_bytes most word }
    ensures few { result ≤ most }
{
    if word == 0 {
        return most;
    }
    if most == 0 || word % 256 != 0 {
        return 0;
    }
    1 + zero_bytes(word / 256, most - 1)
}

// Whether two words are those of a key.
#[tactic(auto, unfolding(crate::specs::KeyWords::is_key_words))]
pub(super) fn are_key_words(first: u64, second: u64) -> bool
    ensures { result ≡ is_key_words first second }
{
    second % 256 <= 15 && second % 256 + zero_bytes_of(first, second) >= 15
}

/// Whether `a` stands before `b` in the order of keys.
#[tactic(auto, unfolding(crate::specs::Keys::rank))]
pub fn is_below(a: Key, b: Key) -> bool
    ensures below { IsTrue result ↔ (rank a < rank b) }
    ensures first { rank a < end_rank }
    ensures second { rank b < end_rank }
{
    a.first < b.first || (a.first == b.first && a.second < b.second)
}

/// Whether both are the same key.
#[tactic(auto, unfolding(crate::specs::Keys::rank))]
pub fn is_same(a: Key, b: Key) -> bool
    ensures same { IsTrue result ↔ (rank a ≡ rank b) }
    ensures first { rank a < end_rank }
    ensures second { rank b < end_rank }
{
    a.second == b.second && a.first == b.first
}
