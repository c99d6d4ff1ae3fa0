//! The one text of a key, and the one reading of it.

ghost use Rattle.std.specs.Prelude.{◌≡◌, ◌++◌};
ghost use Rattle.ib_io.specs.Writer.{Puts};
ghost use Rattle.ib_text.specs.Keys.{key_in, key_text, pair_text};

use crate::spelling::{hex_digits, hex_key, is_plain_padded, padded_bytes, plain_key};
use ib_io::{LineKind, Sink, Writer};
use ib_map::Key;

/// The key that a field is: its bytes, 1 to 15 letters, digits, `_` or `.`; or `x:` and two hexadecimal digits, with small
/// letters, for each byte, where the key is not written so. `Key` where it is none. So each key has one text.
#[tactic(auto, unfolding(crate::specs::Keys::key_in))]
pub fn key_in(field: &[u8]) -> Result<Key, LineKind>
    ensures { result ≡ key_in field.now }
{
    match field {
        [b'x', b':', digits @ ..] => hex_key(digits),
        _ => plain_key(field),
    }
}

/// A key.
#[tactic(auto, unfolding(crate::specs::Keys::key_text))]
pub fn print_key<K: Sink>(writer: &mut Writer<'_, K>, key: Key)
    ensures puts { Puts K.written K.faults writer.old writer.new (key_text key) }
{
    let bytes = padded_bytes(key);
    let len = key.len();
    if is_plain_padded(&bytes, len) {
        writer.text(&bytes[..len]);
    } else {
        writer.text(b"x:");
        writer.text(&hex_digits(&bytes)[..2 * len]);
    }
}

// A key and its value.
pub(crate) fn print_pair<K: Sink>(writer: &mut Writer<'_, K>, key: Key, value: u64)
    ensures puts { Puts K.written K.faults writer.old writer.new (pair_text (key, value)) }
{
    print_key(writer, key);
    writer.byte(b' ');
    writer.number(value);
}

// A text and a key.
pub(crate) fn print_word_and_key<K: Sink>(writer: &mut Writer<'_, K>, word: &[u8], key: Key)
    ensures puts { Puts K.written K.faults writer.old writer.new (word.now ++ key_text key) }
{
    writer.text(word);
    print_key(writer, key);
}

// A text, a key and its value.
pub(crate) fn print_word_and_pair<K: Sink>(
    writer: &mut Writer<'_, K>,
    word: &[u8],
    key: Key,
    value: u64,
)
    ensures puts { Puts K.written K.faults writer.old writer.new (word.now ++ pair_text (key, value)) }
{
    writer.text(word);
    print_pair(writer, key, value);
}

// A text and a key, twice.
pub(crate) fn print_two_keys<K: Sink>(
    writer: &mut Writer<'_, K>,
    word: &[u8],
    low: Key,
    gap: &[u8],
    high: Key,
)
    ensures puts { Puts K.written K.faults writer.old writer.new (word.now ++ key_text low ++ gap.now ++ key_text high) }
{
    print_word_and_key(writer, word, low);
    writer.text(gap);
    print_key(writer, high);
}
