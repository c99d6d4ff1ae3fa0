//! Lines of an input, and fields of a line.

ghost use Rattle.std.specs.Prelude.{◌≡◌, ◌<◌, ◌∷◌, [], length, MatchOption};
ghost use Rattle.ib_io.specs.Lines.{lines_of, fields_of, is_skipped};

use crate::place::place_of;

/// The first line of a text that is not empty, and what follows it.
pub fn first_line(text: &[u8]) -> (&[u8], &[u8])
    requires { 0 < length text.now }
    ensures line { lines_of text.now ≡ result.0.now ∷ lines_of result.1.now }
    ensures shorter { length result.1.now < length text.now }
{
    match place_of(b'\n', text) {
        Some(end) => (&text[..end], &text[end + 1..]),
        None => (text, &[]),
    }
}

/// The first field of a line, and the fields that follow it, where there are any.
pub fn first_field(line: &[u8]) -> (&[u8], Option<&[u8]>)
    ensures { MatchOption result.1 (fields_of line.now ≡ result.0.now ∷ []) (λ rest. fields_of line.now ≡ result.0.now ∷ fields_of rest.now) }
{
    match place_of(b' ', line) {
        Some(end) => (&line[..end], Some(&line[end + 1..])),
        None => (line, None),
    }
}

/// Whether a line says nothing: it is empty, or begins with `#`.
pub fn is_skipped(line: &[u8]) -> bool
    ensures { result ≡ is_skipped line.now }
{
    match line {
        [] => true,
        [first, ..] => *first == b'#',
    }
}
