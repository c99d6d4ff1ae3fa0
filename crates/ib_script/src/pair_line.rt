//! What a line of a script of two trees says by itself.

ghost use Rattle.std.specs.Prelude.{◌≡◌, ◌∷◌, IfOk};
ghost use Rattle.ib_io.specs.Fields.{number_in, one_field, two_fields};
ghost use Rattle.ib_io.specs.Lines.{fields_behind};
ghost use Rattle.ib_script.specs.PairScript.{pair_reading_of, pair_reading_of_fields, primary_key_in};
ghost use Rattle.ib_script.specs.Script.{IsLineInRange};

use crate::reader::LineReader;
use crate::script_line::{ScriptLine, one_session, space_line, two_numbers};
use ib_io::{LineKind, first_field, is_skipped, number_in};
use ib_map::{Call, Key};
use ib_second_key::{is_primary, keys_of_value};
use ib_text::key_in;

// The key that a field is, where it is short enough to be found by its value.
fn primary_key_in(field: &[u8]) -> Result<Key, LineKind>
    ensures { result ≡ primary_key_in field.now }
{
    let key = key_in(field)?;
    if is_primary(key) {
        Ok(key)
    } else {
        Err(LineKind::Long)
    }
}

// One field, such a key.
fn one_primary_key(fields: Option<&[u8]>) -> Result<Key, LineKind>
    ensures { result ≡ one_field primary_key_in (fields_behind fields.entry) }
{
    let (field, rest) = first_field(fields.ok_or(LineKind::Fields)?);
    match rest {
        Some(_) => Err(LineKind::Fields),
        None => primary_key_in(field),
    }
}

// One field, a value.
fn one_value(fields: Option<&[u8]>) -> Result<u64, LineKind>
    ensures { result ≡ one_field number_in (fields_behind fields.entry) }
{
    let (field, rest) = first_field(fields.ok_or(LineKind::Fields)?);
    match rest {
        Some(_) => Err(LineKind::Fields),
        None => number_in(field),
    }
}

// Two fields, such a key and a value.
fn primary_key_and_value(fields: Option<&[u8]>) -> Result<(Key, u64), LineKind>
    ensures { result ≡ two_fields primary_key_in number_in (fields_behind fields.entry) }
{
    let (first, rest) = first_field(fields.ok_or(LineKind::Fields)?);
    let (second, rest) = first_field(rest.ok_or(LineKind::Fields)?);
    match rest {
        Some(_) => Err(LineKind::Fields),
        None => {
            let key = primary_key_in(first)?;
            let value = number_in(second)?;
            Ok((key, value))
        }
    }
}

// A line by its first field and those behind it.
fn reading_of_fields(word: &[u8], fields: Option<&[u8]>) -> Result<ScriptLine, LineKind>
    ensures reading { result ≡ pair_reading_of_fields (word.now ∷ fields_behind fields.entry) }
    ensures in_range { IfOk result IsLineInRange }
{
    if word == b"insert".as_slice() {
        let (key, value) = primary_key_and_value(fields)?;
        return Ok(ScriptLine::Command {
            call: Call::Insert { key, value },
        });
    }
    if word == b"delete".as_slice() {
        let key = one_primary_key(fields)?;
        return Ok(ScriptLine::Command {
            call: Call::Delete { key },
        });
    }
    if word == b"get".as_slice() {
        let key = one_primary_key(fields)?;
        return Ok(ScriptLine::Command {
            call: Call::Get { key },
        });
    }
    if word == b"value".as_slice() {
        let (low, high) = keys_of_value(one_value(fields)?);
        return Ok(ScriptLine::Command {
            call: Call::Scan { low, high },
        });
    }
    if word == b"session".as_slice() {
        let number = one_session(fields)?;
        return Ok(ScriptLine::Session { number });
    }
    if word == b"space".as_slice() {
        let (pages, log_words) = two_numbers(fields)?;
        return space_line(pages, log_words);
    }
    Err(LineKind::Word)
}

/// The reading of scripts of two trees: `value V` stands in place of `scan L H`, and a key has 7 bytes at most. A `value V` is the
/// scan of the second keys of V.
#[derive(Clone, Copy, Debug)]
pub struct PairLines;

impl LineReader for PairLines {
    ghost use Rattle.ib_script.specs.PairScript.{pair_reading_of};

    ghost reading = { pair_reading_of };

    fn read(line: &[u8]) -> Result<ScriptLine, LineKind> {
        if is_skipped(line) {
            return Ok(ScriptLine::Skipped);
        }
        let (word, fields) = first_field(line);
        reading_of_fields(word, fields)
    }
}
