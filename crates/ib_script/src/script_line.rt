//! What a line of a script says by itself.

ghost use Rattle.std.specs.Prelude.{◌≡◌, ◌≤◌, ◌∷◌, ◌&&◌, IfOk, IsTrue, Ok, SomeIff};
ghost use Rattle.ib_layout.specs.Geometry.{has_log};
ghost use Rattle.ib_map.specs.Space.{has_pages};
ghost use Rattle.ib_io.specs.Fields.{number_in, one_field, session_in, two_fields};
ghost use Rattle.ib_io.specs.declared.line_kind.TheConstants.{MOST_SCRIPT_SESSIONS};
ghost use Rattle.ib_io.specs.Lines.{fields_behind};
ghost use Rattle.ib_text.specs.Keys.{key_in};
ghost use Rattle.ib_script.specs.Script.{IsLineInRange, asks_scan, reading_of, reading_of_fields, space_line};
ghost use Rattle.ib_script.specs.declared.script_line.ScriptLine.TheVariants.{Command};

use ib_io::{LineKind, first_field, is_skipped, number_in, session_in};
use ib_layout::Geometry;
use ib_map::{Call, Key};
use ib_text::key_in;

/// How many commands a script may have.
pub const MOST_COMMANDS: u32 = 1_000_000;

const _: () = prove!(MOST_COMMANDS == 1_000_000);

/// How many of its commands may be scans.
pub const MOST_SCANS: u32 = 100_000;

const _: () = prove!(MOST_SCANS == 100_000);

/// What one line of a script says.
#[derive(Clone, Copy, Debug, PartialEq, Eq)]
pub enum ScriptLine {
    /// It is empty, or begins with `#`.
    Skipped,
    /// How large the space is.
    Space { geometry: Geometry },
    /// The following commands are this session's.
    Session { number: u32 },
    /// A command of the present session.
    Command { call: Call },
}

// One field, a key.
#[inline(always)]
fn one_key(fields: Option<&[u8]>) -> Result<Key, LineKind>
    ensures { result ≡ one_field key_in (fields_behind fields.entry) }
{
    let (field, rest) = first_field(fields.ok_or(LineKind::Fields)?);
    match rest {
        Some(_) => Err(LineKind::Fields),
        None => key_in(field),
    }
}

// One field, a session.
pub(crate) fn one_session(fields: Option<&[u8]>) -> Result<u32, LineKind>
    ensures session { result ≡ one_field session_in (fields_behind fields.entry) }
    ensures in_range { IfOk result (λ session. (1 ≤ session) × (session ≤ MOST_SCRIPT_SESSIONS)) }
{
    let (field, rest) = first_field(fields.ok_or(LineKind::Fields)?);
    match rest {
        Some(_) => Err(LineKind::Fields),
        None => session_in(field),
    }
}

// Two fields, both keys.
fn two_keys(fields: Option<&[u8]>) -> Result<(Key, Key), LineKind>
    ensures { result ≡ two_fields key_in key_in (fields_behind fields.entry) }
{
    let (first, rest) = first_field(fields.ok_or(LineKind::Fields)?);
    let (second, rest) = first_field(rest.ok_or(LineKind::Fields)?);
    match rest {
        Some(_) => Err(LineKind::Fields),
        None => {
            let first = key_in(first)?;
            let second = key_in(second)?;
            Ok((first, second))
        }
    }
}

// Two fields, a key and a value.
#[inline(always)]
fn key_and_value(fields: Option<&[u8]>) -> Result<(Key, u64), LineKind>
    ensures { result ≡ two_fields key_in number_in (fields_behind fields.entry) }
{
    let (first, rest) = first_field(fields.ok_or(LineKind::Fields)?);
    let (second, rest) = first_field(rest.ok_or(LineKind::Fields)?);
    match rest {
        Some(_) => Err(LineKind::Fields),
        None => {
            let key = key_in(first)?;
            let value = number_in(second)?;
            Ok((key, value))
        }
    }
}

// Two fields, both numbers.
pub(crate) fn two_numbers(fields: Option<&[u8]>) -> Result<(u64, u64), LineKind>
    ensures { result ≡ two_fields number_in number_in (fields_behind fields.entry) }
{
    let (first, rest) = first_field(fields.ok_or(LineKind::Fields)?);
    let (second, rest) = first_field(rest.ok_or(LineKind::Fields)?);
    match rest {
        Some(_) => Err(LineKind::Fields),
        None => {
            let first = number_in(first)?;
            let second = number_in(second)?;
            Ok((first, second))
        }
    }
}

fn geometry_of(pages: u64, log_words: u64) -> Option<Geometry>
    ensures { SomeIff result (IsTrue (has_pages pages && has_log log_words)) (record { pages = pages; log_words = log_words }) }
{
    let pages = u32::try_from(pages).ok()?;
    let log_words = u32::try_from(log_words).ok()?;
    Geometry::new(pages, log_words).ok()
}

pub(crate) fn space_line(pages: u64, log_words: u64) -> Result<ScriptLine, LineKind>
    ensures reading { result ≡ space_line (pages, log_words) }
    ensures in_range { IfOk result IsLineInRange }
{
    match geometry_of(pages, log_words) {
        Some(geometry) => Ok(ScriptLine::Space { geometry }),
        None => Err(LineKind::Space),
    }
}

// A line by its first field and those behind it.
#[inline(always)]
fn reading_of_fields(word: &[u8], fields: Option<&[u8]>) -> Result<ScriptLine, LineKind>
    ensures reading { result ≡ reading_of_fields (word.now ∷ fields_behind fields.entry) }
    ensures in_range { IfOk result IsLineInRange }
{
    if word == b"insert".as_slice() {
        let (key, value) = key_and_value(fields)?;
        return Ok(ScriptLine::Command {
            call: Call::Insert { key, value },
        });
    }
    if word == b"delete".as_slice() {
        let key = one_key(fields)?;
        return Ok(ScriptLine::Command {
            call: Call::Delete { key },
        });
    }
    if word == b"get".as_slice() {
        let key = one_key(fields)?;
        return Ok(ScriptLine::Command {
            call: Call::Get { key },
        });
    }
    if word == b"scan".as_slice() {
        let (low, high) = two_keys(fields)?;
        return Ok(ScriptLine::Command {
            call: Call::Scan { low, high },
        });
    }
    if word == b"session".as_slice() {
        let number = one_session(fields)?;
        return Ok(ScriptLine::Session { number });
    }
    if word == b"space".as_slice() {
        let (pages, log_words) = two_numbers(fields)?;
        return space_line(pages, log_words);
    }
    Err(LineKind::Word)
}

/// What a line, without its line feed, says by itself, or the first thing that is wrong with it: its word, how many
/// fields it has, then each field from left to right, and last the sizes of a space.
#[inline(always)]
pub fn reading_of(line: &[u8]) -> Result<ScriptLine, LineKind>
    ensures reading { result ≡ reading_of line.now }
    ensures in_range { IfOk result IsLineInRange }
{
    if is_skipped(line) {
        return Ok(ScriptLine::Skipped);
    }
    let (word, fields) = first_field(line);
    reading_of_fields(word, fields)
}

pub fn is_scan(call: Call) -> bool
    ensures { result ≡ asks_scan call }
{
    matches!(call, Call::Scan { .. })
}
