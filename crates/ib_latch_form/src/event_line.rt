//! What a line of events says by itself.

ghost use Rattle.std.specs.Prelude.{◌≡◌, ◌∷◌};
ghost use Rattle.ib_io.specs.Fields.{one_field, two_fields};
ghost use Rattle.ib_latch_form.specs.Events.{event_of, event_on_latch, event_reading_of, event_reading_of_fields, event_word, latch_in, latch_in_mode, level_in, mode_in, waiting_word};
ghost use Rattle.ib_io.specs.Lines.{fields_behind};

use ib_core::Event;
use ib_io::{LineKind, first_field, is_skipped, number_in, session_in};
use ib_levels::{Level, Mode};

/// The greatest number of a latch that an event may be about.
pub const MOST_LATCH: u32 = 15;

const _: () = prove!(MOST_LATCH == 15);

/// The most events that are read.
pub const MOST_EVENTS: u32 = 1_000_000;

const _: () = prove!(MOST_EVENTS == 1_000_000);

/// The word of an event that names a latch and nothing else.
#[derive(Clone, Copy, Debug, PartialEq, Eq)]
pub enum LatchEventWord {
    /// `us`: gives S back.
    Us,
    /// `usx`: gives one SX back.
    Usx,
    /// `ux`: gives one X back.
    Ux,
    /// `flag`: sets the waiters flag.
    Flag,
    /// `again`: tries once more, before it sleeps.
    Again,
    /// `quit`: gives up waiting.
    Quit,
    /// `sleep`: looks at the generation, before it sleeps or when it was woken.
    Sleep,
    /// `ready`: as next writer, looks whether the readers are gone.
    Ready,
    /// `exarm`: as next writer, records the ex generation.
    Exarm,
    /// `look`: looks at the waiters flag, after a release.
    Look,
    /// `clear`: clears the waiters flag.
    Clear,
    /// `raise`: raises the generation that it owes.
    Raise,
}

/// An event's word.
#[derive(Clone, Copy, Debug, PartialEq, Eq)]
pub enum EventWord {
    /// `s`: takes S, at a level.
    S,
    /// `sx`: takes SX, at a level.
    Sx,
    /// `x`: takes X, at a level.
    X,
    /// `arm`: records the generation, before it sleeps for a mode at a level.
    Arm,
    /// An event that names a latch and nothing else.
    OnLatch(LatchEventWord),
}

/// What one line of events says.
#[derive(Clone, Copy, Debug, PartialEq, Eq)]
pub enum EventLine {
    /// It is empty, or begins with `#`.
    Skipped,
    /// An event of a session.
    Event { session: u32, event: Event },
}

fn latch_in(field: &[u8]) -> Result<u32, LineKind>
    ensures { result ≡ latch_in field.now }
{
    let latch = number_in(field)?;
    match u32::try_from(latch) {
        Ok(latch @ 0..=MOST_LATCH) => Ok(latch),
        _ => Err(LineKind::Latch),
    }
}

fn level_in(field: &[u8]) -> Result<Level, LineKind>
    ensures { result ≡ level_in field.now }
{
    let number = number_in(field)?;
    match u32::try_from(number) {
        Ok(number) => Level::from_number(number).ok_or(LineKind::Level),
        Err(_) => Err(LineKind::Level),
    }
}

fn mode_in(field: &[u8]) -> Result<Mode, LineKind>
    ensures { result ≡ mode_in field.now }
{
    if field == b"s".as_slice() {
        return Ok(Mode::S);
    }
    if field == b"sx".as_slice() {
        return Ok(Mode::Sx);
    }
    if field == b"x".as_slice() {
        return Ok(Mode::X);
    }
    Err(LineKind::Word)
}

// The latch of an event on a latch alone.
fn latch_alone(fields: Option<&[u8]>) -> Result<u32, LineKind>
    ensures { result ≡ one_field latch_in (fields_behind fields.entry) }
{
    let (latch, rest) = first_field(fields.ok_or(LineKind::Fields)?);
    match rest {
        Some(_) => Err(LineKind::Fields),
        None => latch_in(latch),
    }
}

// The latch and the level of an event.
fn latch_at_level(fields: Option<&[u8]>) -> Result<(u32, Level), LineKind>
    ensures { result ≡ two_fields latch_in level_in (fields_behind fields.entry) }
{
    let (latch, rest) = first_field(fields.ok_or(LineKind::Fields)?);
    let (level, rest) = first_field(rest.ok_or(LineKind::Fields)?);
    match rest {
        Some(_) => Err(LineKind::Fields),
        None => {
            let latch = latch_in(latch)?;
            let level = level_in(level)?;
            Ok((latch, level))
        }
    }
}

// The latch, the mode and the level of an event.
fn latch_in_mode(fields: Option<&[u8]>) -> Result<(u32, Mode, Level), LineKind>
    ensures { result ≡ latch_in_mode (fields_behind fields.entry) }
{
    let (latch, rest) = first_field(fields.ok_or(LineKind::Fields)?);
    let (mode, rest) = first_field(rest.ok_or(LineKind::Fields)?);
    let (level, rest) = first_field(rest.ok_or(LineKind::Fields)?);
    match rest {
        Some(_) => Err(LineKind::Fields),
        None => {
            let latch = latch_in(latch)?;
            let mode = mode_in(mode)?;
            let level = level_in(level)?;
            Ok((latch, mode, level))
        }
    }
}

// The words of the steps of waiting and signalling.
fn waiting_word(word: &[u8]) -> Result<LatchEventWord, LineKind>
    ensures { result ≡ waiting_word word.now }
{
    if word == b"flag".as_slice() {
        return Ok(LatchEventWord::Flag);
    }
    if word == b"again".as_slice() {
        return Ok(LatchEventWord::Again);
    }
    if word == b"quit".as_slice() {
        return Ok(LatchEventWord::Quit);
    }
    if word == b"sleep".as_slice() {
        return Ok(LatchEventWord::Sleep);
    }
    if word == b"ready".as_slice() {
        return Ok(LatchEventWord::Ready);
    }
    if word == b"exarm".as_slice() {
        return Ok(LatchEventWord::Exarm);
    }
    if word == b"look".as_slice() {
        return Ok(LatchEventWord::Look);
    }
    if word == b"clear".as_slice() {
        return Ok(LatchEventWord::Clear);
    }
    if word == b"raise".as_slice() {
        return Ok(LatchEventWord::Raise);
    }
    Err(LineKind::Word)
}

fn event_word(word: &[u8]) -> Result<EventWord, LineKind>
    ensures { result ≡ event_word word.now }
{
    if word == b"s".as_slice() {
        return Ok(EventWord::S);
    }
    if word == b"sx".as_slice() {
        return Ok(EventWord::Sx);
    }
    if word == b"x".as_slice() {
        return Ok(EventWord::X);
    }
    if word == b"us".as_slice() {
        return Ok(EventWord::OnLatch(LatchEventWord::Us));
    }
    if word == b"usx".as_slice() {
        return Ok(EventWord::OnLatch(LatchEventWord::Usx));
    }
    if word == b"ux".as_slice() {
        return Ok(EventWord::OnLatch(LatchEventWord::Ux));
    }
    if word == b"arm".as_slice() {
        return Ok(EventWord::Arm);
    }
    Ok(EventWord::OnLatch(waiting_word(word)?))
}

// An event on a latch alone, by its word.
fn event_on_latch(word: LatchEventWord, latch: u32) -> Event
    ensures { result ≡ event_on_latch word latch }
{
    match word {
        LatchEventWord::Us => Event::Us { latch },
        LatchEventWord::Usx => Event::Usx { latch },
        LatchEventWord::Ux => Event::Ux { latch },
        LatchEventWord::Flag => Event::Flag { latch },
        LatchEventWord::Again => Event::Again { latch },
        LatchEventWord::Quit => Event::Quit { latch },
        LatchEventWord::Sleep => Event::Sleep { latch },
        LatchEventWord::Ready => Event::Ready { latch },
        LatchEventWord::Exarm => Event::Exarm { latch },
        LatchEventWord::Look => Event::Look { latch },
        LatchEventWord::Clear => Event::Clear { latch },
        LatchEventWord::Raise => Event::Raise { latch },
    }
}

// An event by its word and the fields behind it.
fn event_of(word: EventWord, fields: Option<&[u8]>) -> Result<Event, LineKind>
    ensures { result ≡ event_of word (fields_behind fields.entry) }
{
    match word {
        EventWord::S => {
            let (latch, level) = latch_at_level(fields)?;
            Ok(Event::S { latch, level })
        }
        EventWord::Sx => {
            let (latch, level) = latch_at_level(fields)?;
            Ok(Event::Sx { latch, level })
        }
        EventWord::X => {
            let (latch, level) = latch_at_level(fields)?;
            Ok(Event::X { latch, level })
        }
        EventWord::Arm => {
            let (latch, mode, level) = latch_in_mode(fields)?;
            Ok(Event::Arm { latch, mode, level })
        }
        EventWord::OnLatch(word) => {
            let latch = latch_alone(fields)?;
            Ok(event_on_latch(word, latch))
        }
    }
}

// A line that is not skipped, by its first field and those behind it.
fn reading_of_fields(first: &[u8], fields: Option<&[u8]>) -> Result<EventLine, LineKind>
    ensures { result ≡ event_reading_of_fields (first.now ∷ fields_behind fields.entry) }
{
    let (word, fields) = first_field(fields.ok_or(LineKind::Fields)?);
    let session = session_in(first)?;
    let word = event_word(word)?;
    let event = event_of(word, fields)?;
    Ok(EventLine::Event { session, event })
}

/// What a line of events, without its line feed, says by itself, or what is wrong with it, tested from left to right:
/// `N EVENT L`, with a level behind the latch for `s`, `sx` and `x`, and a mode and a level for `arm`.
pub fn event_reading_of(line: &[u8]) -> Result<EventLine, LineKind>
    ensures { result ≡ event_reading_of line.now }
{
    if is_skipped(line) {
        return Ok(EventLine::Skipped);
    }
    let (first, fields) = first_field(line);
    reading_of_fields(first, fields)
}
