//! The line of an event, its answer and its latch's word.

ghost use Rattle.std.specs.Prelude.{◌++◌, codes, decimal};
ghost use Rattle.std.specs.Fmt.{signed_decimal};
ghost use Rattle.ib_latch_form.specs.EventText.{answer_text, event_line, flag_text, level_text, mode_text, refusal_text, step_text};
ghost use Rattle.ib_io.specs.Writer.{Puts};

use ib_core::{Answer, Event, Refusal};
use ib_io::{Sink, Writer};
use ib_levels::{Level, Mode};
use ib_word::LockWord;

fn print_mode<K: Sink>(writer: &mut Writer<'_, K>, mode: Mode)
    ensures puts { Puts K.written K.faults writer.old writer.new (mode_text mode) }
{
    match mode {
        Mode::S => writer.text(b"s"),
        Mode::Sx => writer.text(b"sx"),
        Mode::X => writer.text(b"x"),
    }
}

fn print_level<K: Sink>(writer: &mut Writer<'_, K>, level: Level)
    ensures puts { Puts K.written K.faults writer.old writer.new (level_text level) }
{
    writer.number(u64::from(level.number()));
}

// A word and the number of a latch.
fn print_on_latch<K: Sink>(writer: &mut Writer<'_, K>, word: &[u8], latch: u32)
    ensures puts { Puts K.written K.faults writer.old writer.new (word.now ++ decimal latch) }
{
    writer.word_and_number(word, u64::from(latch));
}

// A word, the number of a latch and a level.
fn print_at_level<K: Sink>(writer: &mut Writer<'_, K>, word: &[u8], latch: u32, level: Level)
    ensures puts { Puts K.written K.faults writer.old writer.new (word.now ++ decimal latch ++ codes " " ++ level_text level) }
{
    print_on_latch(writer, word, latch);
    writer.byte(b' ');
    print_level(writer, level);
}

fn print_step<K: Sink>(writer: &mut Writer<'_, K>, event: Event)
    ensures puts { Puts K.written K.faults writer.old writer.new (step_text event) }
{
    match event {
        Event::S { latch, level } => print_at_level(writer, b"s ", latch, level),
        Event::Sx { latch, level } => print_at_level(writer, b"sx ", latch, level),
        Event::X { latch, level } => print_at_level(writer, b"x ", latch, level),
        Event::Us { latch } => print_on_latch(writer, b"us ", latch),
        Event::Usx { latch } => print_on_latch(writer, b"usx ", latch),
        Event::Ux { latch } => print_on_latch(writer, b"ux ", latch),
        Event::Arm { latch, mode, level } => {
            print_on_latch(writer, b"arm ", latch);
            writer.byte(b' ');
            print_mode(writer, mode);
            writer.byte(b' ');
            print_level(writer, level);
        }
        Event::Flag { latch } => print_on_latch(writer, b"flag ", latch),
        Event::Again { latch } => print_on_latch(writer, b"again ", latch),
        Event::Quit { latch } => print_on_latch(writer, b"quit ", latch),
        Event::Sleep { latch } => print_on_latch(writer, b"sleep ", latch),
        Event::Ready { latch } => print_on_latch(writer, b"ready ", latch),
        Event::Exarm { latch } => print_on_latch(writer, b"exarm ", latch),
        Event::Look { latch } => print_on_latch(writer, b"look ", latch),
        Event::Clear { latch } => print_on_latch(writer, b"clear ", latch),
        Event::Raise { latch } => print_on_latch(writer, b"raise ", latch),
    }
}

// The word in decimal, behind a minus sign where it is below 0.
fn print_lock_word<K: Sink>(writer: &mut Writer<'_, K>, word: LockWord)
    ensures puts { Puts K.written K.faults writer.old writer.new (signed_decimal word.0) }
{
    writer.signed(word.0);
}

// A text and a lock word.
fn print_text_and_word<K: Sink>(writer: &mut Writer<'_, K>, text: &[u8], word: LockWord)
    ensures puts { Puts K.written K.faults writer.old writer.new (text.now ++ signed_decimal word.0) }
{
    writer.text(text);
    print_lock_word(writer, word);
}

// A text and whether the waiters flag is set, 1 or 0.
fn print_text_and_flag<K: Sink>(writer: &mut Writer<'_, K>, text: &[u8], is_set: bool)
    ensures puts { Puts K.written K.faults writer.old writer.new (text.now ++ flag_text is_set) }
{
    writer.text(text);
    writer.byte(if is_set { b'1' } else { b'0' });
}

fn print_refusal<K: Sink>(writer: &mut Writer<'_, K>, refusal: Refusal)
    ensures puts { Puts K.written K.faults writer.old writer.new (refusal_text refusal) }
{
    match refusal {
        Refusal::OutOfTurn => writer.text(b"out of turn"),
        Refusal::HeldAlready => writer.text(b"held already"),
        Refusal::NotHeld => writer.text(b"not held"),
        Refusal::Against { held, wanted } => {
            writer.text(b"against ");
            print_level(writer, held);
            writer.byte(b' ');
            print_level(writer, wanted);
        }
    }
}

fn print_answer<K: Sink>(writer: &mut Writer<'_, K>, answer: Answer)
    ensures puts { Puts K.written K.faults writer.old writer.new (answer_text answer) }
{
    match answer {
        Answer::Granted => writer.text(b"granted"),
        Answer::Reserved => writer.text(b"reserved"),
        Answer::Busy { word } => print_text_and_word(writer, b"busy ", word),
        Answer::NotReady { word } => print_text_and_word(writer, b"not ready ", word),
        Answer::Released => writer.text(b"released"),
        Answer::Armed { generation } => writer.word_and_number(b"armed ", generation),
        Answer::Flagged => writer.text(b"flagged"),
        Answer::Asleep { generation } => writer.word_and_number(b"asleep ", generation),
        Answer::Awake { generation } => writer.word_and_number(b"awake ", generation),
        Answer::Looked { waiters } => print_text_and_flag(writer, b"waiters ", waiters),
        Answer::Cleared { was } => print_text_and_flag(writer, b"cleared ", was),
        Answer::Signalled { generation } => writer.word_and_number(b"signalled ", generation),
        Answer::Quit => writer.text(b"quit"),
        Answer::Refused(refusal) => {
            writer.text(b"refused ");
            print_refusal(writer, refusal);
        }
    }
}

/// An event of a session as it was read, what came of it, and the latch's lock word
/// afterwards, on a line: `1 x 0 4 -> granted, word 0`. Levels are printed as their numbers.
pub fn print_event_line<K: Sink>(
    writer: &mut Writer<'_, K>,
    session: u32,
    event: Event,
    answer: Answer,
    word: LockWord,
)
    ensures puts { Puts K.written K.faults writer.old writer.new (event_line session event answer word.0) }
{
    writer.number(u64::from(session));
    writer.byte(b' ');
    print_step(writer, event);
    writer.text(b" -> ");
    print_answer(writer, answer);
    writer.text(b", word ");
    print_lock_word(writer, word);
    writer.byte(b'\n');
}
