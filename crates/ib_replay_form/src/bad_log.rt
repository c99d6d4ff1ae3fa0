//! The line that tells why a raw log is refused.

ghost use Rattle.std.specs.Prelude.{◌≡◌, ◌++◌, codes, decimal};
ghost use Rattle.ib_io.specs.Told.{HasTold, IsOutOfMemoryWhere, Told};
ghost use Rattle.ib_io.specs.Writer.{Puts};
ghost use Rattle.ib_replay_form.specs.Answers.{OwesLogFault};
ghost use Rattle.ib_replay_form.specs.Replaying.{bad_log_line, full_text, log_fault_text, unlawful_text, word_text};

use ib_io::{Printed, Sink, Status, Writer, tell};
use ib_logrec::{FullKind, LogFault, UnlawfulKind};

// A place, and the word that is wrong there.
fn print_word<K: Sink>(writer: &mut Writer<'_, K>, what: &[u8], place: u32, word: u64)
    ensures puts { Puts K.written K.faults writer.old writer.new (what.now ++ word_text place word) }
{
    writer.two_numbers(what, u64::from(place), b" word ", word);
}

fn unlawful_word(kind: UnlawfulKind) -> &'static [u8]
    ensures { result.now ≡ unlawful_text kind }
{
    match kind {
        UnlawfulKind::Number => b" number",
        UnlawfulKind::Change => b" change",
        UnlawfulKind::Tree => b" tree",
    }
}

fn print_unlawful<K: Sink>(writer: &mut Writer<'_, K>, place: u32, kind: UnlawfulKind)
    ensures puts { Puts K.written K.faults writer.old writer.new (codes "unlawful at " ++ decimal place ++ unlawful_text kind) }
{
    writer.word_and_number(b"unlawful at ", u64::from(place));
    writer.text(unlawful_word(kind));
}

fn full_word(why: FullKind) -> &'static [u8]
    ensures { result.now ≡ full_text why }
{
    match why {
        FullKind::High => b" high",
        FullKind::Space => b" space",
    }
}

fn print_full<K: Sink>(writer: &mut Writer<'_, K>, place: u32, why: FullKind)
    ensures puts { Puts K.written K.faults writer.old writer.new (codes "cannot plan at " ++ decimal place ++ full_text why) }
{
    writer.word_and_number(b"cannot plan at ", u64::from(place));
    writer.text(full_word(why));
}

/// A fault of a log, as it stands behind `bad log: `.
pub fn print_fault<K: Sink>(writer: &mut Writer<'_, K>, fault: LogFault)
    ensures puts { Puts K.written K.faults writer.old writer.new (log_fault_text fault) }
{
    match fault {
        LogFault::OddLength { bytes } => writer.word_and_number(b"odd length ", bytes as u64),
        LogFault::Short { place } => writer.word_and_number(b"short at ", u64::from(place)),
        LogFault::BadHead { place, word } => print_word(writer, b"head at ", place, word),
        LogFault::BadWrite { place, word } => print_word(writer, b"write at ", place, word),
        LogFault::Outside { place, word } => print_word(writer, b"outside at ", place, word),
        LogFault::BadFile { at, word } => print_word(writer, b"file at ", at, word),
        LogFault::Unlawful { place, kind } => print_unlawful(writer, place, kind),
        LogFault::CannotPlan { place, why } => print_full(writer, place, why),
        LogFault::OutOfMemory => writer.text(b"out of memory"),
    }
}

// Why a raw log is refused. Its text is `bad log: ` and the fault.
#[derive(Drop)]
struct BadLog {
    fault: LogFault,
}

impl Printed for BadLog {
    ghost use Rattle.ib_replay_form.specs.Replaying.{bad_log_line};

    ghost text = { λ bad. bad_log_line bad.fault };

    fn print<K: Sink>(self, writer: &mut Writer<'_, K>) {
        writer.text(b"bad log: ");
        print_fault(writer, self.fault);
        writer.byte(b'\n');
    }
}

/// Writes where a raw log is refused, and why; want of memory is no fault of a log.
pub fn refuse<K: Sink>(sink: &mut K, fault: LogFault) -> Status
    ensures { HasTold K.written K.faults (Told (OwesLogFault fault) (IsOutOfMemoryWhere (fault ≡ LogFault.OutOfMemory))) sink.old sink.new result }
{
    match fault {
        LogFault::OutOfMemory => Status::Memory,
        _ => tell(sink, BadLog { fault }, Status::BadLog),
    }
}
