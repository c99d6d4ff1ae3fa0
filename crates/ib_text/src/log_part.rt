//! The log as text, whatever keeps it.

ghost use Rattle.std.specs.Prelude.{◌≡◌, ◌<◌, Some, flat_map, length, slice_get};
ghost use Rattle.ib_io.specs.Writer.{Puts};
ghost use Rattle.ib_map.specs.History.{History};
ghost use Rattle.ib_text.specs.Output.{change_text, log_line, log_text};

use crate::key::{print_word_and_key, print_word_and_pair};
use ib_io::{Sink, Writer};
use ib_map::{Change, LoggedChange};

/// What keeps logged changes in order.
pub trait ChangeLog {
    ghost changes: { Self → History };

    /// How many there are.
    fn count(&self) -> usize
        ensures { result ≡ length (changes self.now) };

    /// The one at this place.
    fn change(&self, place: usize) -> LoggedChange
        requires { place < length (changes self.now) }
        ensures { slice_get (changes self.now) place ≡ Some result };
}

impl ChangeLog for Vec<LoggedChange> {
    ghost changes = { λ log. log.items };

    fn count(&self) -> usize {
        self.len()
    }

    fn change(&self, place: usize) -> LoggedChange {
        self[place]
    }
}

fn print_change<K: Sink>(writer: &mut Writer<'_, K>, change: Change)
    ensures puts { Puts K.written K.faults writer.old writer.new (change_text change) }
{
    match change {
        Change::Insert { key, value } => print_word_and_pair(writer, b"insert ", key, value),
        Change::Delete { key } => print_word_and_key(writer, b"delete ", key),
    }
}

// `SESSION NUMBER insert K V` or `SESSION NUMBER delete K` on a line.
fn print_log_line<K: Sink>(writer: &mut Writer<'_, K>, entry: LoggedChange)
    ensures puts { Puts K.written K.faults writer.old writer.new (log_line entry) }
{
    writer.number(u64::from(entry.session));
    writer.byte(b' ');
    writer.number(u64::from(entry.number));
    writer.byte(b' ');
    print_change(writer, entry.change);
    writer.byte(b'\n');
}

fn print_log_lines<K: Sink, L: ChangeLog>(writer: &mut Writer<'_, K>, log: &L)
    ensures puts { Puts K.written K.faults writer.old writer.new (flat_map log_line (L.changes log.now)) }
{
    for place in 0..log.count() {
        print_log_line(writer, log.change(place));
    }
}

/// The log part: `log N`, and then a line for each of the N changes.
pub fn print_log<K: Sink, L: ChangeLog>(writer: &mut Writer<'_, K>, log: &L)
    ensures puts { Puts K.written K.faults writer.old writer.new (log_text (L.changes log.now)) }
{
    writer.word_and_number(b"log ", log.count() as u64);
    writer.byte(b'\n');
    print_log_lines(writer, log);
}
