//! What is printed of a run: the sessions' parts, the log and the map, or counts alone.

ghost use Rattle.std.specs.Prelude.{◌≤◌, All, length, map, sum_by, vec_len};
ghost use Rattle.ib_io.specs.Writer.{Puts};
ghost use Rattle.ib_io.specs.declared.line_kind.TheConstants.{MOST_SCRIPT_SESSIONS};
ghost use Rattle.ib_runs.specs.Answers.{IsWhole, answers_of};
ghost use Rattle.ib_script.specs.declared.script_line.TheConstants.{MOST_COMMANDS};
ghost use Rattle.ib_tool.specs.Counts.{count_line, count_of};

use crate::counting::{ReplyKind, count_of};
use ib_io::{Printed, Sink, Writer};
use ib_runs::{Ran, SessionOut, print_sessions};
use ib_text::{ChunkText, all_pairs, print_log, print_map};

/// A run of a script. Its text is what each session was answered, the log and the map in the end.
#[derive(Drop)]
pub struct RunText {
    /// What its sessions came to.
    pub ran: Ran,
    ghost few: { vec_len ran.sessions ≤ MOST_SCRIPT_SESSIONS },
    ghost whole: { All IsWhole ran.sessions.items },
}

impl Printed for RunText {
    ghost use Rattle.ib_runs.specs.Answers.{answers_of};
    ghost use Rattle.ib_text.specs.Output.{output_of};

    ghost text = { λ t. output_of (map answers_of t.ran.sessions.items) t.ran.history.items t.ran.map };

    fn print<K: Sink>(self, writer: &mut Writer<'_, K>) {
        print_sessions::<ChunkText, _>(writer, &self.ran.sessions);
        print_log(writer, &self.ran.history);
        print_map(writer, all_pairs(&self.ran.map));
    }
}

/// Bytes as they are.
#[derive(Drop)]
pub struct Bytes {
    pub bytes: Vec<u8>,
}

impl Printed for Bytes {
    ghost text = { λ t. t.bytes.items };

    fn print<K: Sink>(self, writer: &mut Writer<'_, K>) {
        writer.text(&self.bytes);
    }
}

// What is counted, and how often, on a line.
fn print_count<K: Sink>(writer: &mut Writer<'_, K>, name: &[u8], count: usize)
    ensures puts { Puts K.written K.faults writer.old writer.new (count_line name.now count) }
{
    writer.word_and_number(name, count as u64);
    writer.byte(b'\n');
}

// How often a kind of reply came to these sessions, behind its name on a line.
fn print_kind<K: Sink>(
    writer: &mut Writer<'_, K>,
    name: &[u8],
    kind: ReplyKind,
    sessions: &[SessionOut],
)
    requires { sum_by (λ out. length out.records) sessions.now ≤ MOST_COMMANDS }
    ensures puts { Puts K.written K.faults writer.old writer.new (count_line name.now (count_of kind (map answers_of sessions.now))) }
{
    print_count(writer, name, count_of(kind, sessions));
}

/// A run of a script. Its text is how often each reply came, and how many pairs the map has in the end.
#[derive(Drop)]
pub struct CountText {
    /// What its sessions came to.
    pub ran: Ran,
    ghost few: { sum_by (λ out. length out.records) ran.sessions.items ≤ MOST_COMMANDS },
}

impl Printed for CountText {
    ghost use Rattle.ib_runs.specs.Answers.{answers_of};
    ghost use Rattle.ib_tool.specs.Counts.{counts_of};

    ghost text = { λ t. counts_of (map answers_of t.ran.sessions.items) t.ran.map };

    fn print<K: Sink>(self, writer: &mut Writer<'_, K>) {
        let sessions = self.ran.sessions.as_slice();
        print_kind(writer, b"inserted ", ReplyKind::Inserted, sessions);
        print_kind(writer, b"duplicate ", ReplyKind::Duplicate, sessions);
        print_kind(writer, b"deleted ", ReplyKind::Deleted, sessions);
        print_kind(writer, b"missing ", ReplyKind::Missing, sessions);
        print_kind(writer, b"found ", ReplyKind::Found, sessions);
        print_kind(writer, b"none ", ReplyKind::NotFound, sessions);
        print_kind(writer, b"refused ", ReplyKind::Refused, sessions);
        print_count(writer, b"map ", all_pairs(&self.ran.map).len());
    }
}
