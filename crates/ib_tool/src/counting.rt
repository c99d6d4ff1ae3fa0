//! How often each reply came.

ghost use Rattle.std.specs.Prelude.{◌≡◌, ◌≤◌, count_by, length, map, sum_by};
ghost use Rattle.ib_runs.specs.Answers.{answers_of};
ghost use Rattle.ib_script.specs.declared.script_line.TheConstants.{MOST_COMMANDS};
ghost use Rattle.ib_tool.specs.Counts.{count_of, is_of};

use ib_map::{Record, Reply};
use ib_runs::SessionOut;
use ib_script::MOST_COMMANDS;

/// What is counted of replies.
#[derive(Clone, Copy, Debug, PartialEq, Eq)]
pub enum ReplyKind {
    /// An insert's: the pair is in the map now.
    Inserted,
    /// An insert's: the key was there.
    Duplicate,
    /// A delete's, with the value that the key had.
    Deleted,
    /// A delete's: the key was not there.
    Missing,
    /// A lookup's, with the key's value.
    Found,
    /// A lookup's: the key was not there.
    NotFound,
    /// A change's: for a full log, a full space or a tree too high.
    Refused,
}

impl ReplyKind {
    fn is_of(self, reply: Reply) -> bool
        ensures { result ≡ is_of self reply }
    {
        match self {
            ReplyKind::Inserted => matches!(reply, Reply::Inserted),
            ReplyKind::Duplicate => matches!(reply, Reply::Duplicate),
            ReplyKind::Deleted => matches!(reply, Reply::Deleted { .. }),
            ReplyKind::Missing => matches!(reply, Reply::Missing),
            ReplyKind::Found => matches!(reply, Reply::Found { .. }),
            ReplyKind::NotFound => matches!(reply, Reply::NotFound),
            ReplyKind::Refused => matches!(
                reply,
                Reply::LogFull { .. } | Reply::SpaceFull { .. } | Reply::TooHigh
            ),
        }
    }
}

// How often it came to one session.
fn count_in(kind: ReplyKind, records: &[Record]) -> usize
    ensures count { result ≡ count_by (λ r. is_of kind r.reply) records.now }
    ensures few { result ≤ length records.now }
{
    let mut count = 0;
    for record in records {
        if kind.is_of(record.reply) {
            count += 1;
        }
    }
    count
}

/// How often it came to these sessions.
pub fn count_of(kind: ReplyKind, sessions: &[SessionOut]) -> usize
    requires { sum_by (λ out. length out.records) sessions.now ≤ MOST_COMMANDS }
    ensures { result ≡ count_of kind (map answers_of sessions.now) }
{
    let mut count = 0;
    for out in sessions {
        count += count_in(kind, out.records());
    }
    count
}
