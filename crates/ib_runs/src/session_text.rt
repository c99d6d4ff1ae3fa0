//! What the sessions of a script were answered, as text.

ghost use Rattle.std.specs.Prelude.{◌≤◌, All, length, map};
ghost use Rattle.ib_io.specs.Writer.{Puts};
ghost use Rattle.ib_io.specs.declared.line_kind.TheConstants.{MOST_SCRIPT_SESSIONS};
ghost use Rattle.ib_text.specs.Output.{sessions_from_by};
ghost use Rattle.ib_runs.specs.Answers.{IsWhole, answers_of};

use crate::session_out::SessionOut;
use ib_io::{Sink, Writer};
use ib_text::{ScanText, print_session};

/// The parts of a script's sessions, numbered from 1 on, with what each was answered told as `T` says; nothing of one
/// that has no command.
pub fn print_sessions<T: ScanText, K: Sink>(writer: &mut Writer<'_, K>, sessions: &[SessionOut])
    requires few { length sessions.now ≤ MOST_SCRIPT_SESSIONS }
    requires whole { All IsWhole sessions.now }
    ensures puts { Puts K.written K.faults writer.old writer.new (sessions_from_by (record { line = T.line; span = T.span }) 1 (map answers_of sessions.now)) }
{
    let mut number = 1;
    for out in sessions {
        let (records, chunks) = out.parts();
        print_session::<T, _>(writer, number, records, chunks);
        number += 1;
    }
}
