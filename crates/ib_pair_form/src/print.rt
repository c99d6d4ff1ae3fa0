//! What is printed of a run of a script of two trees: the sessions' parts, the log, the map, and the keys of the second tree.

ghost use Rattle.std.specs.Prelude.{◌≤◌, All, map, vec_len};
ghost use Rattle.ib_io.specs.declared.line_kind.TheConstants.{MOST_SCRIPT_SESSIONS};
ghost use Rattle.ib_runs.specs.Answers.{IsWhole};

use crate::value_part::{KeyLines, print_second};
use ib_io::{Printed, Sink, Writer};
use ib_map::PlainMap;
use ib_runs::{Ran, print_sessions};
use ib_text::{all_pairs, print_log, print_map};

/// A run of a script of two trees. Its text is what each session was answered, the log, the map in the end, and the keys of the
/// second tree.
#[derive(Drop)]
pub(crate) struct PairText {
    /// What its sessions came to.
    pub(crate) ran: Ran,
    /// The pairs of the second tree in the end.
    pub(crate) second: PlainMap,
    ghost few: { vec_len ran.sessions ≤ MOST_SCRIPT_SESSIONS },
    ghost whole: { All IsWhole ran.sessions.items },
}

impl Printed for PairText {
    ghost use Rattle.ib_runs.specs.Answers.{answers_of};
    ghost use Rattle.ib_pair_form.specs.PairOutput.{pair_output_of};

    ghost text = { λ t. pair_output_of (map answers_of t.ran.sessions.items) t.ran.history.items t.ran.map t.second };

    fn print<K: Sink>(self, writer: &mut Writer<'_, K>) {
        print_sessions::<KeyLines, _>(writer, &self.ran.sessions);
        print_log(writer, &self.ran.history);
        print_map(writer, all_pairs(&self.ran.map));
        print_second(writer, all_pairs(&self.second));
    }
}
