//! What is printed of a log that was replayed.

ghost use Rattle.std.specs.Prelude.{◌≡◌};
ghost use Rattle.ib_io.specs.Told.{HasTold, IsWritten, ends};
ghost use Rattle.ib_logrec.specs.Log.{map_of};
ghost use Rattle.ib_replay_form.specs.Replaying.{replay_output};

use ib_io::{Printed, Sink, Status, Writer, tell};
use ib_map::LoggedChange;
use ib_replay::Replayed;
use ib_text::{ChangeLog, all_pairs, print_log, print_map};

// A log that was replayed. Its text is the log and the map that it makes.
#[derive(Drop)]
struct Shown {
    replayed: Replayed,
    ghost map_is: { replayed.map ≡ map_of replayed.entries.items },
}

impl ChangeLog for Shown {
    ghost use Rattle.ib_logrec.specs.Log.{history_of};

    ghost changes = { λ shown. history_of shown.replayed.entries.items };

    fn count(&self) -> usize {
        self.replayed.entries.len()
    }

    fn change(&self, place: usize) -> LoggedChange {
        self.replayed.entries[place].logged()
    }
}

impl Printed for Shown {
    ghost use Rattle.ib_replay_form.specs.Replaying.{replay_output};

    ghost text = { λ shown. replay_output shown.replayed.entries.items };

    fn print<K: Sink>(self, writer: &mut Writer<'_, K>) {
        print_log(writer, &self);
        print_map(writer, all_pairs(&self.replayed.map));
    }
}

/// Writes what a log makes.
pub fn show<K: Sink>(sink: &mut K, replayed: Replayed) -> Status
    requires { replayed.map ≡ map_of replayed.entries.items }
    ensures { HasTold K.written K.faults (IsWritten (ends Status.Done (replay_output replayed.entries.items))) sink.old sink.new result }
{
    tell(sink, Shown { replayed }, Status::Done)
}
