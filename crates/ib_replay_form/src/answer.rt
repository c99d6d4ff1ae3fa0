//! What is answered to a raw log that was read, and to an old one.

ghost use Rattle.std.specs.Prelude.{◌≡◌, ◌≤◌, length, None};
ghost use Rattle.ib_io.specs.Told.{HasTold, IsOutOfMemoryWhere, Told};
ghost use Rattle.ib_replay.specs.Files.{file_fault};
ghost use Rattle.ib_replay.specs.OldLogs.{old_file_fault};
ghost use Rattle.ib_replay_form.specs.Answers.{AnswersLog, AnswersUpgrade};

use crate::bad_log::refuse;
use crate::log_file::write_file;
use crate::replaying::show;
use ib_io::{INPUT_BYTES, Sink, Status};
use ib_replay::{bring_over, replay_file};
use std::alloc::Global;

/// Answers a raw log that was read: replays it and writes its log and its map, or tells where it is refused and why.
/// Memory may be wanting only where the file itself has no fault.
pub fn answer_log<K: Sink>(alloc: Global, input: &[u8], sink: &mut K) -> Status
    requires { length input.now ≤ INPUT_BYTES }
    ensures { HasTold K.written K.faults (Told (AnswersLog input.now) (IsOutOfMemoryWhere (file_fault input.now ≡ None))) sink.old sink.new result }
{
    match replay_file(alloc, input) {
        Ok(replayed) => show(sink, replayed),
        Err(fault) => refuse(sink, fault),
    }
}

/// Answers a log of version 1 that was read: writes the file of the log that it is brought over to, or tells where it is
/// refused and why. Memory may be wanting only where the file itself has no fault.
pub fn answer_upgrade<K: Sink>(alloc: Global, input: &[u8], sink: &mut K) -> Status
    requires { length input.now ≤ INPUT_BYTES }
    ensures { HasTold K.written K.faults (Told (AnswersUpgrade input.now) (IsOutOfMemoryWhere (old_file_fault input.now ≡ None))) sink.old sink.new result }
{
    match bring_over(alloc, input) {
        Ok(log) => write_file(sink, log),
        Err(fault) => refuse(sink, fault),
    }
}
