//! What is answered to events that were read.

ghost use Rattle.std.specs.Prelude.{◌≡◌, ◌≤◌, None, length};
ghost use Rattle.ib_io.specs.Told.{HasTold, IsOutOfMemoryWhere, Told};
ghost use Rattle.ib_latch_form.specs.Answers.{AnswersEvents};
ghost use Rattle.ib_latch_form.specs.Events.{event_fault};

use crate::events::read_events;
use crate::latching::make_events;
use ib_io::{INPUT_BYTES, Sink, Status, refuse};
use std::alloc::Global;

/// Answers events that were read: makes them on the latch machine of one thread, and writes each with its answer and
/// its latch's word afterwards, or tells where they are refused and why. Memory may be wanting only where no line is bad.
pub fn answer_events<K: Sink>(alloc: Global, input: &[u8], sink: &mut K) -> Status
    requires { length input.now ≤ INPUT_BYTES }
    ensures { HasTold K.written K.faults (Told (AnswersEvents input.now) (IsOutOfMemoryWhere (event_fault input.now ≡ None))) sink.old sink.new result }
{
    match read_events(alloc, input) {
        Ok(events) => make_events(alloc, events, sink),
        Err(fault) => refuse(sink, fault),
    }
}
