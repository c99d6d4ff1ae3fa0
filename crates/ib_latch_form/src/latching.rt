//! Events made on the latch machine, and what is printed of them.

ghost use Rattle.std.specs.Prelude.{◌≡◌, ◌≤◌, ◌+◌, length};
ghost use Rattle.std.specs.List.{AllByRecursion};
ghost use Rattle.ib_io.specs.Told.{HasTold, IsOutOfMemory, Told, ends};
ghost use Rattle.ib_io.specs.Writer.{Puts};
ghost use Rattle.ib_io.specs.declared.line_kind.TheConstants.{MOST_SCRIPT_SESSIONS as SESSIONS};
ghost use Rattle.ib_latch_form.specs.Events.{IsEventInRange};
ghost use Rattle.ib_latch_form.specs.Latching.{latch_output, lines_from};
ghost use Rattle.ib_latch_form.specs.declared.event_line.TheConstants.{MOST_EVENTS, MOST_LATCH};

use crate::event_line::{MOST_EVENTS, MOST_LATCH};
use crate::event_part::print_event_line;
use crate::events::Events;
use ib_core::{Core, Event};
use ib_io::{MOST_SCRIPT_SESSIONS, Printed, Sink, Status, Writer, tell};
use std::alloc::Global;

// Makes each event on the machine, and prints what came of it.
fn print_events<K: Sink>(writer: &mut Writer<'_, K>, core: &mut Core, events: &[(u32, Event)])
    requires sessions { length core.old.state.sessions ≡ SESSIONS }
    requires latches { length core.old.state.marks ≡ MOST_LATCH + 1 }
    requires steps { core.old.steps + length events.now ≤ MOST_EVENTS }
    requires in_range { AllByRecursion IsEventInRange events.now }
    ensures puts { Puts K.written K.faults writer.old writer.new (lines_from core.old.state events.now) }
{
    for &(session, event) in events {
        let answer = core.step(session, event);
        let word = core.word(event.latch());
        print_event_line(writer, session, event, answer, word);
    }
}

// A machine, and events that are to be made on it. Their text is each event with its answer and its latch's word.
struct Making {
    core: Core,
    events: Events,
    ghost sessions: { length core.state.sessions ≡ SESSIONS },
    ghost latches: { length core.state.marks ≡ MOST_LATCH + 1 },
    ghost steps: { core.steps + length events ≤ MOST_EVENTS },
}

impl Printed for Making {
    ghost use Rattle.ib_latch_form.specs.Latching.{lines_from};

    ghost text = { λ making. lines_from making.core.state making.events };

    fn print<K: Sink>(self, writer: &mut Writer<'_, K>) {
        let Making { mut core, events } = self;
        print_events(writer, &mut core, events.list());
    }
}

/// Makes events on the latch machine with all latches free, and writes what came of each.
pub fn make_events<K: Sink>(alloc: Global, events: Events, sink: &mut K) -> Status
    ensures { HasTold K.written K.faults (Told (λ e. e ≡ ends Status.Done (latch_output events)) IsOutOfMemory) sink.old sink.new result }
{
    match Core::new(alloc, MOST_SCRIPT_SESSIONS, MOST_LATCH + 1) {
        Ok(core) => tell(sink, Making { core, events }, Status::Done),
        Err(_) => Status::Memory,
    }
}
