//! All events of an input, or its first bad line.

ghost use Rattle.std.specs.Prelude.{◌≡◌, ◌≤◌, ◌-◌, ◌<◌, ◌^◌, ◌+◌, ℕ, None, Some, Ok, Err, [], ◌∷◌, ◌++◌, length, vec_len, IfOk, OnOk};
ghost use Rattle.std.specs.List.{AllByRecursion};
ghost use Rattle.ib_latch_form.specs.Events.{CountsEvent, IsEventInRange, TakesEvent, event_fault, event_reading_of, events_in};
ghost use Rattle.ib_io.specs.Lines.{readings_by};
ghost use Rattle.ib_io.specs.declared.line_kind.LineKind.{LineKind};

use crate::event_line::{EventLine, MOST_EVENTS, event_reading_of};
use ib_core::Event;
use ib_io::{LineFault, LineKind, ScriptFault, first_line};
use std::alloc::{AllocError, Global};
use std::marker::Model;

/// Events to be run on the latch machine, each with its session.
#[derive(Drop)]
pub struct Events {
    list: Vec<(u32, Event)>,
}

impl Model for Events {
    ghost use Rattle.std.specs.Prelude.{List, ℕ, ◌≤◌, vec_len};
    ghost use Rattle.ib_core.specs.declared.event.Event.{Event};
    ghost use Rattle.ib_latch_form.specs.declared.event_line.TheConstants.{MOST_EVENTS};
    ghost use Rattle.std.specs.List.{AllByRecursion};
    ghost use Rattle.ib_latch_form.specs.Events.{IsEventInRange};

    ghost Value = { List (ℕ × Event) };

    ghost view = { λ events. events.list.items };

    ghost invariant = { λ events. (vec_len events.list ≤ MOST_EVENTS) × AllByRecursion IsEventInRange events.list.items };
}

impl Events {
    /// The events in order, at most `MOST_EVENTS`, each of a session and on a latch that there is.
    pub fn list(&self) -> &[(u32, Event)]
        ensures list { result.now ≡ self.now }
        ensures few { length self.now ≤ MOST_EVENTS }
        ensures in_range { AllByRecursion IsEventInRange self.now }
    {
        &self.list
    }
}

// An event at the end.
fn add(list: &mut Vec<(u32, Event)>, session: u32, event: Event) -> Result<(), AllocError>
    ensures added { OnOk result (list.new.items ≡ list.old.items ++ (session, event) ∷ []) }
    ensures at_most { vec_len list.new ≤ vec_len list.old + 1 }
{
    list.push((session, event))?;
    Ok(())
}

// Takes the next line: its event stands behind the others.
fn take(list: &mut Vec<(u32, Event)>, line: &[u8]) -> Result<(), LineFault>
    requires { vec_len list.old ≤ MOST_EVENTS }
    ensures takes { TakesEvent (event_reading_of line.now) list.old.items result list.new.items }
    ensures few { vec_len list.new ≤ MOST_EVENTS }
{
    match event_reading_of(line)? {
        EventLine::Skipped => Ok(()),
        EventLine::Event { session, event } => {
            if list.len() == MOST_EVENTS as usize {
                return Err(LineFault::Bad(LineKind::Many));
            }
            add(list, session, event)?;
            Ok(())
        }
    }
}

// How many events there are with the next line, behind so many, or what is wrong with it.
fn count_with(events: u32, line: &[u8]) -> Result<u32, LineKind>
    requires { events ≤ MOST_EVENTS }
    ensures counts { CountsEvent (event_reading_of line.now) events result }
    ensures few { IfOk result (λ more. more ≤ MOST_EVENTS) }
{
    match event_reading_of(line)? {
        EventLine::Skipped => Ok(events),
        EventLine::Event { .. } => {
            if events == MOST_EVENTS {
                return Err(LineKind::Many);
            }
            Ok(events + 1)
        }
    }
}

// Why these bytes are not read where memory ran out: the first bad line, wherever it stands, or else the want of memory.
// It keeps no event, and so needs no memory.
fn refusal(bytes: &[u8]) -> ScriptFault
    requires { length bytes.now < 2 ^ 32 - 1 }
    ensures bad { (line : ℕ) (kind : LineKind) → result ≡ ScriptFault.BadLine line kind → event_fault bytes.now ≡ Some (line, kind) }
    ensures memory { result ≡ ScriptFault.OutOfMemory → event_fault bytes.now ≡ None }
{
    let mut events = 0;
    let mut rest = bytes;
    let mut count = 0;
    while !rest.is_empty() {
        let (line, after) = first_line(rest);
        count += 1;
        match count_with(events, line) {
            Ok(more) => {
                events = more;
                rest = after;
            }
            Err(kind) => return ScriptFault::BadLine { line: count, kind },
        }
    }
    ScriptFault::OutOfMemory
}

/// The events that these bytes spell, one a line, or the first bad line, or want of memory. Linear in the bytes.
///
/// Lines are empty, or begin with `#`, or are `N EVENT L` with further fields, N being 1 to 64 and L 0 to 15. A bad line is
/// told wherever it stands: want of memory comes only where no line is bad.
pub fn read_events(alloc: Global, bytes: &[u8]) -> Result<Events, ScriptFault>
    requires { length bytes.now < 2 ^ 32 - 1 }
    ensures good { IfOk result (λ _. event_fault bytes.now ≡ None) }
    ensures events { IfOk result (λ events. events ≡ events_in (readings_by event_reading_of bytes.now)) }
    ensures bad { (line : ℕ) (kind : LineKind) → result ≡ Err (ScriptFault.BadLine line kind) → event_fault bytes.now ≡ Some (line, kind) }
    ensures memory { result ≡ Err ScriptFault.OutOfMemory → event_fault bytes.now ≡ None }
{
    let mut list = Vec::new(alloc);
    let mut rest = bytes;
    let mut count = 0;
    while !rest.is_empty() {
        let (line, after) = first_line(rest);
        count += 1;
        match take(&mut list, line) {
            Ok(()) => rest = after,
            Err(LineFault::Bad(kind)) => return Err(ScriptFault::BadLine { line: count, kind }),
            Err(LineFault::OutOfMemory) => return Err(refusal(bytes)),
        }
    }
    Ok(Events { list })
}
