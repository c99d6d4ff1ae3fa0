//! What holds of events by their definitions alone.

ghost use Rattle.std.specs.Prelude.{◌≡◌, ◌++◌, ℕ, Ok, codes, decimal};
ghost use Rattle.ib_core.specs.declared.event.Event.{Event};
ghost use Rattle.ib_latch_form.specs.EventText.{step_text};
ghost use Rattle.ib_latch_form.specs.Events.{IsEventInRange, event_reading_of};
ghost use Rattle.ib_latch_form.specs.declared.event_line.EventLine.TheVariants.{Event as EventOf};

/// The law of what is printed of an event: its session and its step, read again as a line, are that event of that session.
pub fn event_law()
    ensures { (session : ℕ) (event : Event) → IsEventInRange (session, event)
        → event_reading_of (decimal session ++ codes " " ++ step_text event) ≡ Ok (EventOf session event) }
{}
