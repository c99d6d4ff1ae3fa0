//! The form `latch`: events of the latch machine, their grammar and their texts, answered on one machine.
#![tactic(auto)]

mod answer;
mod event_line;
mod event_part;
mod events;
mod latching;
mod laws;

pub use answer::answer_events;
pub use event_line::{
    EventLine, EventWord, LatchEventWord, MOST_EVENTS, MOST_LATCH, event_reading_of,
};
pub use event_part::print_event_line;
pub use events::{Events, read_events};
pub use laws::event_law;
