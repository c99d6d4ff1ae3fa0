//! The latch machine of one thread: the whole protocol of `rw_lock_t` (sync0rw, WL#6363, with the
//! wait array of sync0arr) as plain data, one event one atomic action.
#![tactic(auto)]

mod actor;
mod event;
mod first;
mod holdings;
mod latch_word;
mod laws;
mod machine;
mod member;
mod phase;
mod releases;
mod removal;
mod session;
mod table;
mod taking_laws;
mod takings;
mod turn_laws;
mod waits;

pub use event::{Answer, Event, Refusal};
pub use first::is_given_at;
pub use holdings::Counts;
pub use latch_word::LatchWord;
pub use laws::{core_law, grant_law, signal_law};
pub use machine::{Core, MOST_LATCHES, MOST_SESSIONS, MOST_STEPS, OutOfMemory};
pub use member::Member;
pub use phase::Phase;
pub use removal::take_out;
pub use session::{Marks, Session};
pub use taking_laws::{session_law, weight_law};
pub use turn_laws::{debt_law, leaves_law, turn_law};
pub use waits::owns_x_at;
