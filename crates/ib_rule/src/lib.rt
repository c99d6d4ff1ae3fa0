//! The shared table: all words that sessions share (lock words, flags, generations, pages, log) as
//! one table of atomic words, under a rule that says that words and sessions stand for one good
//! state of the latch machine, between any two steps of any threads.
#![tactic(auto)]

mod closed;
mod kind;
mod laws;
mod loads;
mod looks;
mod memory;
mod mirror;
mod own_seat;
mod pass;
mod pass_memory;
mod readers;
mod releases;
mod rule;
mod scratch;
mod scratch_holder;
mod seats;
mod sleeping;
mod space;
mod space_words;
mod step;
mod stores;
mod takings;
mod turns;
mod view;
mod working;

pub use closed::{Closed, SpaceCloseRefused};
pub use kind::{StepKind, WordOp};
pub use laws::{latch_law, memory_law, sleeper_law, step_law};
pub use looks::{Grants, Look, Looks};
pub use memory::{Knowledge, Loaded, OpenAppend, Since};
pub use pass::{ENTRY_WORDS, MOST_GRANTS, MOST_HELD, Pass};
pub use readers::{CALL_GRANTS, CHUNK_GRANTS};
pub use rule::Ruled;
pub use scratch::Scratch;
pub use space::{ConnectFault, OutOfMemory, Space};
pub use space_words::SpaceWords;
pub use view::{Ended, Role, View};
