//! Latches, modes and levels, and the lists of what a session holds: the rule, after the pattern
//! of sync0debug, of which latch may be taken beside those that are held.
#![tactic(auto)]

mod held;
mod holding;
mod latch;
mod level;
mod listed;

pub use held::{Held, may_take};
pub use holding::{Holding, holds, may_add};
pub use latch::{Latch, MOST_PAGES, latch_number_law};
pub use level::{Level, Mode};
pub use listed::Against;
