//! Guesses by hash (btr0sea, the adaptive hash index): one word for each of 4,093 slots leads from a key to its leaf
//! without a descent. A guess may be wrong, so it is tested under the latch of its page.
#![tactic(auto)]

mod change;
mod guesses;
mod lookup;
mod miss;
mod own_seat;
mod pass;
mod rule;
mod slots;
mod steps;
mod view;

pub use change::{try_delete, try_insert};
pub use guesses::{Guesses, MOST_PASSES, OutOfMemory};
pub use lookup::get;
pub use miss::Miss;
pub use pass::GuessPass;
pub use slots::{SLOTS, slot_of};
pub use view::GuessSteps;
