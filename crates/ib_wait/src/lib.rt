//! Where sessions wait for latches: the cells of the wait array, and the parkers on which sessions
//! sleep (sync0arr).
#![tactic(auto)]

mod array;
mod cells;
mod sleepers;

pub use array::WaitArray;
pub use cells::{Cell, Cells, NoCell, Wish};
pub use sleepers::Sleepers;
