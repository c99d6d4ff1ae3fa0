//! The latches of a space: S, SX and X are taken by tries that never wait, at most one exchange on
//! the lock word each, or by calls that block, which sleep while others hold them; and they are given
//! back with the raises that are owed then (sync0rw, sync0arr, WL#6363).
#![tactic(auto)]

mod arming;
mod latches;
mod locks;
mod parkers;
mod sleep;
mod tries;
mod unlocks;
mod waiting;

pub use latches::{Latches, LatchesCloseRefused};
pub use parkers::Parkers;
pub use sleep::{NoSleep, Sleep};
pub use tries::{NotReady, Reserve, TryFault};
