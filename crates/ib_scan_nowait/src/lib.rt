//! Scans of the first tree that never wait, for every `Sleep`: each latch is tried, and where one is refused
//! the scan gives up all that it holds and tells from where to go on (row0sel, `row_search_mvcc`;
//! `rw_lock_s_lock_nowait`).
#![tactic(auto)]

mod halt;
mod scans;
mod walk;

pub use halt::Halt;
pub use scans::scan_nowait;
