//! Mini-transactions: a memo of the latch grants that one took, in order of taking, and the pages
//! that it read and changed (mtr0mtr).
#![tactic(auto)]

mod commit_nowait;
mod commits;
mod laws;
mod loads;
mod locks;
mod memo;
mod mtr;
mod readers;
mod try_locks;

pub use commit_nowait::CommitFault;
pub use laws::edit_law;
pub use mtr::Mtr;
