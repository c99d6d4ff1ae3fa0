//! Raw logs: their files, what their entries make of the opening memory and of the empty map, and logs of version 1
//! brought over.
#![tactic(auto)]

mod file;
mod log_replay;
mod memory;
mod old_log;
mod raw_log_replay;

pub use file::{FILE_FORM, OLD_FILE_FORM, RawLog, read_log, write_log};
pub use log_replay::{Replayed, replay};
pub use memory::Memory;
pub use old_log::{Brought, bring_over};
pub use raw_log_replay::replay_file;
