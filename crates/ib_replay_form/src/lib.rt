//! The forms `replay` and `upgrade`: raw logs replayed, what is printed of one, logs of version 1 brought over, and how a bad
//! log is told.
#![tactic(auto)]

mod answer;
mod bad_log;
mod laws;
mod log_file;
mod replaying;

pub use answer::{answer_log, answer_upgrade};
pub use bad_log::print_fault;
pub use laws::{log_law, upgrade_law};
