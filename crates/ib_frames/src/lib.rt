//! Whole frames of the shared table's memory: a page as it is read, the log's end, and the append of
//! an entry. No call waits, or takes memory.
#![tactic(auto)]

mod appends;
mod entries;
mod reads;

pub use appends::{LogFull, append, append_laid};
pub use entries::lay_out;
pub use reads::{LogEnd, log_end, read_page};
