//! A tree of records for programs in C and Rust, with its latches and pages: a static library. No call waits, wakes or starts a
//! thread: a call that is refused says so, and its caller sleeps and wakes by means of its own.
//!
//! A handle is a box that C holds by its pointer. Each call takes the box out of its handle, works, and puts it back, so
//! a handle is for one call at a time. What sessions share is shared by the sessions themselves: a call on a session takes
//! its handle alone.
#![tactic(auto)]

mod answers;
mod calls;
mod check;
mod latch_calls;
mod log_words;
mod page_words;
mod parts;
mod pool;
mod reader_calls;
mod readers;
mod replay;
mod scan_words;
mod scanned;
mod scans;
mod session;
mod session_handle;
mod space;
mod space_calls;
mod space_handle;
mod status;
mod table;
mod tree_calls;
mod tries;
mod unlocks;
mod wait_calls;
mod waits;
mod wishes;
