//! Keys, changes, calls and replies, and the sorted map that all of Bukhloem is judged by.
#![tactic(auto)]

mod call;
mod chunks;
mod key;
mod plain;
mod runs;
mod write;

pub use call::{Call, Change, LoggedChange, Record, Reply};
pub use chunks::{Chunk, Chunks, OutOfMemory};
pub use key::{Key, LongKey, MOST_KEY_BYTES, after, is_below, is_same, key_law};
pub use plain::{MapFault, PlainMap};
pub use runs::run_law;
pub use write::{Write, spans_pages, write_law};

/// The words of a page.
pub const PAGE_WORDS: usize = 160;

const _: () = prove!(PAGE_WORDS == 160);

/// The fewest pages that a space has.
pub const LEAST_PAGES: u32 = 16;

const _: () = prove!(LEAST_PAGES == 16);

/// The most pages that a space has.
pub const MOST_PAGES: u32 = 4096;

const _: () = prove!(MOST_PAGES == 4096);
