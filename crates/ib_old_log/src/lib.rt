//! Logs of version 1, in which a key was a number in one word: their entries, and how these are read.
#![tactic(auto)]

mod change;
mod decode;
mod first_word;
mod head;

pub use change::OldChange;
pub use decode::old_head_at;
pub use head::OldHead;

/// The words of a page in version 1.
pub const OLD_PAGE_WORDS: usize = 128;

const _: () = prove!(OLD_PAGE_WORDS == 128);

/// How many words stood before an entry's writes: session, flags and number of writes in the first one, then the
/// change's number, its key and its value.
pub const OLD_HEAD_WORDS: usize = 4;

const _: () = prove!(OLD_HEAD_WORDS == 4);

/// The most writes of an entry in version 1.
pub const MOST_OLD_WRITES: usize = 4096;

const _: () = prove!(MOST_OLD_WRITES == 4096);
