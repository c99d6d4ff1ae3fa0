//! Entries of the log, the words that they are written as, and what a law says of a list of them.
#![tactic(auto)]

mod decode;
mod encode;
mod entry;
mod fault;
mod first_word;
mod head;
mod key_words;
mod law;
mod writes;

pub use decode::{decode_at, head_at};
pub use encode::encode_into;
pub use entry::{Entry, HEAD_WORDS, MOST_SESSIONS, MOST_WRITES};
pub use fault::{FullKind, LogFault, UnlawfulKind};
pub use head::Head;
pub use ib_map::{Write, spans_pages};
pub use law::{AnyLaw, Law};
pub use writes::Writes;
