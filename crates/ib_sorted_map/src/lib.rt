//! The sorted map as a search tree: what a log is replayed into.
#![tactic(auto)]

mod between;
mod ordered_key;
mod sorted;

pub use between::Between;
pub use sorted::SortedMap;
