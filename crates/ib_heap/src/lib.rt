//! The form of a page: a heap of records, which a chain orders and a directory divides (page0page, page0cur).
#![tactic(auto)]

mod directory;
mod fault;
mod form;
mod formed;
mod insert;
mod laws;
mod page;
mod rebuild;
mod remove;
mod search;
mod walk;
mod words;

pub use fault::PageFault;
pub use form::{
    clock, count, empty_leaf_word, empty_page, is_tree, is_tree_in, level, level_in, next, prev,
    set_clock, set_level, set_links,
};
pub use formed::is_formed;
pub use insert::put;
pub use laws::heap_law;
pub use page::{are_zeros, free_page};
pub use rebuild::{append, move_tail, reorganize};
pub use remove::take;
pub use search::{KeyStanding, child_in, find, get, get_in, route, route_to, standing_in};
pub use walk::{copy_between, record_at};
pub use words::PageWords;

/// The most records that a page has: behind its directory there are so many offsets of four words.
pub const MOST_RECORDS: usize = 35;

/// The highest level of a page, with leaves at level 0: no tree is higher (`BTR_MAX_NODE_LEVEL`).
pub const MOST_LEVEL: u32 = 7;
