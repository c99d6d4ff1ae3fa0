//! Scans of one tree that sessions share, chunk by chunk: each chunk is what the tree had at the chunk's
//! own place, and no page is latched between chunks but the leaf that gave the last one (row0sel,
//! `row_search_mvcc`; btr0pcur, `btr_pcur_move_to_next_page`). A scan that had no room for all goes on in a further call,
//! from the leaf that it kept (`btr_pcur_restore_position`).
#![tactic(auto)]

mod more;
mod part;
mod scans;
mod stored;
mod walk;

pub use more::More;
pub use part::{Part, part_of, put};
pub use scans::{answer, scan, scan_at};
pub use stored::{Stored, scan_on};
pub use walk::{Found, facts_of_trees, leave_front};
