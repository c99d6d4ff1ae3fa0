//! The cursor of a tree: the path of a key from the root to its leaf, under latches that are coupled, and
//! from a leaf to the next (btr0cur, btr0pcur; the order of latches is that of WL#6326).
#![tactic(auto)]

mod claim;
mod descent;
mod fault;
mod guess;
mod held_page;
mod latch_page;
mod lookup;
mod next;
mod nowait;
mod nowait_claim;
mod nowait_descent;
mod nowait_siblings;
mod pairs;
mod position;
mod search;
mod siblings;
mod try_latch;

pub use claim::{FoundPath, claim_index, descend_to_insert, read_path, read_value, take_path};
pub use descent::{descend, descend_at, descend_nowait};
pub use fault::NowaitFault;
pub use guess::{key_standing, latch_guess};
pub use latch_page::{read, take};
pub use lookup::{FoundLeaf, find, find_leaf, find_nowait};
pub use next::next_leaf;
pub use nowait_claim::descend_to_insert_nowait;
pub use nowait_descent::descend_to_change_nowait;
pub use nowait_siblings::descend_to_delete_nowait;
pub use pairs::descend_pair_to_insert;
pub use position::{Position, Restored, restore, store};
pub use search::{Search, Sought};
pub use siblings::{descend_to_delete, take_behind, take_rows};
pub use try_latch::try_take;
