//! What an insert and a delete make of the pages of a tree: splits and the raise of a root, merges and the lift of one
//! (btr0btr, btr0cur).
#![tactic(auto)]

mod fault;
mod laws;
mod pages;

pub use fault::TreeFault;
use ib_page::MOST_RECORDS;
pub use laws::{delete_law, insert_law};
pub use pages::{image_of, link_back};

/// How many of the records of a page that has one too many stay in it at a split, one half of them: the others go to a page
/// to its right (btr0btr, `btr_page_get_split_rec`).
pub const LEFT_RECORDS: usize = 18;

const _: () = prove!(LEFT_RECORDS == 18 && 2 * LEFT_RECORDS == MOST_RECORDS + 1);

/// A page other than the root which has fewer records than this after losing one is merged with a sibling where both fit one page
/// (btr0cur, `btr_cur_compress_recommendation`).
pub const FEWEST_RECORDS: usize = 17;

const _: () = prove!(FEWEST_RECORDS == 17);
