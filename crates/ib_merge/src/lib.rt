//! The plan of a delete: how pages with few records are merged with a sibling, and how a root with one child is lifted
//! (btr0btr, `btr_compress`, `btr_lift_page_up`).
#![tactic(auto)]

mod choose;
mod delete;
mod edits;
mod images;

pub use choose::{Beside, records_beside};
pub use delete::plan_delete;
