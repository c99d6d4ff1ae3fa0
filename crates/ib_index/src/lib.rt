//! The index: lookups and changes of one tree that sessions share.
#![tactic(auto)]

mod change;
mod index;
mod leaf;
mod log_end;
mod lookup;
mod nowait;
mod nowait_change;
mod nowait_delete;
mod nowait_insert;
mod nowait_leaf;
mod pessimistic_delete;
mod pessimistic_insert;

pub use ib_shared::SharedSpace;
pub use index::{Index, IndexRefused};
pub use lookup::get;
