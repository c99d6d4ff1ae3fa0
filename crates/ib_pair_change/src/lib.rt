//! Changes of both trees, planned one after the other on one work set: what the next entry of a log of a pair writes.
#![tactic(auto)]

mod laws;
mod plans;

pub use laws::pair_change_law;
pub use plans::{
    FreshPages, Needs, PairPaths, choose_pair_pages, pair_pages_needed, plan_pair_delete,
    plan_pair_insert,
};
