//! Two trees in one space: the second finds the pairs of the first by their values, and each change changes both in one
//! mini-transaction (row0ins, row0upd: a clustered index and a secondary index of a table).
#![tactic(auto)]

mod delete;
mod fresh;
mod insert;
mod lookup;
mod pages;
mod pair;
mod planned;

pub use ib_shared::SharedSpace;
pub use pair::{Pair, PairRefused};
