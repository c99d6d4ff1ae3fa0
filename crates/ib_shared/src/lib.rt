//! What sessions share: one tree, or more of them in one space.
#![tactic(auto)]

mod shared;

pub use shared::SharedSpace;
