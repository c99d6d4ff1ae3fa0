//! Changes of two trees of one space, one after the other.
#![tactic(auto)]

mod laws;

pub use laws::apart_law;
