//! The trees in page memory: how they are walked, and which memories are lawful.
#![tactic(auto)]

mod laws;

pub use laws::walk_law;
