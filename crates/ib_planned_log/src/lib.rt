//! The law of a running space: each entry of its log makes just the change that is planned for it.
#![tactic(auto)]

mod law;
mod laws;

pub use law::KeptLaw;
pub use laws::kept_law;
