//! The law of two trees in one space: each entry of the log makes the planned change of both.
#![tactic(auto)]

mod law;
mod laws;

pub use law::PairLaw;
pub use laws::pair_law;
