//! The words of old logs brought over: their changes, planned anew one after another.
#![tactic(auto)]

mod append;
mod upgrade;

pub use upgrade::plan_anew;
