//! Changes planned and made on the images of all pages of a space, one after another: what the next entry of a kept log writes.
#![tactic(auto)]

mod change;
mod copies;
mod delete;
mod descent;
mod insert;
mod leaf;
mod refused;

pub use change::make_change;
pub use leaf::{put_pair, take_pair};
pub use refused::Refused;
