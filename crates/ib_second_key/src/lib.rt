//! The keys of a second tree that finds the pairs of a map by their values.
#![tactic(auto)]

mod keys;
mod laws;

pub use keys::{MOST_PRIMARY_BYTES, is_primary, keys_of_value, primary_key, second_key, value_of};
pub use laws::{second_key_law, second_map_law};
