//! Lawful logs of trees, and the test of one entry by the pages that it writes; the test of a whole memory, and
//! the content of its trees.
#![tactic(auto)]

mod clocks;
mod content;
mod images;
mod laws;
mod tree_law;
mod whole;

pub use clocks::Clocks;
pub use content::{content_in, content_of};
pub use images::{ImageList, Images};
pub use laws::{entry_law, fits_law, patch_law, refusal_law};
pub use tree_law::{TreeLaw, Trees};
pub use whole::check_tree;
