//! How large a space is, and where its words stand.
#![tactic(auto)]

mod geometry;
mod laws;

pub use geometry::{
    DRAWN_PLACE, END_PLACE, Geometry, LEAST_LOG_WORDS, LayoutFault, MOST_LOG_WORDS,
};
pub use ib_map::{LEAST_PAGES, MOST_PAGES};
pub use laws::place_law;
