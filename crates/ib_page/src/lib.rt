//! Pages as images of `PAGE_WORDS` words, the pages of a new space, and the pages that one change works on.
#![tactic(auto)]

mod image;
mod laws;
mod opening;
mod path;
mod space;
mod words;
mod work;

pub use ib_heap::{
    KeyStanding, MOST_LEVEL, MOST_RECORDS, PageFault, PageWords, child_in, get_in, is_tree_in,
    level_in, standing_in,
};
pub use image::{Image, Kind};
pub use laws::{page_law, work_law};
pub use opening::{opening_image, opening_word};
pub use path::{MOST_PATH, Path};
pub use space::{MAPPED_PAGES, SpaceImage};
pub use work::{MOST_WORK_PAGES, PageImages, WorkSet, Written};
