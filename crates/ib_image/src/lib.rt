//! Fuzzy copies (a backup and its redo, as xtrabackup or `CLONE` make them): all pages are copied while sessions go
//! on, each as it is at a place of the log of its own, and the copy and the log from the first of these places on
//! restore the last memory. An image file has a copy with its tail.
#![tactic(auto)]

mod apply;
mod copy;
mod copying;
mod fault;
mod front;
mod image_file;
mod laws;
mod parts;
mod reading;
mod restored;
mod tail;

pub use copy::{CopiedPage, FuzzyCopy};
pub use copying::copy_all;
pub use fault::ImageFault;
pub use image_file::{IMAGE_FORM, image_len, write_image};
pub use laws::{copy_law, file_law};
pub use reading::restore;
pub use restored::Restored;
