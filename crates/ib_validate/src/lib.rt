//! Whether a patch of pages leaves lawful trees, by the written pages and their neighbours alone.
#![tactic(auto)]

mod attach;
mod back;
mod bits;
mod children;
mod content;
mod copies;
mod detach;
mod forms;
mod good;
mod links;
mod marks;
mod page_test;
mod pages;
mod patch;
mod position;
pub mod reading;
mod stores;
mod tree_pages;
mod visit;

pub use bits::space_page;
pub use forms::test_all;
pub use page_test::all_pass;
pub use pages::{Page, Pages};
pub use position::PagePosition;
pub use tree_pages::TreePages;
pub use visit::visit_levels;
