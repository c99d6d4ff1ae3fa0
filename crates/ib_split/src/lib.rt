//! The plan of an insert: which pages it takes, how full pages are split, and how a root is raised (btr0btr,
//! `btr_page_split_and_insert`, `btr_root_raise_and_insert`).
#![tactic(auto)]

mod choose;
mod edits;
mod halves;
mod insert;
mod need;

pub use choose::choose_pages;
pub use insert::plan_insert;
pub use need::pages_needed;
