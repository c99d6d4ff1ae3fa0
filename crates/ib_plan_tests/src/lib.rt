//! The plain map, lawful memories and whole plans on one memory, as tests: each insert and each delete begins on pages that are checked to be lawful
//! trees, and the pages that it plans are stored.
#![tactic(auto)]

#[cfg(test)]
mod beside;
#[cfg(test)]
mod changes;
#[cfg(test)]
mod entries;
#[cfg(test)]
mod heaps;
#[cfg(test)]
mod images;
#[cfg(test)]
mod kept;
#[cfg(test)]
mod keys;
#[cfg(test)]
mod maps;
#[cfg(test)]
mod memories;
#[cfg(test)]
mod pages;
#[cfg(test)]
mod row_tests;
#[cfg(test)]
mod shape_tests;
#[cfg(test)]
mod tree_law;
#[cfg(test)]
mod trial;
