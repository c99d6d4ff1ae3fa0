//! Sessions on two trees in one space, as tests: what calls answer, what closed spaces hold, and scripts of two trees.
#![tactic(auto)]

#[cfg(test)]
mod rows;
#[cfg(test)]
mod scripts;
#[cfg(test)]
mod space;
#[cfg(test)]
mod threads;
