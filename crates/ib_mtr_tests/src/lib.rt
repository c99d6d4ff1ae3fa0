//! Page words, entries and mini-transactions, as tests: frames read and written, memos of latches, and commits of four threads.
#![tactic(auto)]

#[cfg(test)]
mod asked;
#[cfg(test)]
mod commits;
#[cfg(test)]
mod frames;
#[cfg(test)]
mod locks;
#[cfg(test)]
mod memos;
#[cfg(test)]
mod nowait;
