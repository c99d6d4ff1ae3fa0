//! Raw logs, as tests: entries decoded and written again, logs replayed, each fault of them told at its place, and logs of
//! version 1 brought over.
#![tactic(auto)]

#[cfg(test)]
mod entries;
#[cfg(test)]
mod files;
#[cfg(test)]
mod logs;
#[cfg(test)]
mod old_logs;
#[cfg(test)]
mod trees;
#[cfg(test)]
mod worked;
