//! Scripts read, and run by sessions on one shared tree, as tests.
#![tactic(auto)]

#[cfg(test)]
mod key;
#[cfg(test)]
mod runs;
#[cfg(test)]
mod scripts;
