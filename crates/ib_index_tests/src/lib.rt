//! Sessions on one shared tree, as tests: lookups, inserts, deletes, and scans.
#![tactic(auto)]

#[cfg(test)]
mod cursor;
#[cfg(test)]
mod grown;
#[cfg(test)]
mod guesses;
#[cfg(test)]
mod leaves;
#[cfg(test)]
mod lookups;
#[cfg(test)]
mod nowait;
#[cfg(test)]
mod pages;
#[cfg(test)]
mod positions;
#[cfg(test)]
mod rows;
#[cfg(test)]
mod scans;
#[cfg(test)]
mod space;
#[cfg(test)]
mod stored;
#[cfg(test)]
mod threads;
