//! Who is granted a latch and who waits, as tests: the worked tables on the latch machine, and on the latches of a space.
#![tactic(auto)]

#[cfg(test)]
mod levels;
#[cfg(test)]
mod machine;
#[cfg(test)]
mod sizes;
#[cfg(test)]
mod sleepers;
#[cfg(test)]
mod spaces;
#[cfg(test)]
mod tries;
#[cfg(test)]
mod waits;
#[cfg(test)]
mod words;
