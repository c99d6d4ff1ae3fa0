//! The lock word of `rw_lock_t` (sync0rw, WL#6363): one signed number of 32 bits that counts
//! readers, SX grants and X grants; the takings and givings that move it; and the twelve states
//! that it tells apart. Nothing here knows of sessions: a word is a function of counts.
#![tactic(auto)]

mod state;
mod word;

pub use state::{WordState, classify, is_drained, owes_ex};
pub use word::{
    LockWord, MOST_READERS, MOST_X, WORD_BIAS, X_LOCK_DECR, X_LOCK_HALF_DECR, again_x, from_cell,
    give_x, take_s, take_sx, take_x, to_cell, upgrade_x, word_law,
};
