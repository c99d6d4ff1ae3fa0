//! What contracts see of a session, and the words of a latch beside its lock word.

use crate::phase::Phase;
use ib_levels::Holding;
use std::collections::LinkedList;

/// A session, as contracts see it: what it holds in order of taking, and its phase. No value of
/// this type is made.
pub struct Session {
    pub held: LinkedList<Holding>,
    pub phase: Phase,
}

/// The words of a latch beside its lock word: the waiters flag, the generation and the ex
/// generation (sync0rw, `waiters`, `event` and `wait_ex_event`). A generation counts the raises.
#[derive(Clone, Copy, PartialEq, Eq, Debug)]
pub struct Marks {
    pub waiters: bool,
    pub generation: u64,
    pub ex_generation: u64,
}

impl Marks {
    /// The marks of a latch at the start: nobody waits, nothing was raised.
    pub const FRESH: Marks = Marks {
        waiters: false,
        generation: 0,
        ex_generation: 0,
    };
}
