//! What a seat of the table knows, and who it is. No value of these types is made: they are ghosts
//! of the rule.

use crate::looks::{Grants, Looks};
use crate::memory::Knowledge;
use ib_core::Session;
use ib_logrec::Entry;
use std::collections::LinkedList;

/// A session that has ended.
pub struct Ended {
    /// Its number.
    pub number: u64,
    /// The entries of the log that it had seen.
    pub seen: LinkedList<Entry>,
    /// Its own entries.
    pub own: LinkedList<Entry>,
}

/// Who a seat is.
pub enum Role {
    /// The space's own seat: how many sessions it drew, and those that have ended, the last one
    /// first.
    Space(u64, LinkedList<Ended>),
    /// A session with a number that is not counted yet in the word of sessions drawn.
    Fresh(u64),
    /// A session, by its number.
    Session(u64),
    /// A note of what a session had seen, on its way to another.
    Note,
    /// A seat that was joined into another.
    Spent,
}

/// What a seat knows.
pub struct View {
    /// Who it is.
    pub role: Role,
    /// The session of the latch machine: what it holds, and its phase.
    pub session: Session,
    /// The grants that it ever took.
    pub grants: Grants,
    /// The latches that it has in SX or X, or is the next writer of, and whose writer word it has
    /// stored since.
    pub written: LinkedList<u32>,
    /// Its looks at lock words.
    pub looks: Looks,
    /// What it knows of the log and the pages.
    pub memory: Knowledge,
}
