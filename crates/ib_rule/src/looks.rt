//! Grants, looks at lock words, and the steps of who waits.

use ib_core::LatchWord;
use std::collections::LinkedList;

/// Grants by mode. A reservation of X counts as one grant of X.
#[derive(Clone, Copy, PartialEq, Eq, Debug)]
pub struct Grants {
    /// Of S.
    pub s: u64,
    /// Of SX.
    pub sx: u64,
    /// Of X.
    pub x: u64,
}

impl Grants {
    /// No grant.
    pub const NONE: Grants = Grants { s: 0, sx: 0, x: 0 };
}

/// A look: a step that found a lock word without having changed it before.
#[derive(Clone, Copy)]
pub struct Look {
    /// The latch.
    pub latch: u32,
    /// The word found, with its bias.
    pub found: u64,
    /// The word that an exchange expected, with its bias.
    pub expected: Option<u64>,
    /// How many steps on lock words the session had made before it.
    pub at: u64,
    /// How many holdings the session had on the latch then: none where it had no grant there.
    pub held: u64,
}

/// A raise of a generation of a latch: what a release owes where somebody may sleep on it.
#[derive(Clone, Copy)]
pub struct Raise {
    /// The latch.
    pub latch: u32,
    /// Which of its two generations.
    pub word: LatchWord,
    /// The generation from then on.
    pub now: u64,
}

/// The looks of a session, how many other steps it made, and its raises.
pub struct Looks {
    /// How many there were.
    pub count: u64,
    /// How many steps on lock words there were, looks and others.
    pub steps: u64,
    /// How many steps on waiters flags and generations there were as one that waits: a generation
    /// recorded or looked at, a flag set, a wish given up. What a release owes is not among them: it
    /// makes just the steps that the words ask for.
    pub waits: u64,
    /// All looks, the last one first.
    pub all: LinkedList<Look>,
    /// All raises, the last one first.
    pub raises: LinkedList<Raise>,
}
