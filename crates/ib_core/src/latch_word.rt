//! The words of a latch in a table that several threads share.

/// The words of a latch in a shared table. Each event is a step on one of them.
#[derive(Clone, Copy, PartialEq, Eq, Debug)]
pub enum LatchWord {
    /// The lock word.
    Lock,
    /// The waiters flag, 1 where it is set and else 0.
    Waiters,
    /// The number of the session that has SX or X.
    Writer,
    /// The generation.
    Generation,
    /// The ex generation.
    ExGeneration,
}
