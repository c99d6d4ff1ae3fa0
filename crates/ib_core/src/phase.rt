//! The phases of a session: what it is in the middle of, between two of its events.

ghost use Rattle.std.specs.Prelude.{◌≡◌};
ghost use Rattle.ib_core.specs.Responses.{is_elsewhere};

use ib_levels::{Level, Mode};

/// What a session is in the middle of (sync0rw, sync0arr). Each phase but `Free` is about one
/// latch, by its number, and only the events of its row of the table belong to it.
#[derive(Clone, Copy, PartialEq, Eq, Debug)]
pub enum Phase {
    /// Nothing: it may take and give back latches.
    Free,
    /// It recorded the generation, to sleep for a grant of this mode at this level.
    Armed {
        latch: u32,
        mode: Mode,
        level: Level,
        generation: u64,
    },
    /// It set the waiters flag.
    Flagged {
        latch: u32,
        mode: Mode,
        level: Level,
        generation: u64,
    },
    /// It tried once more, and its wish was refused.
    Checked {
        latch: u32,
        mode: Mode,
        level: Level,
        generation: u64,
    },
    /// It sleeps for as long as the generation is the recorded one.
    Asleep {
        latch: u32,
        mode: Mode,
        level: Level,
        generation: u64,
    },
    /// It is the next writer, and waits for readers. The level is that of the latch's first
    /// acquisition.
    Next {
        latch: u32,
        level: Level,
    },
    /// The next writer recorded the ex generation.
    NextArmed {
        latch: u32,
        level: Level,
        generation: u64,
    },
    /// The next writer found that readers remain.
    NextChecked {
        latch: u32,
        level: Level,
        generation: u64,
    },
    /// The next writer sleeps for as long as the ex generation is the recorded one.
    NextAsleep {
        latch: u32,
        level: Level,
        generation: u64,
    },
    /// It gave back what others may wait for, and owes a look at the waiters flag.
    OwesLook {
        latch: u32,
    },
    /// It saw the flag set, and owes its clearing.
    OwesClear {
        latch: u32,
    },
    /// It cleared the flag, and owes a raise of the generation.
    OwesRaise {
        latch: u32,
    },
    /// It was the last reader before a next writer, and owes a raise of the ex generation.
    OwesRaiseEx {
        latch: u32,
    },
}

impl Phase {
    // Whether the phase is about another latch than this.
    pub(crate) fn is_elsewhere(self, at: u32) -> bool
        ensures { result ≡ is_elsewhere at self }
    {
        match self {
            Phase::Free => false,
            Phase::Armed { latch, .. }
            | Phase::Flagged { latch, .. }
            | Phase::Checked { latch, .. }
            | Phase::Asleep { latch, .. }
            | Phase::Next { latch, .. }
            | Phase::NextArmed { latch, .. }
            | Phase::NextChecked { latch, .. }
            | Phase::NextAsleep { latch, .. }
            | Phase::OwesLook { latch }
            | Phase::OwesClear { latch }
            | Phase::OwesRaise { latch }
            | Phase::OwesRaiseEx { latch } => latch != at,
        }
    }
}
