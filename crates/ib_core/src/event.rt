//! The events of the latch machine, and their answers.

ghost use Rattle.std.specs.Prelude.{◌≡◌};
ghost use Rattle.ib_core.specs.Responses.{latch_of};

use ib_levels::{Level, Mode};
use ib_word::LockWord;

/// One atomic step of a session on one latch, by its number.
#[derive(Clone, Copy, PartialEq, Eq, Debug)]
pub enum Event {
    /// Takes S.
    S {
        latch: u32,
        level: Level,
    },
    /// Takes SX, or a further SX.
    Sx {
        latch: u32,
        level: Level,
    },
    /// Takes X, a further X, or the place of the next writer.
    X {
        latch: u32,
        level: Level,
    },
    /// Gives S back.
    Us {
        latch: u32,
    },
    /// Gives one SX back.
    Usx {
        latch: u32,
    },
    /// Gives one X back.
    Ux {
        latch: u32,
    },
    /// Records the generation, before it sleeps for a grant of this mode.
    Arm {
        latch: u32,
        mode: Mode,
        level: Level,
    },
    /// Sets the waiters flag.
    Flag {
        latch: u32,
    },
    /// Tries once more, before it sleeps.
    Again {
        latch: u32,
    },
    /// Gives up waiting.
    Quit {
        latch: u32,
    },
    /// Looks at the generation, or as next writer at the ex generation: before it sleeps, or
    /// when it was woken.
    Sleep {
        latch: u32,
    },
    /// As next writer, looks whether the readers are gone.
    Ready {
        latch: u32,
    },
    /// As next writer, records the ex generation.
    Exarm {
        latch: u32,
    },
    /// Looks at the waiters flag, after a release.
    Look {
        latch: u32,
    },
    /// Clears the waiters flag.
    Clear {
        latch: u32,
    },
    /// Raises the generation, or the ex generation, that it owes.
    Raise {
        latch: u32,
    },
}

/// What an event comes to. Each word is the lock word that the event found.
#[derive(Clone, Copy, PartialEq, Eq, Debug)]
pub enum Answer {
    /// The grant is taken.
    Granted,
    /// The session is the next writer.
    Reserved,
    /// The word refuses the wish.
    Busy { word: LockWord },
    /// Readers remain.
    NotReady { word: LockWord },
    /// The grant is given back.
    Released,
    /// The generation was recorded.
    Armed { generation: u64 },
    /// The waiters flag is set.
    Flagged,
    /// The generation is the recorded one still.
    Asleep { generation: u64 },
    /// The generation has moved on to this one.
    Awake { generation: u64 },
    /// The waiters flag as it is.
    Looked { waiters: bool },
    /// The waiters flag as it was.
    Cleared { was: bool },
    /// The generation after its raise.
    Signalled { generation: u64 },
    /// The session waits no more.
    Quit,
    /// The event may not come, and changed nothing.
    Refused(Refusal),
}

/// Why an event is refused.
#[derive(Clone, Copy, PartialEq, Eq, Debug)]
pub enum Refusal {
    /// The event does not belong to the session's phase, or is about another latch than it.
    OutOfTurn,
    /// The session holds the latch in a mode that rules the wish out.
    HeldAlready,
    /// The session does not hold what it gives back.
    NotHeld,
    /// The order of levels forbids it: the first level held that does, and the level wanted.
    Against { held: Level, wanted: Level },
}

impl Event {
    /// The latch that the event is about.
    pub fn latch(self) -> u32
        ensures { result ≡ latch_of self }
    {
        match self {
            Event::S { latch, .. }
            | Event::Sx { latch, .. }
            | Event::X { latch, .. }
            | Event::Us { latch }
            | Event::Usx { latch }
            | Event::Ux { latch }
            | Event::Arm { latch, .. }
            | Event::Flag { latch }
            | Event::Again { latch }
            | Event::Quit { latch }
            | Event::Sleep { latch }
            | Event::Ready { latch }
            | Event::Exarm { latch }
            | Event::Look { latch }
            | Event::Clear { latch }
            | Event::Raise { latch } => latch,
        }
    }
}
