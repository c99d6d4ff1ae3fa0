//! What a call tells of itself: one number for C.

ghost use Rattle.std.specs.Prelude.{◌≡◌};
ghost use Rattle.ib_c.specs.Statuses.{status_number};

/// Why a call did nothing, or what it came to.
#[derive(Clone, Copy, PartialEq, Eq, Debug)]
pub(crate) enum Status {
    /// It did what it is for.
    Done,
    /// The lock word refuses the wish.
    Busy,
    /// The exchange found another word than the look before it.
    Raced,
    /// X is reserved: readers remain.
    Next,
    /// Readers remain: the next writer does not own X yet.
    NotReady,
    /// The generation is the one recorded: the session may sleep.
    Asleep,
    /// There is no room for the next chunk of a scan.
    NoRoom,
    /// The handle is empty.
    NoHandle,
    /// The handle is not empty, where a call is to fill it.
    InUse,
    /// The space has fewer latches.
    BadLatch,
    /// No level has this number.
    BadLevel,
    /// No mode has this number.
    BadMode,
    /// The session holds what forbids the wish, or is in the middle of something.
    NotAllowed,
    /// The session holds 8,192 grants, or has taken 2^52.
    TooManyGrants,
    /// The session does not hold the latch in that mode.
    NotHeld,
    /// The session is not in the phase that the call is for.
    WrongPhase,
    /// No space has so many pages.
    BadPages,
    /// No log has so many words.
    BadLog,
    /// A space has 1 to 1,024 sessions.
    BadSessions,
    /// All sessions of the space are connected.
    NoSessionLeft,
    /// Sessions of the space are connected.
    Connected,
    /// The space is closed, or is not closed yet.
    WrongState,
    /// Memory lacks.
    OutOfMemory,
    /// A key has 15 bytes at most.
    BadKey,
    /// A place behind the end, too many bytes, or no room for what is to be written.
    BadRange,
    /// The bytes, or the pages, are not lawful.
    Faulty,
    /// A call on a session of the space has not ended.
    InCall,
    /// All sessions of the space are given back: this is none of them.
    NotConnected,
}

impl Status {
    /// The number that C sees.
    pub(crate) fn number(self) -> u32
        ensures { result ≡ status_number self }
    {
        match self {
            Status::Done => 0,
            Status::Busy => 1,
            Status::Raced => 2,
            Status::Next => 3,
            Status::NotReady => 4,
            Status::Asleep => 5,
            Status::NoRoom => 6,
            Status::NoHandle => 16,
            Status::InUse => 17,
            Status::BadLatch => 18,
            Status::BadLevel => 19,
            Status::BadMode => 20,
            Status::NotAllowed => 21,
            Status::TooManyGrants => 22,
            Status::NotHeld => 23,
            Status::WrongPhase => 24,
            Status::BadPages => 25,
            Status::BadLog => 26,
            Status::BadSessions => 27,
            Status::NoSessionLeft => 28,
            Status::Connected => 29,
            Status::WrongState => 30,
            Status::OutOfMemory => 31,
            Status::BadKey => 32,
            Status::BadRange => 33,
            Status::Faulty => 34,
            Status::InCall => 35,
            Status::NotConnected => 36,
        }
    }
}
