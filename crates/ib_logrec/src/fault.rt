//! The faults of a log, one variant a cause.

ghost use Rattle.std.specs.Prelude.{◌≡◌};
ghost use Rattle.ib_logrec.specs.declared.fault.LogFault.TheVariants.{OutOfMemory};

use std::alloc::{AllocError, AllocFailed};
use thiserror::Error;

/// Which rule of a lawful log an entry breaks.
#[derive(Clone, Copy, Debug, PartialEq, Eq)]
pub enum UnlawfulKind {
    /// Its number isn't one more than the session's earlier entries.
    Number,
    /// The map doesn't make its change: the key of an insert is there, or that of a delete isn't.
    Change,
    /// The pages behind it aren't a tree that holds the map, or a page that it doesn't write has
    /// another range or level than before.
    Tree,
}

/// What is full where an insert of an older log cannot be planned anew.
#[derive(Clone, Copy, Debug, PartialEq, Eq)]
pub enum FullKind {
    /// The tree would get a level more than trees may have.
    High,
    /// The space has fewer free pages than the insert takes.
    Space,
}

/// Why words or bytes are no log. `place` is the log word at which the entry begins.
#[derive(Clone, Copy, Debug, PartialEq, Eq, Error)]
pub enum LogFault {
    /// The entry has fewer words than it needs.
    #[error("short at {place}")]
    Short { place: u32 },
    /// The word isn't one of an entry's head.
    #[error("head at {place} word {word}")]
    BadHead { place: u32, word: u64 },
    /// A write whose place, `word`, isn't above the one before it.
    #[error("write at {place} word {word}")]
    BadWrite { place: u32, word: u64 },
    /// A write whose place, `word`, is on no page.
    #[error("outside at {place} word {word}")]
    Outside { place: u32, word: u64 },
    /// Bytes that are no whole number of words.
    #[error("odd length {bytes}")]
    OddLength { bytes: usize },
    /// Number `at` of the file, counted from 0, isn't one that a file begins with.
    #[error("file at {at} word {word}")]
    BadFile { at: u32, word: u64 },
    /// An entry that may not stand where it stands.
    #[error("unlawful at {place}")]
    Unlawful { place: u32, kind: UnlawfulKind },
    /// An entry of an older log whose insert finds the tree or the space full where it is planned anew.
    #[error("cannot plan at {place}")]
    CannotPlan { place: u32, why: FullKind },
    #[error("out of memory")]
    OutOfMemory,
}

impl From<AllocError> for LogFault {
    ghost from_gives = { λ _ fault. fault ≡ OutOfMemory };

    fn from(_error: AllocError) -> LogFault {
        LogFault::OutOfMemory
    }
}

impl<T: Drop> From<AllocFailed<T>> for LogFault {
    ghost from_gives = { λ _ fault. fault ≡ OutOfMemory };

    fn from(_error: AllocFailed<T>) -> LogFault {
        LogFault::OutOfMemory
    }
}
