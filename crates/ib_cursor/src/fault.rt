//! Why a call that does not wait gave up.

ghost use Rattle.std.specs.Prelude.{◌≡◌};

use ib_latch::TryFault;
use ib_levels::Latch;
use ib_word::LockWord;
use thiserror::Error;

/// The latch that was not had: the index, a page of the key's path, or of what else a change takes (a page beside
/// the path, page 0, a fresh page, the log's latch).
#[derive(Clone, Copy, PartialEq, Eq, Debug, Error)]
pub enum NowaitFault {
    /// At the word found the mode is not had.
    #[error("the word {} of latch {} refuses it", word.0, latch.0)]
    Busy {
        latch: Latch,
        word: LockWord,
    },
    /// The exchange found another word than the look before it.
    #[error("the word of latch {} was {} where {} was expected", latch.0, found.0, expected.0)]
    Raced {
        latch: Latch,
        expected: LockWord,
        found: LockWord,
    },
}

impl NowaitFault {
    ghost use Rattle.ib_cursor.specs.Contention.{fault_on};

    /// A try on a latch that was refused.
    ///
    /// ```
    /// Err(CommitFault::LogRefused(fault)) => Err(NowaitFault::of(Latch::LOG, fault)),
    /// ```
    pub fn of(latch: Latch, fault: TryFault) -> NowaitFault
        ensures { result ≡ fault_on latch fault }
    {
        match fault {
            TryFault::Busy { word } => NowaitFault::Busy { latch, word },
            TryFault::Raced { expected, found } => NowaitFault::Raced {
                latch,
                expected,
                found,
            },
        }
    }
}
