//! The twelve states that a lock word tells apart.

ghost use Rattle.std.specs.Prelude.{◌≡◌, ℕ, ◌⊎◌, ◌↔◌, pos, neg_ℤ, IsTrue};
ghost use Rattle.ib_word.specs.Word.{IsCounted, IsWithin, is_drained, word_of};
ghost use Rattle.ib_word.specs.State.{word_state_of};

use crate::word::{LockWord, X_LOCK_DECR, X_LOCK_HALF_DECR};

/// Who holds a latch, as far as its word tells it (the table of states at the head of sync0rw,
/// WL#6363). `Xn` and `XnSx` have three grants of X or more, and the fields `n` elsewhere are one
/// reader or more.
#[derive(Clone, Copy, PartialEq, Eq, Debug)]
pub enum WordState {
    /// Nobody holds the latch.
    Free,
    /// n readers.
    Readers { n: u32 },
    /// SX, and no reader.
    Sx,
    /// SX beside n readers.
    SxReaders { n: u32 },
    /// One X.
    X,
    /// A next writer that waits for n readers.
    NextReaders { n: u32 },
    /// One X and SX, of one session.
    XSx,
    /// A next writer that has SX and waits for n readers.
    NextSxReaders { n: u32 },
    /// Two X of one session.
    X2,
    /// n X of one session.
    Xn { n: u32 },
    /// Two X and SX of one session.
    X2Sx,
    /// n X and SX of one session.
    XnSx { n: u32 },
}

/// The state of a word: the one whose counts give it. That there is one such is `word_law`.
pub fn classify(w: LockWord) -> WordState
    requires { IsCounted w.0 }
    ensures state { (s sx x : ℕ) → IsWithin s sx x → w.0 ≡ word_of s sx x
        → result ≡ word_state_of s sx x }
{
    let free = X_LOCK_DECR as i32;
    let half = X_LOCK_HALF_DECR as i32;
    let word = w.0;
    if word == free {
        WordState::Free
    } else if word > half {
        WordState::Readers {
            n: (free - word) as u32,
        }
    } else if word == half {
        WordState::Sx
    } else if word > 0 {
        WordState::SxReaders {
            n: (half - word) as u32,
        }
    } else if word == 0 {
        WordState::X
    } else if word > -half {
        WordState::NextReaders { n: -word as u32 }
    } else if word == -half {
        WordState::XSx
    } else if word > -free {
        WordState::NextSxReaders {
            n: (-half - word) as u32,
        }
    } else if word == -free {
        WordState::X2
    } else if word > -free - half {
        WordState::Xn {
            n: (2 - free - word) as u32,
        }
    } else if word == -free - half {
        WordState::X2Sx
    } else {
        WordState::XnSx {
            n: (2 - free - half - word) as u32,
        }
    }
}

/// Whether a next writer owns X at the word: there is one, and its last reader is gone. Who reserves X
/// and leaves such a word has X at once.
pub fn is_drained(new: LockWord) -> bool
    ensures test { result ≡ is_drained new.0 }
    ensures word { IsTrue result ↔ ((new.0 ≡ pos 0) ⊎ (new.0 ≡ neg_ℤ (pos X_LOCK_HALF_DECR))) }
    ensures counted { (s sx x : ℕ) → IsWithin s sx x → new.0 ≡ word_of s sx x
        → (IsTrue result ↔ ((s ≡ 0) × (x ≡ 1))) }
{
    new.0 == 0 || new.0 == -(X_LOCK_HALF_DECR as i32)
}

/// Whether the release of S that left the word owes the next writer a signal (sync0rw,
/// `rw_lock_s_unlock_func`): exactly where the word is drained, so that X is the next writer's.
pub fn owes_ex(new: LockWord) -> bool
    ensures test { result ≡ is_drained new.0 }
    ensures word { IsTrue result ↔ ((new.0 ≡ pos 0) ⊎ (new.0 ≡ neg_ℤ (pos X_LOCK_HALF_DECR))) }
    ensures counted { (s sx x : ℕ) → IsWithin s sx x → new.0 ≡ word_of s sx x
        → (IsTrue result ↔ ((s ≡ 0) × (x ≡ 1))) }
{
    is_drained(new)
}
