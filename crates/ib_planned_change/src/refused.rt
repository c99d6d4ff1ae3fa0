//! Why a change is not made.

use ib_logrec::FullKind;

/// Why a change is not made.
#[derive(Clone, Copy, Debug, PartialEq, Eq)]
pub enum Refused {
    /// The map does not make it: the key of an insert is there, or that of a delete is not.
    Unmade,
    /// Its insert finds the tree or the space full.
    Full { why: FullKind },
}
