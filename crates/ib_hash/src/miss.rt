//! Why a change was not made by a guess.

use thiserror::Error;

/// Why a change was not made by a guess. Nothing was changed, and nothing is held.
#[derive(Debug, Drop, Error)]
pub enum Miss {
    /// The slot of the key has no guess.
    #[error("there is no guess")]
    NoGuess,
    /// The page that was guessed is not a leaf within whose records the key is.
    #[error("page {page} is a wrong guess")]
    Wrong { page: u32 },
    /// The page is the leaf of the key, but the change needs more than this leaf.
    #[error("the change needs more than page {page}")]
    NeedsTree { page: u32 },
}
