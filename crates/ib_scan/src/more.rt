//! A scan that found no room for its next chunk.

use ib_map::Key;
use thiserror::Error;

/// The chunk that begins at `next` finds no chunk place spare, or fewer pair places than it has pairs.
/// What comes before it is in the list. To go on, make room, and scan from `next` on.
#[derive(Clone, Copy, PartialEq, Eq, Debug, Error)]
#[error("no room for the chunk from the key of the words {} and {} on", .next.words().0, .next.words().1)]
pub struct More {
    /// The key at which the next chunk begins.
    pub next: Key,
}
