//! Why a scan that never waits ended before all was scanned.

use ib_cursor::NowaitFault;
use ib_map::Key;
use thiserror::Error;

/// Why a scan that never waits ended before all was scanned. What comes before `next` is in the list of chunks. To
/// go on, scan from `next` on: with more room, or later.
#[derive(Clone, Copy, PartialEq, Eq, Debug, Error)]
pub enum Halt {
    /// The chunk that begins at `next` finds no chunk place spare, or fewer pair places than it has pairs.
    #[error("no room for the chunk from the key of the words {} and {} on", next.words().0, next.words().1)]
    NoRoom {
        /// The key at which the next chunk begins.
        next: Key,
    },
    /// A latch was refused on the way to the chunk that begins at `next`.
    #[error("{fault}, on the way to the key of the words {} and {}", next.words().0, next.words().1)]
    Refused {
        /// The key at which the next chunk begins.
        next: Key,
        /// The latch that was not had, and the words of the try.
        fault: NowaitFault,
    },
}
