//! The room in which a session works.

use ib_levels::{Latch, Mode};
use ib_page::WorkSet;

/// The room in which a session works: the pages of a change, and the memo of a mini-transaction.
#[derive(Drop)]
pub struct Scratch {
    /// The pages that it reads and changes, with room for 32.
    pub work: WorkSet,
    /// The latches that it took, in order of taking, with room for 8,192.
    pub memo: Vec<(Latch, Mode)>,
}
