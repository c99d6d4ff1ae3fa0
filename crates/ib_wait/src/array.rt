//! The wait array: cells that all sessions share, behind one lock.

use crate::cells::Cells;
use ib_map::OutOfMemory;
use std::alloc::Global;
use std::sync::{Mutex, MutexGuard, Wait};

/// The cells in which sessions write down what they wait for (sync0arr, `sync_array_t`).
#[derive(Drop)]
pub struct WaitArray {
    cells: Mutex<Cells>,
}

impl WaitArray {
    /// So many cells, none of which is reserved.
    pub fn new(alloc: Global, n: usize) -> Result<WaitArray, OutOfMemory> {
        let cells = Cells::with_room(alloc, n)?;
        Ok(WaitArray {
            cells: Mutex::new(cells),
        })
    }

    /// The cells, lent under the lock.
    pub fn lend<R: Wait>(&self, rt: &R) -> MutexGuard<'_, Cells> {
        self.cells.lock(rt)
    }

    /// How many reservations were made so far, or 2^63 where that is smaller.
    pub fn ever<R: Wait>(&self, rt: &R) -> u64 {
        self.lend(rt).ever()
    }

    /// How many cells are reserved now.
    pub fn reserved<R: Wait>(&self, rt: &R) -> usize {
        self.lend(rt).reserved()
    }
}
