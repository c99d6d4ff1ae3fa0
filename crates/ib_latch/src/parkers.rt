//! Sessions that sleep on parkers of their own, and write down in the wait array what they wait for.

ghost use Rattle.std.specs.Prelude.{◌≡◌};
ghost use Rattle.ib_latch.specs.Waits.{IsCellOf};

use crate::sleep::Sleep;
use ib_rule::{OutOfMemory, Pass};
use ib_wait::{Cell, Sleepers, WaitArray};
use std::alloc::Global;
use std::marker::Model;
use std::sync::Wait;
use std::thread;

/// How many cells a wait array has: as many as there can be sessions.
const CELLS: usize = 1024;

const _: () = prove!(CELLS == 1024);

/// A parker for each session, and a wait array of 1,024 cells (sync0arr). Contracts see how many parkers
/// there are.
#[derive(Drop)]
pub struct Parkers {
    array: WaitArray,
    sleepers: Sleepers,
}

impl Model for Parkers {
    ghost use Rattle.std.specs.Prelude.{ℕ};

    ghost Value = { ℕ };

    ghost view = { λ p. p.sleepers };
}

impl Sleep for Parkers {
    ghost use Rattle.std.specs.Prelude.{nat_le};

    ghost admits = { λ sleepers n. nat_le n sleepers };

    fn new(alloc: Global) -> Result<Parkers, OutOfMemory> {
        let array = WaitArray::new(alloc, CELLS)?;
        Ok(Parkers {
            array,
            sleepers: Sleepers::new(alloc),
        })
    }

    fn admit(&mut self, number: u32) -> Result<(), OutOfMemory> {
        for _ in self.sleepers.len()..number as usize {
            self.sleepers.add()?;
        }
        Ok(())
    }

    // A parker is one session's, whatever it sleeps on: each looks again at its own generation.
    fn wake(&self, _latch: u32) {
        self.sleepers.wake_all();
    }
}

// A cell of the wait array that is reserved. It is not dropped, and nothing but `free` takes it: a session that has one
// and does not return it does not compile.
pub(crate) struct ReservedCell {
    place: usize,
}

impl Parkers {
    // Reserves a cell for a session, in which stands what it waits for. None where all are reserved.
    pub(crate) fn reserve<R: Wait>(&self, rt: &R, pass: &Pass, cell: Cell) -> Option<ReservedCell>
        requires { IsCellOf cell pass.now }
    {
        // For the proof: the contract alone speaks of it.
        let _ = pass;
        match self.array.lend(rt).reserve(cell) {
            Ok(place) => Some(ReservedCell { place }),
            Err(_) => None,
        }
    }

    // Returns a cell.
    pub(crate) fn free<R: Wait>(&self, rt: &R, cell: ReservedCell) {
        let ReservedCell { place } = cell;
        let mut cells = self.array.lend(rt);
        if cells.report(place).is_some() {
            cells.free(place);
        }
    }

    // The session sleeps until it is woken.
    pub(crate) fn sleep<R: Wait>(&self, rt: &R, pass: &Pass) {
        let number = pass.number();
        if number >= 1 && number as usize <= self.sleepers.len() {
            self.sleepers.sleep(rt, number);
        } else {
            thread::yield_now();
        }
    }

    // How many parkers there are.
    pub(crate) fn count(&self) -> usize
        ensures { result ≡ self.now }
    {
        self.sleepers.len()
    }

    // How many reservations were made so far, as far as the number goes.
    pub(crate) fn ever<R: Wait>(&self, rt: &R) -> u32 {
        u32::try_from(self.array.ever(rt)).unwrap_or(u32::MAX)
    }

    // How many cells are reserved now.
    pub(crate) fn reserved<R: Wait>(&self, rt: &R) -> usize {
        self.array.reserved(rt)
    }
}
