//! The cells of the wait array: a stack of returned cells over cells that were never used.

ghost use Rattle.std.specs.Prelude.{◌≡◌, ◌↔◌, ◌≤◌, ◌++◌, ◌∷◌, [], None, Some, IsErr, IfErr, IfOk, IsSome, length, slice_set};
ghost use Rattle.ib_wait.specs.Cells.{Reserves, cell_at, one_more_ever, reserved_in};

use ib_levels::Latch;
use ib_map::OutOfMemory;
use std::alloc::Global;
use std::marker::Model;
use thiserror::Error;

/// What a session waits for.
#[derive(Clone, Copy, PartialEq, Eq, Debug)]
pub enum Wish {
    /// A grant of S.
    S,
    /// A grant of SX.
    Sx,
    /// A grant or a reservation of X.
    X,
    /// That no reader is left before the next writer.
    NextX,
}

/// What a session that waits has written down (sync0arr, `sync_cell_t`).
#[derive(Clone, Copy, PartialEq, Eq, Debug)]
pub struct Cell {
    /// The latch that it waits for.
    pub latch: Latch,
    pub wish: Wish,
    /// Its number, from 1 on.
    pub session: u32,
    /// The generation that it recorded: for `NextX` the ex generation.
    pub generation: u64,
}

/// All cells are reserved, so many.
#[derive(Clone, Copy, PartialEq, Eq, Debug, Error)]
#[error("all {reserved} wait cells are reserved")]
pub struct NoCell {
    pub reserved: usize,
}

/// The cells of a wait array. Contracts see how many there are, those that were ever used, in
/// order, the stack of those that were returned, and how many reservations were made.
#[derive(Drop)]
pub struct Cells {
    room: usize,
    used: Vec<Option<Cell>>,
    returned: Vec<usize>,
    ever: u64,
}

impl Model for Cells {
    ghost use Rattle.ib_wait.specs.Cells.{CellsState, cells_state, IsCells};

    ghost Value = { CellsState };

    ghost view = { λ c. cells_state c };

    ghost invariant = { λ c. IsCells c };
}

// The count of reservations stands still at this number.
const MOST_EVER: u64 = 1 << 63;

impl Cells {
    /// So many cells, none of which is reserved. All memory that they need is taken here.
    pub fn with_room(alloc: Global, n: usize) -> Result<Cells, OutOfMemory>
        ensures { IfOk result (λ c. c ≡ record { room = n; used = []; returned = []; ever = 0 }) }
    {
        let used = Vec::with_capacity(alloc, n)?;
        let returned = Vec::with_capacity(alloc, n)?;
        Ok(Cells {
            room: n,
            used,
            returned,
            ever: 0,
        })
    }

    /// Reserves the cell that was returned last, and where none was, the first that was never used.
    /// It answers the cell's place. Refused exactly where all are reserved.
    pub fn reserve(&mut self, cell: Cell) -> Result<usize, NoCell>
        ensures ok { IfOk result (λ place. Reserves place cell self.old self.new) }
        ensures err { IfErr result (λ none. (none.reserved ≡ self.old.room)
            × (self.new ≡ self.old)) }
        ensures full { IsErr result ↔ (reserved_in self.old.used ≡ self.old.room) }
    {
        if let Some(place) = self.returned.pop() {
            self.used[place] = Some(cell);
            self.ever = one_more_ever(self.ever);
            return Ok(place);
        }
        let place = self.used.len();
        if place == self.room {
            return Err(NoCell {
                reserved: self.room,
            });
        }
        self.used.push_reserved(Some(cell));
        self.ever = one_more_ever(self.ever);
        Ok(place)
    }

    /// Returns a cell that is reserved, and answers what was written in it.
    pub fn free(&mut self, place: usize) -> Cell
        requires { IsSome (cell_at place self.old.used) }
        ensures cell { cell_at place self.old.used ≡ Some result }
        ensures freed { self.new ≡ record self.old {
          used = slice_set self.old.used place None;
          returned = self.old.returned ++ place ∷ [];
        } }
    {
        let cell = self.used[place].unwrap();
        self.used[place] = None;
        self.returned.push_reserved(place);
        cell
    }

    /// What is written in the cell at a place. None exactly where it is not reserved.
    pub fn report(&self, place: usize) -> Option<Cell>
        ensures { result ≡ cell_at place self.now.used }
    {
        match self.used.get(place) {
            Some(cell) => *cell,
            None => None,
        }
    }

    /// How many reservations were made so far, or 2^63 where that is smaller.
    pub fn ever(&self) -> u64
        ensures { result ≡ self.now.ever }
    {
        self.ever
    }

    /// How many cells are reserved now.
    pub fn reserved(&self) -> usize
        ensures { result ≡ reserved_in self.now.used }
    {
        self.used.len() - self.returned.len()
    }
}

// A reservation more.
fn one_more_ever(ever: u64) -> u64
    requires { ever ≤ MOST_EVER }
    ensures { result ≡ one_more_ever ever }
{
    if ever < MOST_EVER { ever + 1 } else { ever }
}
