//! The atomic steps under the rule: a guess is looked at, or stored.

ghost use Rattle.std.specs.Prelude.{◌≡◌, ◌<◌};
ghost use Rattle.ib_hash.specs.Rule.{looking, storing};

use crate::rule::GuessRule;
use crate::slots::SLOTS;
use crate::view::GuessSteps;
use atomic_table::{Play, Seat, Shared};
use std::marker::{Brand, PhantomData};

/// What contracts say of a load: how many pages the space has.
pub trait Naming {
    ghost use Rattle.std.specs.Prelude.{ℕ};

    ghost pages: { ℕ };
}

impl Naming for Brand {
    ghost pages = { 0 };
}

/// What a load tells its caller. It holds no value: it is a type by which the proof says that.
pub struct TellsLook<T> {
    pages: PhantomData<T>,
}

impl<T: Naming> Play<(), GuessSteps> for TellsLook<T> {
    ghost use Rattle.std.specs.Prelude.{◌≡◌, ◌<◌};
    ghost use Rattle.ib_hash.specs.Rule.{looking};

    ghost then = { λ step m n w. (w ≡ (looking step.word n m.0, m.1)) × (n < T.pages) };
}

/// What a store tells its caller.
pub struct TellsStore;

impl Play<(), GuessSteps> for TellsStore {
    ghost use Rattle.std.specs.Prelude.{◌≡◌};
    ghost use Rattle.ib_hash.specs.Rule.{storing};

    ghost then = { λ step m n w. w ≡ (storing step.word n m.0, m.1) };
}

/// The table as threads share it.
pub(crate) type Board = Shared<(), GuessSteps, u32, GuessRule>;

// Loads the guess of a slot.
pub(crate) fn load<T: Naming>(board: &Board, seat: &mut Seat<(), GuessSteps>, slot: u32) -> u64
    requires pages { board.now.key ≡ T.pages }
    requires own { seat.old.table_id ≡ board.now.table_id }
    requires words { board.now.table_id.words ≡ SLOTS }
    requires slot { slot < SLOTS }
    ensures table { seat.new.table_id ≡ seat.old.table_id }
    ensures me { seat.new.me ≡ (looking slot result seat.old.me.0, seat.old.me.1) }
    ensures page { result < board.now.key }
{
    board.load::<TellsLook<T>>(seat, slot as usize)
}

// Stores a page as the guess of a slot.
pub(crate) fn store(board: &Board, seat: &mut Seat<(), GuessSteps>, slot: u32, page: u32)
    requires own { seat.old.table_id ≡ board.now.table_id }
    requires words { board.now.table_id.words ≡ SLOTS }
    requires slot { slot < SLOTS }
    requires page { page < board.now.key }
    ensures table { seat.new.table_id ≡ seat.old.table_id }
    ensures me { seat.new.me ≡ (storing slot page seat.old.me.0, seat.old.me.1) }
{
    board.store::<TellsStore>(seat, slot as usize, u64::from(page));
}
