//! Calls that reach their leaf by a descent.

ghost use Rattle.std.specs.Prelude.{ℕ, false};
ghost use Rattle.ib_runs.specs.Sessions.{most_grants};

use crate::access::Access;
use ib_index::Index;
use ib_map::{Key, OutOfMemory, Record};
use ib_rule::Pass;
use std::alloc::Global;
use std::sync::Wait;

/// Each call descends from the root of the index, as `btr_cur_search_to_nth_level` does without the adaptive hash index.
/// The sessions share nothing besides the index, and have nothing of their own.
#[derive(Drop)]
pub struct Descents;

impl Access<Index> for Descents {
    type Seat = ();

    ghost guesses = { false };

    ghost most = { most_grants false };

    ghost serves = { λ _ _. Unit {0} };

    ghost drawn = { λ _. 0 };

    ghost sits = { λ _ _. Unit {0} };

    fn open(_alloc: Global, _pages: u32) -> Result<Self, OutOfMemory> {
        Ok(Descents)
    }

    fn connect(&mut self) -> Self::Seat {}

    fn disconnect(&mut self, _seat: Self::Seat) {}

    fn get<R: Wait>(
        &self,
        rt: &R,
        _seat: &mut Self::Seat,
        index: &Index,
        pass: &mut Pass,
        key: Key,
    ) -> Record {
        index.get(rt, pass, key)
    }

    fn insert<R: Wait>(
        &self,
        rt: &R,
        _seat: &mut Self::Seat,
        index: &Index,
        pass: &mut Pass,
        key: Key,
        value: u64,
    ) -> Record {
        index.insert(rt, pass, key, value)
    }

    fn delete<R: Wait>(
        &self,
        rt: &R,
        _seat: &mut Self::Seat,
        index: &Index,
        pass: &mut Pass,
        key: Key,
    ) -> Record {
        index.delete(rt, pass, key)
    }
}
