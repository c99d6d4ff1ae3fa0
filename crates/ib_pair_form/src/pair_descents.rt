//! Calls on a pair of trees that reach their leaves by descents.

ghost use Rattle.std.specs.Prelude.{false};
ghost use Rattle.ib_pair_form.specs.PairCalls.{most_pair_grants};

use crate::shared_pair::SharedPair;
use ib_map::{Key, OutOfMemory, Record};
use ib_rule::Pass;
use ib_runs::Access;
use std::alloc::Global;
use std::sync::Wait;

/// Each call descends from the roots of the trees of which it needs a leaf. The sessions have nothing in common for it, and
/// nothing of their own.
#[derive(Drop)]
pub struct PairDescents;

impl Access<SharedPair> for PairDescents {
    type Seat = ();

    ghost guesses = { false };

    ghost most = { most_pair_grants };

    ghost serves = { λ _ _. Unit {0} };

    ghost drawn = { λ _. 0 };

    ghost sits = { λ _ _. Unit {0} };

    fn open(_alloc: Global, _pages: u32) -> Result<Self, OutOfMemory> {
        Ok(PairDescents)
    }

    fn connect(&mut self) -> Self::Seat {}

    fn disconnect(&mut self, _seat: Self::Seat) {}

    fn get<R: Wait>(
        &self,
        rt: &R,
        _seat: &mut Self::Seat,
        shared: &SharedPair,
        pass: &mut Pass,
        key: Key,
    ) -> Record {
        shared.pair.get(rt, pass, key)
    }

    fn insert<R: Wait>(
        &self,
        rt: &R,
        _seat: &mut Self::Seat,
        shared: &SharedPair,
        pass: &mut Pass,
        key: Key,
        value: u64,
    ) -> Record {
        shared.pair.insert(rt, pass, key, value)
    }

    fn delete<R: Wait>(
        &self,
        rt: &R,
        _seat: &mut Self::Seat,
        shared: &SharedPair,
        pass: &mut Pass,
        key: Key,
    ) -> Record {
        shared.pair.delete(rt, pass, key)
    }
}
