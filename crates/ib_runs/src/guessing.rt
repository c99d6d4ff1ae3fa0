//! Calls that go by a guess first.

ghost use Rattle.std.specs.Prelude.{◌≡◌, ℕ, true};
ghost use Rattle.ib_hash.specs.Guesses.{IsPassOf};
ghost use Rattle.ib_runs.specs.Sessions.{most_grants};

use crate::access::Access;
use ib_hash::{GuessPass, Guesses, get, try_delete, try_insert};
use ib_index::Index;
use ib_map::{Key, OutOfMemory, Record};
use ib_rule::Pass;
use std::alloc::Global;
use std::sync::Wait;

/// Each call goes by the guess of its key's slot, and by the index where that is no way to an answer
/// (`btr_search_guess_on_hash`, and the descent after it). The sessions share the guesses, and each has a pass of its own.
impl Access<Index> for Guesses {
    type Seat = GuessPass;

    ghost guesses = { true };

    ghost most = { most_grants true };

    ghost serves = { λ guesses pages. guesses.pages ≡ pages };

    ghost drawn = { λ guesses. guesses.drawn };

    ghost sits = { λ guesses gp. IsPassOf guesses gp };

    fn open(alloc: Global, pages: u32) -> Result<Self, OutOfMemory> {
        Guesses::open(alloc, pages)
    }

    fn connect(&mut self) -> Self::Seat {
        Guesses::connect(self)
    }

    fn disconnect(&mut self, seat: Self::Seat) {
        Guesses::disconnect(self, seat);
    }

    fn get<R: Wait>(
        &self,
        rt: &R,
        seat: &mut Self::Seat,
        index: &Index,
        pass: &mut Pass,
        key: Key,
    ) -> Record {
        get(rt, self, index.latches(), seat, pass, key)
    }

    fn insert<R: Wait>(
        &self,
        rt: &R,
        seat: &mut Self::Seat,
        index: &Index,
        pass: &mut Pass,
        key: Key,
        value: u64,
    ) -> Record {
        match try_insert(rt, self, index.latches(), seat, pass, key, value) {
            Ok(answer) => answer,
            Err(_) => index.insert(rt, pass, key, value),
        }
    }

    fn delete<R: Wait>(
        &self,
        rt: &R,
        seat: &mut Self::Seat,
        index: &Index,
        pass: &mut Pass,
        key: Key,
    ) -> Record {
        match try_delete(rt, self, index.latches(), seat, pass, key) {
            Ok(answer) => answer,
            Err(_) => index.delete(rt, pass, key),
        }
    }
}
