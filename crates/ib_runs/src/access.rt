//! How a session's calls reach the leaf of their key.

ghost use Rattle.ib_map.specs.Space.{has_pages};
ghost use Rattle.ib_map.specs.declared.call.Call.{Call};
ghost use Rattle.ib_map.specs.declared.call.Call.TheVariants.{Delete as DeleteCall, Get as GetCall, Insert as InsertCall};
ghost use Rattle.ib_runs.specs.Access.{HasAccessed, MayAccess};
ghost use Rattle.ib_runs.specs.Shared.{calls_under};

use crate::shared::Shared;
use ib_map::{Key, OutOfMemory, Record};
use ib_rule::Pass;
use std::alloc::Global;
use std::sync::Wait;

/// How the calls of a script's sessions on what they share reach the leaf of their key: what the sessions have in common for
/// it, and what each of them has of its own. A call is answered the same by each; they differ in the grants that they take.
pub trait Access<S: Shared>: Drop {
    ghost use Rattle.std.specs.Prelude.{◌≡◌, ℕ, ◌<◌, ◌≤◌, ◌+◌, Bool, IfOk, true};

    /// What a session has of its own.
    type Seat: Send;

    // whether a call goes by a guess first
    ghost guesses: { Bool };

    // the most grants that each call takes
    ghost most: { Call → ℕ };

    // it is for spaces of so many pages
    ghost serves: { Self → ℕ → Type 0 };

    // how many seats were drawn, at most
    ghost drawn: { Self → ℕ };

    // the seat was drawn from it
    ghost sits: { Self → Self.Seat → Type 0 };

    /// For a new space of so many pages.
    fn open(alloc: Global, pages: u32) -> Result<Self, OutOfMemory>
        requires pages { has_pages pages ≡ true }
        ensures serves { IfOk result (λ access. serves access pages) }
        ensures drawn { IfOk result (λ access. drawn access ≡ 0) };

    /// Draws a seat, one of 64 at most.
    fn connect(&mut self) -> Self::Seat
        requires few { drawn self.old < 64 }
        ensures sits { sits self.new result }
        ensures serves { (pages : ℕ) → serves self.old pages → serves self.new pages }
        ensures others { (seat : Self.Seat) → sits self.old seat → sits self.new seat }
        ensures drawn { drawn self.new ≤ drawn self.old + 1 };

    /// Takes a seat back.
    fn disconnect(&mut self, seat: Self::Seat)
        requires sits { sits self.old seat }
        ensures others { (other : Self.Seat) → sits self.old other → sits self.new other };

    /// Looks a key up: `Found` with its value, or `NotFound`.
    fn get<R: Wait>(
        &self,
        rt: &R,
        seat: &mut Self::Seat,
        shared: &S,
        pass: &mut Pass,
        key: Key,
    ) -> Record
        requires { MayAccess (S.takes (GetCall key)) (sits self.now seat.old) (serves self.now (S.space shared.now).sizes.pages) (S.space shared.now) pass.old }
        ensures { HasAccessed (calls_under S.law) guesses most (sits self.now seat.new) (S.space shared.now) (GetCall key) result pass.old pass.new };

    /// Puts a pair in: `Inserted`, or why it was not.
    fn insert<R: Wait>(
        &self,
        rt: &R,
        seat: &mut Self::Seat,
        shared: &S,
        pass: &mut Pass,
        key: Key,
        value: u64,
    ) -> Record
        requires { MayAccess (S.takes (InsertCall key value)) (sits self.now seat.old) (serves self.now (S.space shared.now).sizes.pages) (S.space shared.now) pass.old }
        ensures { HasAccessed (calls_under S.law) guesses most (sits self.now seat.new) (S.space shared.now) (InsertCall key value) result pass.old pass.new };

    /// Takes a key out: `Deleted` with its value, or why it was not.
    fn delete<R: Wait>(
        &self,
        rt: &R,
        seat: &mut Self::Seat,
        shared: &S,
        pass: &mut Pass,
        key: Key,
    ) -> Record
        requires { MayAccess (S.takes (DeleteCall key)) (sits self.now seat.old) (serves self.now (S.space shared.now).sizes.pages) (S.space shared.now) pass.old }
        ensures { HasAccessed (calls_under S.law) guesses most (sits self.now seat.new) (S.space shared.now) (DeleteCall key) result pass.old pass.new };
}
