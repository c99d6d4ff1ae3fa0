//! Who works beside the sessions of a script, on what they share.

ghost use Rattle.std.specs.Prelude.{[]};
ghost use Rattle.ib_runs.specs.Guests.{AreNewGuests, HaveWorked, MayWork};

use crate::gate::Gate;
use crate::shared::Shared;
use ib_map::OutOfMemory;
use std::alloc::Global;
use std::sync::Wait;

/// Who works beside the sessions of a script on what they share: `Nobody`, or one session more, which changes nothing. It
/// connects after theirs, so that its number is one above the greatest, works while they have their turns, and goes when
/// these are over.
pub trait Beside<S: Shared>: Send {
    ghost use Rattle.std.specs.Prelude.{◌≡◌, ℕ, ◌+◌, ◌++◌, List, false, length, map, IfOk, OnErr};
    ghost use Rattle.std.specs.List.{AllByRecursion};
    ghost use Rattle.ib_logrec.specs.declared.entry.Entry.{Entry};
    ghost use Rattle.ib_rule.specs.Pass.{IsAtRest, PassState};
    ghost use Rattle.ib_rule.specs.Views.{ended_as};

    /// Its session, where it has one.
    type Guest: Send;

    // the passes of its sessions: of none, or of one
    ghost passes: { Self.Guest → List PassState };

    // it is for spaces of so many pages
    ghost serves: { Self → ℕ → Type 0 };

    // what it has is of this log, in a space of so many pages
    ghost holds: { Self → ℕ → List Entry → Type 0 };

    /// Connects its session.
    fn connect(&self, alloc: Global, shared: &mut S) -> Result<Self::Guest, OutOfMemory>
        ensures space { IfOk result (λ guest. S.space shared.new ≡ record (S.space shared.old) { drawn = (S.space shared.old).drawn + length (passes guest) }) }
        ensures rest { IfOk result (λ guest. AllByRecursion (IsAtRest (S.space shared.old)) (passes guest)) }
        ensures new { IfOk result (λ guest. AreNewGuests ((S.space shared.old).drawn + 1) (passes guest)) }
        ensures refused { OnErr result (S.space shared.new ≡ S.space shared.old) };

    /// Whether it has a session. Where it has none no thread is started for it.
    fn is_there(&self) -> bool
        ensures { result ≡ false → (pages : ℕ) (log : List Entry) → holds self.now pages log };

    /// Works with its session, while the script's sessions have their turns.
    fn work<G: Gate, R: Wait>(&mut self, rt: &R, shared: &S, guest: &mut Self::Guest, gate: &G)
        requires { MayWork (serves self.old (S.space shared.now).sizes.pages) (S.space shared.now) (passes guest.old) }
        ensures { HaveWorked (serves self.old) (serves self.new) (holds self.new (S.space shared.now).sizes.pages) (S.space shared.now) (passes guest.old) (passes guest.new) };

    /// Its session ends.
    fn disconnect(shared: &mut S, guest: Self::Guest)
        requires rest { AllByRecursion (IsAtRest (S.space shared.old)) (passes guest) }
        ensures space { S.space shared.new ≡ record (S.space shared.old) { ended = map (λ p. ended_as p.view) (passes guest) ++ (S.space shared.old).ended } };
}

/// Nobody: the sessions of the script are all that there are.
#[derive(Clone, Copy, Debug)]
pub struct Nobody;

impl<S: Shared> Beside<S> for Nobody {
    type Guest = ();

    ghost passes = { λ _. [] };

    ghost serves = { λ _ _. Unit {0} };

    ghost holds = { λ _ _ _. Unit {0} };

    fn connect(&self, _alloc: Global, _shared: &mut S) -> Result<Self::Guest, OutOfMemory> {
        Ok(())
    }

    fn is_there(&self) -> bool {
        false
    }

    fn work<G: Gate, R: Wait>(
        &mut self,
        _rt: &R,
        _shared: &S,
        _guest: &mut Self::Guest,
        _gate: &G,
    ) {}

    fn disconnect(_shared: &mut S, _guest: Self::Guest) {}
}
