//! The steps that give grants back.

ghost use Rattle.std.specs.Prelude.{◌≡◌, ℕ, ◌+◌, ◌-◌, ◌<◌};
ghost use Rattle.ib_word.specs.Word.{cell_of};
ghost use Rattle.ib_word.specs.Weight.{x_weight};
ghost use Rattle.ib_word.specs.declared.word.TheConstants.{X_LOCK_DECR, X_LOCK_HALF_DECR};
ghost use Rattle.ib_levels.specs.declared.level.Mode.TheVariants.{S as ModeS, Sx as ModeSx, X as ModeX};
ghost use Rattle.ib_levels.specs.Holding.{changed_on, without_latch};
ghost use Rattle.ib_core.specs.declared.event.Event.TheVariants.{Us, Usx, Ux};
ghost use Rattle.ib_core.specs.declared.phase.Phase.TheVariants.{Free, OwesLook};
ghost use Rattle.ib_core.specs.Good.{IsProper};
ghost use Rattle.ib_core.specs.Takings.{given_back, one_fewer, owed_by_s};
ghost use Rattle.ib_core.specs.Sessions.{reads, sx_grants, x_grants};
ghost use Rattle.ib_rule.specs.Afterwards.{with_step};
ghost use Rattle.ib_rule.specs.Pass.{with_view};
ghost use Rattle.ib_rule.specs.Turns.{IsInPhase, IsTurn};
ghost use Rattle.ib_rule.specs.Views.{left_as};

use crate::kind::WordOp;
use crate::pass::Pass;
use crate::space::Space;
use crate::turns::{HALF, WHOLE};
use ib_core::{Event, LatchWord};
use ib_levels::Latch;
use ib_logrec::Law;
use ib_word::{LockWord, from_cell, give_x};

impl<L: Law> Space<L> {
    /// Gives S back: adds 1 to the lock word. Where 0 or minus `X_LOCK_HALF_DECR` is left, a next
    /// writer waits for the raise of the ex generation that is owed then (sync0rw,
    /// `rw_lock_s_unlock_func`). It answers the word after the step.
    #[inline(always)]
    pub fn give_s(&self, pass: &mut Pass, latch: Latch) -> LockWord
        requires free { IsInPhase self.now latch.0 Free pass.old }
        requires holds { 0 < reads latch.0 pass.old.view.session }
        ensures turn { IsTurn (Us latch.0) (cell_of result.0 - 1) pass.old pass.new }
        ensures left { pass.new ≡ with_view pass.old (with_step (left_as latch.0 (record {
          held = without_latch latch.0 pass.old.view.session.held;
          phase = owed_by_s latch.0 result.0;
        }) pass.old.view)) }
    {
        let event = Event::Us { latch: latch.0 };
        let (found, _) = self.turn(pass, event, LatchWord::Lock, WordOp::Add(1));
        from_cell(found + 1)
    }

    /// Gives the last SX back, with no X of one's own: adds `X_LOCK_HALF_DECR` to the lock word. A
    /// look at the waiters flag is owed then (`rw_lock_sx_unlock_func`). It answers the word after the
    /// step.
    #[inline(always)]
    pub fn give_sx(&self, pass: &mut Pass, latch: Latch) -> LockWord
        requires free { IsInPhase self.now latch.0 Free pass.old }
        requires last { sx_grants latch.0 pass.old.view.session ≡ 1 }
        requires no_x { x_grants latch.0 pass.old.view.session ≡ 0 }
        ensures turn { IsTurn (Usx latch.0) (cell_of result.0 - X_LOCK_HALF_DECR) pass.old
            pass.new }
        ensures left { pass.new ≡ with_view pass.old (with_step (left_as latch.0 (record {
          held = without_latch latch.0 pass.old.view.session.held;
          phase = OwesLook latch.0;
        }) pass.old.view)) }
    {
        self.last_sx_on(pass, latch)
    }

    /// Gives the last SX back beside one's own X: adds `X_LOCK_HALF_DECR` to the lock word, and nothing
    /// is owed. It answers the word after the step.
    pub fn give_sx_under_x(&self, pass: &mut Pass, latch: Latch) -> LockWord
        requires free { IsInPhase self.now latch.0 Free pass.old }
        requires last { sx_grants latch.0 pass.old.view.session ≡ 1 }
        requires owns_x { 0 < x_grants latch.0 pass.old.view.session }
        ensures turn { IsTurn (Usx latch.0) (cell_of result.0 - X_LOCK_HALF_DECR) pass.old
            pass.new }
        ensures left { pass.new ≡ with_view pass.old (with_step (left_as latch.0 (record {
          held = changed_on latch.0 (one_fewer ModeSx) pass.old.view.session.held;
          phase = Free;
        }) pass.old.view)) }
    {
        self.last_sx_on(pass, latch)
    }

    /// Gives an SX back that is not the last: a load of the writer counts it, and nothing is owed.
    pub fn give_sx_again(&self, pass: &mut Pass, latch: Latch)
        requires free { IsInPhase self.now latch.0 Free pass.old }
        requires more { 1 < sx_grants latch.0 pass.old.view.session }
        ensures turn { (found : ℕ) × IsTurn (Usx latch.0) found pass.old pass.new }
        ensures left { pass.new ≡ with_view pass.old (left_as latch.0 (record {
          held = changed_on latch.0 (one_fewer ModeSx) pass.old.view.session.held;
          phase = Free;
        }) pass.old.view) }
    {
        let event = Event::Usx { latch: latch.0 };
        self.turn(pass, event, LatchWord::Writer, WordOp::Load);
    }

    /// Gives the last X back: adds `X_LOCK_DECR` to the lock word. A look at the waiters flag is
    /// owed then, also where SX is left (`rw_lock_x_unlock_func`). It answers the word after the step.
    #[inline(always)]
    pub fn give_x(&self, pass: &mut Pass, latch: Latch) -> LockWord
        requires free { IsInPhase self.now latch.0 Free pass.old }
        requires last { x_grants latch.0 pass.old.view.session ≡ 1 }
        ensures turn { IsTurn (Ux latch.0) (cell_of result.0 - X_LOCK_DECR) pass.old pass.new }
        ensures left { pass.new ≡ with_view pass.old (with_step (left_as latch.0 (record {
          held = given_back ModeX latch.0 pass.old.view.session;
          phase = OwesLook latch.0;
        }) pass.old.view)) }
    {
        let event = Event::Ux { latch: latch.0 };
        let (found, _) = self.turn(pass, event, LatchWord::Lock, WordOp::Add(WHOLE));
        from_cell(found + WHOLE)
    }

    /// Gives an X back that is not the last: adds `X_LOCK_DECR` to the lock word where one is left,
    /// and else 1. Nothing is owed. It answers the word after the step.
    pub fn give_x_again(&self, pass: &mut Pass, latch: Latch) -> LockWord
        requires free { IsInPhase self.now latch.0 Free pass.old }
        requires more { 1 < x_grants latch.0 pass.old.view.session }
        ensures turn { let x = x_grants latch.0 pass.old.view.session in
            IsTurn (Ux latch.0) (cell_of result.0 - (x_weight x - x_weight (x - 1))) pass.old
            pass.new }
        ensures left { pass.new ≡ with_view pass.old (with_step (left_as latch.0 (record {
          held = changed_on latch.0 (one_fewer ModeX) pass.old.view.session.held;
          phase = Free;
        }) pass.old.view)) }
    {
        let weight = u64::from(give_x(pass.member.counts(latch).x));
        let event = Event::Ux { latch: latch.0 };
        let (found, _) = self.turn(pass, event, LatchWord::Lock, WordOp::Add(weight));
        from_cell(found + weight)
    }

    // Gives the last SX back: adds HALF to the lock word.
    #[inline(always)]
    fn last_sx_on(&self, pass: &mut Pass, latch: Latch) -> LockWord
        requires free { IsInPhase self.now latch.0 Free pass.old }
        requires last { sx_grants latch.0 pass.old.view.session ≡ 1 }
        ensures turn { IsTurn (Usx latch.0) (cell_of result.0 - X_LOCK_HALF_DECR) pass.old
            pass.new }
        ensures proper { IsProper pass.old.view.session }
    {
        let event = Event::Usx { latch: latch.0 };
        let (found, _) = self.turn(pass, event, LatchWord::Lock, WordOp::Add(HALF));
        from_cell(found + HALF)
    }
}
