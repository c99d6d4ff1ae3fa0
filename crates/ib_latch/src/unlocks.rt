//! The releases, and the raises that they owe.

ghost use Rattle.std.specs.Prelude.{◌≡◌, ◌<◌, if◌then◌else◌};
ghost use Rattle.ib_levels.specs.declared.level.Mode.TheVariants.{Sx as ModeSx, X as ModeX};
ghost use Rattle.ib_levels.specs.Holding.{without_latch};
ghost use Rattle.ib_core.specs.declared.phase.Phase.TheVariants.{Free, OwesClear, OwesLook, OwesRaise, OwesRaiseEx};
ghost use Rattle.ib_core.specs.Sessions.{reads, sx_grants, x_grants};
ghost use Rattle.ib_core.specs.Takings.{given_back};
ghost use Rattle.ib_rule.specs.Afterwards.{phased};
ghost use Rattle.ib_rule.specs.Pass.{with_view};
ghost use Rattle.ib_rule.specs.Turns.{IsInPhase};
ghost use Rattle.ib_latch.specs.Unlocks.{IsPaidOff, IsReleased, sx_steps};

use crate::latches::Latches;
use crate::sleep::{Raised, Sleep};
use ib_levels::Latch;
use ib_logrec::Law;
use ib_rule::Pass;
use ib_word::is_drained;

impl<L: Law, S: Sleep> Latches<L, S> {
    /// Gives S back (sync0rw, `rw_lock_s_unlock_func`). The last reader before a next writer raises
    /// the ex generation, and wakes it.
    ///
    /// ```
    /// table.lock_s(rt, &mut pass, latch, Level::TreeNode);
    /// table.unlock_s(&mut pass, latch);
    /// ```
    #[inline(always)]
    pub fn unlock_s(&self, pass: &mut Pass, latch: Latch)
        requires free { IsInPhase self.now latch.0 Free pass.old }
        requires holds { 0 < reads latch.0 pass.old.view.session }
        ensures { IsReleased 1 latch.0 (without_latch latch.0 pass.old.view.session.held) pass.old
            pass.new }
    {
        let word = self.space.give_s(pass, latch);
        if is_drained(word) {
            let raised = self.raise_ex(pass, latch);
            raised.wake(&self.sleep);
        }
    }

    /// Gives one SX back (WL#6363, `rw_lock_sx_unlock_func`). The last one, where no X is held
    /// beside it, wakes who waits.
    ///
    /// ```
    /// table.lock_sx(rt, &mut pass, Latch::INDEX, Level::IndexTree);
    /// table.unlock_sx(&mut pass, Latch::INDEX);
    /// ```
    pub fn unlock_sx(&self, pass: &mut Pass, latch: Latch)
        requires free { IsInPhase self.now latch.0 Free pass.old }
        requires holds { 0 < sx_grants latch.0 pass.old.view.session }
        ensures { IsReleased (sx_steps latch.0 pass.old.view.session) latch.0
            (given_back ModeSx latch.0 pass.old.view.session) pass.old pass.new }
    {
        let counts = pass.counts(latch);
        if counts.sx > 1 {
            self.space.give_sx_again(pass, latch);
        } else if counts.x > 0 {
            self.space.give_sx_under_x(pass, latch);
        } else {
            self.space.give_sx(pass, latch);
            self.pay(pass, latch);
        }
    }

    /// Gives one X back (sync0rw, `rw_lock_x_unlock_func`). The last one wakes who waits.
    ///
    /// ```
    /// table.lock_x(rt, &mut pass, latch, Level::TreeNode);
    /// table.unlock_x(&mut pass, latch);
    /// ```
    pub fn unlock_x(&self, pass: &mut Pass, latch: Latch)
        requires free { IsInPhase self.now latch.0 Free pass.old }
        requires holds { 0 < x_grants latch.0 pass.old.view.session }
        ensures { IsReleased 1 latch.0 (given_back ModeX latch.0 pass.old.view.session) pass.old
            pass.new }
    {
        if pass.counts(latch).x > 1 {
            self.space.give_x_again(pass, latch);
        } else {
            self.space.give_x(pass, latch);
            self.pay(pass, latch);
        }
    }

    // What a last release of SX or X owes: a look at the waiters flag, and where it is set, its
    // clearing and the raise of the generation, which wakes who waits. With nobody waiting that is
    // one load.
    fn pay(&self, pass: &mut Pass, latch: Latch)
        requires owes { IsInPhase self.now latch.0 (OwesLook latch.0) pass.old }
        ensures { IsPaidOff latch.0 pass.old pass.new }
    {
        if self.look(pass, latch) {
            if self.clear(pass, latch) {
                let raised = self.raise(pass, latch);
                raised.wake(&self.sleep);
            }
        }
    }

    // The look at the waiters flag: whether it is set.
    fn look(&self, pass: &mut Pass, latch: Latch) -> bool
        requires owes { IsInPhase self.now latch.0 (OwesLook latch.0) pass.old }
        ensures { pass.new ≡ with_view pass.old
            (phased (if result then OwesClear latch.0 else Free) pass.old.view) }
    {
        self.space.load_waiters(pass, latch) > 0
    }

    // The clearing of the waiters flag: whether it was set.
    fn clear(&self, pass: &mut Pass, latch: Latch) -> bool
        requires owes { IsInPhase self.now latch.0 (OwesClear latch.0) pass.old }
        ensures { pass.new ≡ with_view pass.old
            (phased (if result then OwesRaise latch.0 else Free) pass.old.view) }
    {
        self.space.swap_waiters(pass, latch) > 0
    }

    // The raise of the generation.
    fn raise(&self, pass: &mut Pass, latch: Latch) -> Raised
        requires owes { IsInPhase self.now latch.0 (OwesRaise latch.0) pass.old }
        ensures raised { IsPaidOff latch.0 pass.old pass.new }
        ensures on { result.latch ≡ latch.0 }
    {
        self.space.raise_gen(pass, latch);
        Raised::on(latch.0)
    }

    // The raise of the ex generation.
    fn raise_ex(&self, pass: &mut Pass, latch: Latch) -> Raised
        requires owes { IsInPhase self.now latch.0 (OwesRaiseEx latch.0) pass.old }
        ensures raised { IsPaidOff latch.0 pass.old pass.new }
        ensures on { result.latch ≡ latch.0 }
    {
        self.space.raise_ex_gen(pass, latch);
        Raised::on(latch.0)
    }
}
