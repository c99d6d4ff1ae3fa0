//! Latches that are waited for, onto the memo (mtr0mtr, `mtr_s_lock`, `mtr_sx_lock`, `mtr_x_lock`).

ghost use Rattle.std.specs.Prelude.{◌≡◌};
ghost use Rattle.ib_levels.specs.declared.level.Mode.TheVariants.{S as ModeS, Sx as ModeSx, X as ModeX};
ghost use Rattle.ib_core.specs.Sessions.{claims, sx_grants, x_grants};
ghost use Rattle.ib_core.specs.Takings.{holding_too, is_given_at};
ghost use Rattle.ib_rule.specs.Laws.{Stores};
ghost use Rattle.ib_rule.specs.Takes.{MayTake, MayTakeMore};
ghost use Rattle.ib_latch.specs.Tries.{held_with};
ghost use Rattle.ib_latch.specs.Waits.{EndsOwning, EndsWon};
ghost use Rattle.ib_mtr.specs.Mtr.{IsGranted, IsMtr, IsStillMtr};

use crate::mtr::Mtr;
use ib_latch::Parkers;
use ib_levels::{Latch, Level, Mode};
use ib_logrec::Law;
use std::sync::Wait;

impl<'a, L: Law> Mtr<'a, L, Parkers> {
    /// Takes S on a latch of which the session holds nothing, and waits until it is granted: the
    /// grant is on top of the memo (`mtr_s_lock`).
    ///
    /// ```
    /// if mtr.pass().can_wish(latch, Level::TreeNode) && mtr.pass().may_grow() {
    ///     mtr.s_latch(rt, latch, Level::TreeNode);
    /// }
    /// ```
    #[inline(always)]
    pub fn s_latch<R: Wait>(&mut self, rt: &R, latch: Latch, level: Level)
        requires mtr { IsMtr self.old.latches.now self.old.pass.now }
        requires may { MayTake self.old.latches.now latch.0 level self.old.pass.now }
        ensures still { IsStillMtr self.old self.new }
        ensures granted { IsGranted latch ModeS (holding_too ModeS latch.0 level
            self.old.pass.now.view.session.held) self.old.pass.now self.new.pass.now }
        ensures won { EndsWon (is_given_at ModeS) latch.0 self.new.pass.now.view.looks }
    {
        self.latches.lock_s(rt, self.pass, latch, level);
        self.pass.remember(latch, Mode::S);
    }

    /// Takes SX on a latch that the session does not read, and waits until it is granted: the grant is
    /// on top of the memo (WL#6363, `mtr_sx_lock`). Beside one's own SX or X it is granted at once.
    ///
    /// ```
    /// mtr.sx_latch(rt, Latch::INDEX, Level::IndexTree);
    /// ```
    pub fn sx_latch<R: Wait>(&mut self, rt: &R, latch: Latch, level: Level)
        requires mtr { IsMtr self.old.latches.now self.old.pass.now }
        requires may { MayTakeMore self.old.latches.now latch.0 level self.old.pass.now }
        ensures still { IsStillMtr self.old self.new }
        ensures granted { IsGranted latch ModeSx (held_with ModeSx latch.0 level
            self.old.pass.now.view.session) self.old.pass.now self.new.pass.now }
        ensures won { claims latch.0 self.old.pass.now.view.session ≡ 0
            → EndsWon (is_given_at ModeSx) latch.0 self.new.pass.now.view.looks }
        ensures signed { sx_grants latch.0 self.old.pass.now.view.session ≡ 0
            → Stores latch.0 self.new.pass.now.view.written }
    {
        self.latches.lock_sx(rt, self.pass, latch, level);
        self.pass.remember(latch, Mode::Sx);
    }

    /// Takes X on a latch that the session does not read, and waits until it owns it: the grant is on
    /// top of the memo (`mtr_x_lock`). Beside one's own X it is granted at once.
    ///
    /// ```
    /// if mtr.pass().may_claim(latch, Level::TreeNode) && mtr.pass().may_grow() {
    ///     mtr.x_latch(rt, latch, Level::TreeNode);
    /// }
    /// ```
    pub fn x_latch<R: Wait>(&mut self, rt: &R, latch: Latch, level: Level)
        requires mtr { IsMtr self.old.latches.now self.old.pass.now }
        requires may { MayTakeMore self.old.latches.now latch.0 level self.old.pass.now }
        ensures still { IsStillMtr self.old self.new }
        ensures granted { IsGranted latch ModeX (held_with ModeX latch.0 level
            self.old.pass.now.view.session) self.old.pass.now self.new.pass.now }
        ensures ends { x_grants latch.0 self.old.pass.now.view.session ≡ 0
            → EndsOwning (sx_grants latch.0 self.new.pass.now.view.session) latch.0
            self.new.pass.now.view.looks }
        ensures signed { Stores latch.0 self.new.pass.now.view.written }
    {
        self.latches.lock_x(rt, self.pass, latch, level);
        self.pass.remember(latch, Mode::X);
    }
}
