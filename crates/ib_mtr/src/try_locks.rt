//! Latches that are tried, onto the memo: SX and X beside the S of `try_s_latch`.

ghost use Rattle.std.specs.Prelude.{◌≡◌, ◌<◌, IsOk, IfErr, OnErr, OnOk, Ok};
ghost use Rattle.ib_levels.specs.declared.level.Mode.TheVariants.{Sx as ModeSx, X as ModeX};
ghost use Rattle.ib_core.specs.declared.phase.Phase.TheVariants.{Free};
ghost use Rattle.ib_core.specs.Sessions.{claims, sx_grants, x_grants};
ghost use Rattle.ib_rule.specs.Laws.{Stores};
ghost use Rattle.ib_rule.specs.Pass.{with_view};
ghost use Rattle.ib_rule.specs.Takes.{MayTakeMore};
ghost use Rattle.ib_latch.specs.Refusals.{IsOneTry};
ghost use Rattle.ib_latch.specs.Tries.{HasTakenGrant, IsSxMore, IsUnchanged, IsXMore, held_with, looks_of};
ghost use Rattle.ib_mtr.specs.Mtr.{IsMtr, IsStillMtr, with_granted, with_memo};

use crate::mtr::Mtr;
use ib_latch::{Sleep, TryFault};
use ib_levels::{Latch, Level, Mode};
use ib_logrec::Law;

impl<'a, L: Law, S: Sleep> Mtr<'a, L, S> {
    /// Takes SX on a latch that the session does not read, without waiting
    /// (`rw_lock_sx_lock_nowait`, then `mtr_t::memo_push`): the grant is on top of the memo. Beside
    /// one's own SX or X it is always granted. Else it is refused as the latch's own try is, `Busy`
    /// where the word found is not above HALF and `Raced` where the exchange found another word; then
    /// nothing is changed but the looks.
    ///
    /// ```
    /// if mtr.try_sx_latch(Latch::INDEX, Level::IndexTree).is_err() {
    ///     return mtr.commit_read();
    /// }
    /// ```
    pub fn try_sx_latch(&mut self, latch: Latch, level: Level) -> Result<(), TryFault>
        requires mtr { IsMtr self.old.latches.now self.old.pass.now }
        requires may { MayTakeMore self.old.latches.now latch.0 level self.old.pass.now }
        ensures still { IsStillMtr self.old self.new }
        ensures granted { OnOk result (self.new.pass.now
            ≡ with_granted latch ModeSx self.new.pass.now.view self.old.pass.now) }
        ensures not_granted { OnErr result (self.new.pass.now
            ≡ with_view self.old.pass.now self.new.pass.now.view) }
        ensures first { claims latch.0 self.old.pass.now.view.session ≡ 0
            → IsOneTry ModeSx latch.0 level self.old.pass.now result
            (with_memo self.old.pass.now.memo self.new.pass.now) }
        ensures more { 0 < claims latch.0 self.old.pass.now.view.session
            → (result ≡ Ok tt) × IsSxMore latch.0 self.old.pass.now
            (with_memo self.old.pass.now.memo self.new.pass.now) }
        ensures taken { IsOk result → HasTakenGrant ModeSx
            (held_with ModeSx latch.0 level self.old.pass.now.view.session) Free
            self.old.pass.now.view self.new.pass.now.view }
        ensures signed { IsOk result → sx_grants latch.0 self.old.pass.now.view.session ≡ 0
            → Stores latch.0 self.new.pass.now.view.written }
        ensures refused { IfErr result (λ fault. IsUnchanged (looks_of fault)
            self.old.pass.now.view self.new.pass.now.view) }
    {
        self.latches.try_sx(self.pass, latch, level)?;
        self.pass.remember(latch, Mode::Sx);
        Ok(())
    }

    /// Takes X on a latch that the session does not read, and has not in SX alone, without waiting
    /// (`rw_lock_x_lock_func_nowait`, then `mtr_t::memo_push`): the grant is on top of the memo. Beside
    /// one's own X it is always granted. Else it is refused as the latch's own try is, `Busy` where the
    /// word found is not that of a free latch and `Raced` where the exchange found another word; then
    /// nothing is changed but the looks.
    ///
    /// ```
    /// if mtr.try_x_latch(Latch::page(page), Level::TreeNode).is_err() {
    ///     return mtr.commit_read();
    /// }
    /// ```
    pub fn try_x_latch(&mut self, latch: Latch, level: Level) -> Result<(), TryFault>
        requires mtr { IsMtr self.old.latches.now self.old.pass.now }
        requires may { MayTakeMore self.old.latches.now latch.0 level self.old.pass.now }
        requires no_upgrade { 0 < sx_grants latch.0 self.old.pass.now.view.session
            → 0 < x_grants latch.0 self.old.pass.now.view.session }
        ensures still { IsStillMtr self.old self.new }
        ensures granted { OnOk result (self.new.pass.now
            ≡ with_granted latch ModeX self.new.pass.now.view self.old.pass.now) }
        ensures not_granted { OnErr result (self.new.pass.now
            ≡ with_view self.old.pass.now self.new.pass.now.view) }
        ensures first { claims latch.0 self.old.pass.now.view.session ≡ 0
            → IsOneTry ModeX latch.0 level self.old.pass.now result
            (with_memo self.old.pass.now.memo self.new.pass.now) }
        ensures more { 0 < x_grants latch.0 self.old.pass.now.view.session
            → (result ≡ Ok tt) × IsXMore latch.0 self.old.pass.now
            (with_memo self.old.pass.now.memo self.new.pass.now) }
        ensures taken { IsOk result → HasTakenGrant ModeX
            (held_with ModeX latch.0 level self.old.pass.now.view.session) Free
            self.old.pass.now.view self.new.pass.now.view }
        ensures signed { IsOk result → Stores latch.0 self.new.pass.now.view.written }
        ensures refused { IfErr result (λ fault. IsUnchanged (looks_of fault)
            self.old.pass.now.view self.new.pass.now.view) }
    {
        self.latches.try_x(self.pass, latch, level)?;
        self.pass.remember(latch, Mode::X);
        Ok(())
    }
}
