//! The memo: latches are taken onto it, and given back from any place of it.

ghost use Rattle.std.specs.Prelude.{◌≡◌, ◌≢◌, ◌<◌, [], ◌==◌, not, filter, length, IsTrue, IsOk, IfErr, MatchOption, OnErr, OnOk};
ghost use Rattle.std.specs.List.{All};
ghost use Rattle.ib_levels.specs.declared.level.Mode.TheVariants.{S as ModeS};
ghost use Rattle.ib_layout.specs.Places.{latches_of};
ghost use Rattle.ib_core.specs.declared.phase.Phase.TheVariants.{Free};
ghost use Rattle.ib_core.specs.Good.{IsProper};
ghost use Rattle.ib_core.specs.Takings.{holding_too};
ghost use Rattle.ib_page.specs.Work.{before_of, changed_of};
ghost use Rattle.ib_rule.specs.Pass.{IsOf, raising_as, with_view};
ghost use Rattle.ib_rule.specs.Takes.{MayTake};
ghost use Rattle.ib_latch.specs.Tries.{IsFirstTry, HasTakenGrant, IsUnchanged, looks_of};
ghost use Rattle.ib_mtr.specs.Memo.{IsNewest, grants_of};
ghost use Rattle.ib_mtr.specs.Mtr.{IsMtr, IsReleasedAt, IsReleasedTo, IsStillMtr, IsUnchangedOn, MayRelease, pages_left, released, with_granted, with_memo, with_work};

use crate::mtr::Mtr;
use ib_latch::{Latches, Sleep, TryFault};
use ib_levels::{Latch, Level, Mode};
use ib_logrec::Law;
use ib_page::WorkSet;
use ib_rule::Pass;

impl<'a, L: Law, S: Sleep> Mtr<'a, L, S> {
    /// Takes S on a latch of which the session holds nothing, without waiting
    /// (`rw_lock_s_lock_nowait`, then `mtr_t::memo_push`): the grant is on top of the memo. Refused
    /// as the latch's own try is, `Busy` where the word found is not above 0 and `Raced` where the
    /// exchange found another word; then nothing is changed but the looks.
    ///
    /// ```
    /// if mtr.try_s_latch(latch, Level::TreeNode).is_err() {
    ///     return mtr.commit_read();
    /// }
    /// ```
    pub fn try_s_latch(&mut self, latch: Latch, level: Level) -> Result<(), TryFault>
        requires mtr { IsMtr self.old.latches.now self.old.pass.now }
        requires may { MayTake self.old.latches.now latch.0 level self.old.pass.now }
        ensures still { IsStillMtr self.old self.new }
        ensures granted { OnOk result (self.new.pass.now
            ≡ with_granted latch ModeS self.new.pass.now.view self.old.pass.now) }
        ensures not_granted { OnErr result (self.new.pass.now
            ≡ with_view self.old.pass.now self.new.pass.now.view) }
        ensures tried { IsFirstTry ModeS latch.0 level self.old.pass.now result
            (with_memo self.old.pass.now.memo self.new.pass.now) }
        ensures taken { IsOk result → HasTakenGrant ModeS
            (holding_too ModeS latch.0 level self.old.pass.now.view.session.held) Free
            self.old.pass.now.view self.new.pass.now.view }
        ensures refused { IfErr result (λ fault. IsUnchanged (looks_of fault)
            self.old.pass.now.view self.new.pass.now.view) }
    {
        self.latches.try_s(self.pass, latch, level)?;
        self.pass.remember(latch, Mode::S);
        Ok(())
    }

    /// How many grants the memo has: the place of the next one (`mtr_t::get_savepoint`).
    ///
    /// ```
    /// let at = mtr.savepoint();
    /// mtr.s_latch(rt, latch, Level::TreeNode);
    /// mtr.release_at(at);
    /// ```
    pub fn savepoint(&self) -> usize
        ensures { result ≡ length self.now.pass.now.memo }
    {
        self.pass.memo().len()
    }

    /// The grants that it took and still has, in order of taking.
    pub fn memo(&self) -> &[(Latch, Mode)]
        ensures { result.now ≡ self.now.pass.now.memo }
    {
        self.pass.memo()
    }

    /// The place of the newest grant on the latch. None exactly where the memo has none.
    ///
    /// ```
    /// if let Some(at) = mtr.position(latch) {
    ///     mtr.release_at(at);
    /// }
    /// ```
    pub fn position(&self, latch: Latch) -> Option<usize>
        ensures { MatchOption result (All (λ g. g.0 ≢ latch) self.now.pass.now.memo)
            (λ at. IsNewest latch at self.now.pass.now.memo) }
    {
        newest(self.pass.memo(), latch)
    }

    /// Gives the grant at a place of the memo back, with every signal that is owed then, and the
    /// later ones move down (`mtr_t::release_block_at_savepoint`, `release_s_latch_at_savepoint`).
    /// Where its latch is not held any more, its page leaves the work set: it is not changed there.
    pub fn release_at(&mut self, at: usize)
        requires mtr { IsMtr self.old.latches.now self.old.pass.now }
        requires at { at < length self.old.pass.now.memo }
        requires unchanged { MayRelease at self.old.pass.now }
        ensures still { IsStillMtr self.old self.new }
        ensures released { IsReleasedAt at self.old.pass.now self.new.pass.now }
    {
        let (latch, mode) = self.pass.memo()[at];
        unlock(self.latches, self.pass, latch, mode);
        self.pass.forget_at(at);
        leave(self.pass, latch);
    }

    // Gives all grants of the memo back, from the newest to the oldest
    // (`mtr_t::Command::release_all`). No page is there.
    pub(crate) fn release_all(&mut self)
        requires mtr { IsMtr self.old.latches.now self.old.pass.now }
        requires pages { self.old.pass.now.work ≡ [] }
        ensures still { IsStillMtr self.old self.new }
        ensures released { IsReleasedTo 0 self.old.pass.now self.new.pass.now }
    {
        for at in (0..self.savepoint()).rev() {
            self.release_at(at);
        }
    }
}

// The place of the newest grant on the latch.
fn newest(memo: &[(Latch, Mode)], latch: Latch) -> Option<usize>
    ensures { MatchOption result (All (λ g. g.0 ≢ latch) memo.now)
        (λ at. IsNewest latch at memo.now) }
{
    for at in (0..memo.len()).rev() {
        if memo[at].0 == latch {
            return Some(at);
        }
    }
    None
}

// One grant of the mode on the latch is given back, with every signal that is owed then.
#[inline(always)]
fn unlock<L: Law, S: Sleep>(latches: &Latches<L, S>, pass: &mut Pass, latch: Latch, mode: Mode)
    requires own { IsOf latches.now pass.old }
    requires latch { latch.0 < latches_of latches.now.sizes }
    requires free { pass.old.view.session.phase ≡ Free }
    requires holds { 0 < grants_of mode latch.0 pass.old.view.session }
    ensures { pass.new ≡ raising_as pass.new
        (with_view pass.old (released mode latch.0 pass.old.view)) }
{
    match mode {
        Mode::S => latches.unlock_s(pass, latch),
        Mode::Sx => latches.unlock_sx(pass, latch),
        Mode::X => latches.unlock_x(pass, latch),
    }
}

// The page of the latch leaves the work set, where nothing is held on the latch.
#[inline(always)]
fn leave(pass: &mut Pass, latch: Latch)
    requires works { IsTrue pass.old.is_working }
    requires session { IsProper pass.old.view.session }
    requires unchanged { IsUnchangedOn latch.0 pass.old.work }
    ensures { pass.new ≡ with_work (pages_left latch.0 pass.old.view.session pass.old.work)
        pass.old }
{
    if pass.work().is_empty() {
        return;
    }
    leave_loaded(pass, latch);
}

// .. where pages are loaded.
fn leave_loaded(pass: &mut Pass, latch: Latch)
    requires works { IsTrue pass.old.is_working }
    requires session { IsProper pass.old.view.session }
    requires unchanged { IsUnchangedOn latch.0 pass.old.work }
    ensures { pass.new ≡ with_work (pages_left latch.0 pass.old.view.session pass.old.work)
        pass.old }
{
    if latch.0 >= 2 && pass.mode_held(latch).is_none() {
        let page = latch.0 - 2;
        take_out(pass.work_mut(), page);
    }
}

// The page is not in the work set from then on.
fn take_out(work: &mut WorkSet, page: u32)
    requires { changed_of page work.old ≡ before_of page work.old }
    ensures { work.new ≡ filter (λ w. not (w.page == page)) work.old }
{
    if work.image(page).is_some() {
        work.remove(page);
    }
}
