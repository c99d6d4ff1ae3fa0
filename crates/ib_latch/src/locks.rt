//! The calls that block until a latch is theirs: rounds of tries, and then sleep (sync0rw,
//! `rw_lock_s_lock_spin`, `rw_lock_sx_lock_func`, `rw_lock_x_lock_func`).

ghost use Rattle.std.specs.Prelude.{◌≡◌, ◌<◌, ◌≤◌, IfNone, IfSome};
ghost use Rattle.ib_levels.specs.declared.level.Mode.TheVariants.{S as ModeS, Sx as ModeSx, X as ModeX};
ghost use Rattle.ib_layout.specs.Places.{latches_of};
ghost use Rattle.ib_core.specs.declared.phase.Phase.TheVariants.{Free, Next};
ghost use Rattle.ib_core.specs.Sessions.{claims, sx_grants};
ghost use Rattle.ib_levels.specs.Holding.{changed_on};
ghost use Rattle.ib_core.specs.Takings.{holding_too, is_given_at, one_more};
ghost use Rattle.ib_rule.specs.Laws.{Stores};
ghost use Rattle.ib_rule.specs.Pass.{IsOf};
ghost use Rattle.ib_rule.specs.Takes.{IsStillOf, MayTake, MayTakeMore, MayUpgrade};
ghost use Rattle.ib_rule.specs.Turns.{IsInPhase};
ghost use Rattle.ib_latch.specs.Tries.{HasTakenGrant, held_with};
ghost use Rattle.ib_latch.specs.Waits.{EndsAsReserved, EndsOwned, EndsOwning, EndsWon, HasLockedX, HasLookedAsNext, HasReserved, HasTried, IsStill, IsUpgraded, IsWon};

use crate::arming::reserved;
use crate::latches::Latches;
use crate::parkers::Parkers;
use crate::sleep::Sleep;
use crate::tries::{Claim, Reserve, TryFault, claim_on, reserve_at};
use crossbeam_utils::Backoff;
use ib_core::Phase;
use ib_levels::{Latch, Level, Mode};
use ib_logrec::Law;
use ib_rule::Pass;
use std::sync::Wait;

/// How many rounds of tries a call makes before it sleeps (`srv_n_spin_wait_rounds`).
const SPIN_ROUNDS: u32 = 30;

const _: () = prove!(SPIN_ROUNDS == 30);

impl<L: Law, S: Sleep> Latches<L, S> {
    // A first try for the mode. None where it was not won.
    #[tactic(auto, using(crate::proofs::Stills::won_is))]
    #[inline(always)]
    fn try_once(&self, pass: &mut Pass, mode: Mode, latch: Latch, level: Level) -> Option<Reserve>
        requires may { MayTake self.now latch.0 level pass.old }
        ensures { HasTried self.now mode latch.0 level result pass.old pass.new }
    {
        match self.first_try(pass, mode, latch, level) {
            Ok(word) => Some(reserved(mode, word)),
            Err(TryFault::Busy { .. }) => None,
            Err(TryFault::Raced { .. }) => None,
        }
    }

    // Rounds of first tries, with a pause between them. None where none was won.
    fn spin(&self, pass: &mut Pass, mode: Mode, latch: Latch, level: Level) -> Option<Reserve>
        requires may { MayTake self.now latch.0 level pass.old }
        ensures { HasTried self.now mode latch.0 level result pass.old pass.new }
    {
        let backoff = Backoff::new();
        for _ in 0..SPIN_ROUNDS {
            let reserve = self.try_once(pass, mode, latch, level);
            if reserve.is_some() {
                return reserve;
            }
            backoff.snooze();
        }
        None
    }

    // A try for X beside one's own SX alone. None where it was not won.
    #[tactic(auto, using(crate::proofs::Stills::upgraded_is))]
    fn upgrade_once(&self, pass: &mut Pass, latch: Latch) -> Option<Reserve>
        requires may { MayUpgrade self.now latch.0 pass.old }
        ensures still { IsStillOf self.now pass.old pass.new }
        ensures some { IfSome result (λ r. IsUpgraded latch.0 r pass.old pass.new) }
        ensures none { IfNone result (IsStill Free pass.old pass.new) }
    {
        match self.upgrade(pass, latch) {
            Ok(word) => Some(reserve_at(word)),
            Err(TryFault::Busy { .. }) => None,
            Err(TryFault::Raced { .. }) => None,
        }
    }

    // Rounds of looks whether the next writer owns X, with a pause between them.
    #[tactic(auto, using(crate::proofs::Stills::still_owned))]
    fn spin_ready(&self, pass: &mut Pass, latch: Latch, level: Level) -> bool
        requires next { IsInPhase self.now latch.0 (Next latch.0 level) pass.old }
        ensures { HasLookedAsNext self.now latch.0 level result pass.old pass.new }
    {
        let backoff = Backoff::new();
        for _ in 0..SPIN_ROUNDS {
            if self.looks_ready(pass, latch, level) {
                return true;
            }
            backoff.snooze();
        }
        false
    }

    // A look whether the next writer owns X.
    fn looks_ready(&self, pass: &mut Pass, latch: Latch, level: Level) -> bool
        requires next { IsInPhase self.now latch.0 (Next latch.0 level) pass.old }
        ensures { HasLookedAsNext self.now latch.0 level result pass.old pass.new }
    {
        // For the proof: the contract alone speaks of it.
        let _ = level;
        self.space.load_word(pass, latch);
        matches!(pass.phase(), Phase::Free)
    }
}

impl<L: Law> Latches<L, Parkers> {
    /// Takes S, and waits until it is granted (sync0rw, `rw_lock_s_lock_func`).
    ///
    /// ```
    /// if pass.can_wish(Latch::INDEX, Level::IndexTree) && pass.may_grow() {
    ///     table.lock_s(rt, &mut pass, Latch::INDEX, Level::IndexTree);
    ///     table.unlock_s(&mut pass, Latch::INDEX);
    /// }
    /// ```
    #[inline(always)]
    pub fn lock_s<R: Wait>(&self, rt: &R, pass: &mut Pass, latch: Latch, level: Level)
        requires may { MayTake self.now latch.0 level pass.old }
        ensures still { IsStillOf self.now pass.old pass.new }
        ensures won { IsWon ModeS latch.0 level Reserve.Owned pass.old pass.new }
    {
        self.lock_first(rt, pass, Mode::S, latch, level);
    }

    /// Takes SX on a latch that the session does not read, and waits until it is granted (WL#6363,
    /// `rw_lock_sx_lock_func`). Beside one's own SX or X it is granted at once.
    ///
    /// ```
    /// if pass.may_claim(Latch::INDEX, Level::IndexTree) && pass.may_grow() {
    ///     table.lock_sx(rt, &mut pass, Latch::INDEX, Level::IndexTree);
    ///     table.unlock_sx(&mut pass, Latch::INDEX);
    /// }
    /// ```
    pub fn lock_sx<R: Wait>(&self, rt: &R, pass: &mut Pass, latch: Latch, level: Level)
        requires may { MayTakeMore self.now latch.0 level pass.old }
        ensures still { IsStillOf self.now pass.old pass.new }
        ensures taken { HasTakenGrant ModeSx
            (held_with ModeSx latch.0 level pass.old.view.session) Free pass.old.view
            pass.new.view }
        ensures won { claims latch.0 pass.old.view.session ≡ 0
            → EndsWon (is_given_at ModeSx) latch.0 pass.new.view.looks }
        ensures signed { sx_grants latch.0 pass.old.view.session ≡ 0
            → Stores latch.0 pass.new.view.written }
        ensures looks { pass.old.view.looks.count ≤ pass.new.view.looks.count }
    {
        match claim_on(pass, latch) {
            Claim::Nothing => {
                self.lock_first(rt, pass, Mode::Sx, latch, level);
            }
            _ => self.sx_more(pass, latch),
        }
    }

    /// Takes X on a latch that the session does not read, and waits until it owns it: as the next
    /// writer while readers remain (sync0rw, `rw_lock_x_lock_func`, `rw_lock_x_lock_wait_func`).
    /// Beside one's own X it is granted at once.
    ///
    /// ```
    /// let latch = Latch::page(5);
    /// if pass.may_claim(latch, Level::TreeNode) && pass.may_grow() {
    ///     table.lock_x(rt, &mut pass, latch, Level::TreeNode);
    ///     table.unlock_x(&mut pass, latch);
    /// }
    /// ```
    pub fn lock_x<R: Wait>(&self, rt: &R, pass: &mut Pass, latch: Latch, level: Level)
        requires may { MayTakeMore self.now latch.0 level pass.old }
        ensures still { IsStillOf self.now pass.old pass.new }
        ensures locked { HasLockedX (held_with ModeX latch.0 level pass.old.view.session) latch.0
            pass.old pass.new }
    {
        match claim_on(pass, latch) {
            Claim::Nothing => self.lock_new_x(rt, pass, latch, level),
            Claim::Sx => self.lock_upgrade(rt, pass, latch),
            Claim::X => self.x_more(pass, latch),
        }
    }

    // A first grant of the mode, or for X a reservation: by one try, where nobody is in the way.
    #[inline(always)]
    fn lock_first<R: Wait>(
        &self,
        rt: &R,
        pass: &mut Pass,
        mode: Mode,
        latch: Latch,
        level: Level,
    ) -> Reserve
        requires may { MayTake self.now latch.0 level pass.old }
        ensures still { IsStillOf self.now pass.old pass.new }
        ensures won { IsWon mode latch.0 level result pass.old pass.new }
    {
        if let Some(reserve) = self.try_once(pass, mode, latch, level) {
            return reserve;
        }
        self.lock_later(rt, pass, mode, latch, level)
    }

    // The same by rounds of tries, where the first try was not won.
    #[cold]
    #[inline(never)]
    fn lock_later<R: Wait>(
        &self,
        rt: &R,
        pass: &mut Pass,
        mode: Mode,
        latch: Latch,
        level: Level,
    ) -> Reserve
        requires may { MayTake self.now latch.0 level pass.old }
        ensures still { IsStillOf self.now pass.old pass.new }
        ensures won { IsWon mode latch.0 level result pass.old pass.new }
    {
        for _ in rt.forever() {
            if let Some(reserve) = self.lock_round(rt, pass, mode, latch, level) {
                return reserve;
            }
        }
        unreachable!()
    }

    // Rounds of tries, and then a sleep.
    fn lock_round<R: Wait>(
        &self,
        rt: &R,
        pass: &mut Pass,
        mode: Mode,
        latch: Latch,
        level: Level,
    ) -> Option<Reserve>
        requires may { MayTake self.now latch.0 level pass.old }
        ensures { HasTried self.now mode latch.0 level result pass.old pass.new }
    {
        let reserve = self.spin(pass, mode, latch, level);
        if reserve.is_some() {
            return reserve;
        }
        self.wait(rt, pass, mode, latch, level)
    }

    // X where the session has nothing there.
    fn lock_new_x<R: Wait>(&self, rt: &R, pass: &mut Pass, latch: Latch, level: Level)
        requires may { MayTake self.now latch.0 level pass.old }
        ensures still { IsStillOf self.now pass.old pass.new }
        ensures locked { HasLockedX (holding_too ModeX latch.0 level pass.old.view.session.held)
            latch.0 pass.old pass.new }
    {
        self.lock_first(rt, pass, Mode::X, latch, level);
        self.own_x(rt, pass, latch);
    }

    // X beside one's own SX alone, of which the exchange fails only while others come and go.
    fn lock_upgrade<R: Wait>(&self, rt: &R, pass: &mut Pass, latch: Latch)
        requires may { MayUpgrade self.now latch.0 pass.old }
        ensures still { IsStillOf self.now pass.old pass.new }
        ensures locked { HasLockedX
            (changed_on latch.0 (one_more ModeX) pass.old.view.session.held) latch.0 pass.old
            pass.new }
    {
        self.spin_upgrade(rt, pass, latch);
        self.own_x(rt, pass, latch);
    }

    // Tries for X beside one's own SX alone, until one is won.
    fn spin_upgrade<R: Wait>(&self, rt: &R, pass: &mut Pass, latch: Latch) -> Reserve
        requires may { MayUpgrade self.now latch.0 pass.old }
        ensures still { IsStillOf self.now pass.old pass.new }
        ensures upgraded { IsUpgraded latch.0 result pass.old pass.new }
    {
        let backoff = Backoff::new();
        for _ in rt.forever() {
            if let Some(reserve) = self.upgrade_once(pass, latch) {
                return reserve;
            }
            backoff.snooze();
        }
        unreachable!()
    }

    // Who reserved X waits until it owns it.
    fn own_x<R: Wait>(&self, rt: &R, pass: &mut Pass, latch: Latch)
        requires own { IsOf self.now pass.old }
        requires latch { latch.0 < latches_of self.now.sizes }
        requires reserved { HasReserved latch.0 pass.old.view.session.phase }
        requires ends { EndsAsReserved latch.0 pass.old.view.session.phase pass.old.view.looks }
        ensures own { IsOf self.now pass.new }
        ensures still { IsStill Free pass.old pass.new }
        ensures ends { EndsOwning (sx_grants latch.0 pass.old.view.session) latch.0
            pass.new.view.looks }
    {
        match pass.phase() {
            Phase::Free => {}
            Phase::Next { level, .. } => self.wait_as_next(rt, pass, latch, level),
            _ => unreachable!(),
        }
    }

    // The next writer looks in rounds and sleeps between them, until it owns X.
    #[tactic(auto, using(crate::proofs::Stills::still_owned))]
    fn wait_as_next<R: Wait>(&self, rt: &R, pass: &mut Pass, latch: Latch, level: Level)
        requires next { IsInPhase self.now latch.0 (Next latch.0 level) pass.old }
        ensures own { IsOf self.now pass.new }
        ensures owned { EndsOwned (sx_grants latch.0 pass.old.view.session) latch.0
            pass.new.view.looks }
        ensures still { IsStill Free pass.old pass.new }
    {
        for _ in rt.forever() {
            if self.next_round(rt, pass, latch, level) {
                return;
            }
        }
        unreachable!()
    }

    // Rounds of looks whether X is owned, and then a sleep.
    #[tactic(auto, using(crate::proofs::Stills::still_owned))]
    fn next_round<R: Wait>(&self, rt: &R, pass: &mut Pass, latch: Latch, level: Level) -> bool
        requires next { IsInPhase self.now latch.0 (Next latch.0 level) pass.old }
        ensures { HasLookedAsNext self.now latch.0 level result pass.old pass.new }
    {
        if self.spin_ready(pass, latch, level) {
            return true;
        }
        self.wait_for_readers(rt, pass, latch, level)
    }
}
