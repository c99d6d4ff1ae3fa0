//! The tries: a look at the lock word, and at most one exchange of it.

ghost use Rattle.std.specs.Prelude.{◌≡◌, ◌≢◌, ◌<◌, true, pos, ◌-ℤ◌, ◌+◌, Ok, IsOk, IfOk, IfErr};
ghost use Rattle.ib_word.specs.Word.{IsCounted};
ghost use Rattle.ib_word.specs.declared.word.TheConstants.{X_LOCK_DECR};
ghost use Rattle.ib_levels.specs.declared.level.Level.TheVariants.{Log};
ghost use Rattle.ib_levels.specs.declared.level.Level.{Level};
ghost use Rattle.ib_levels.specs.declared.level.Mode.TheVariants.{S as ModeS, Sx as ModeSx, X as ModeX};
ghost use Rattle.ib_levels.specs.Holding.{changed_on};
ghost use Rattle.ib_layout.specs.Places.{latches_of};
ghost use Rattle.ib_core.specs.declared.phase.Phase.TheVariants.{Free, Next};
ghost use Rattle.ib_core.specs.Responses.{is_above_0, is_above_half};
ghost use Rattle.ib_core.specs.Sessions.{claims, sx_grants, x_grants};
ghost use Rattle.ib_core.specs.Takings.{holding_too, is_given_at, level_on, one_more};
ghost use Rattle.ib_rule.specs.Laws.{Stores};
ghost use Rattle.ib_rule.specs.Pass.{IsOf};
ghost use Rattle.ib_rule.specs.Takes.{IsStillOf, MayTake, MayTakeFurther, MayTakeMore, MayUpgrade};
ghost use Rattle.ib_rule.specs.Turns.{IsInPhase, MayTryAt};
ghost use Rattle.ib_latch.specs.Tries.{IsClaim, IsFirstTry, IsReadyTry, IsReserveOf, IsSxMore, HasTakenGrant, IsTryAt, IsTryOf, IsUnchangedAtFault, IsXMore, first_session, held_with, is_free_word, level_with, looked_at, lost_at, phase_by, phase_of, reserve_at, signed_for, upgraded, won_with};

use crate::latches::Latches;
use crate::sleep::Sleep;
use ib_core::{is_given_at, owns_x_at};
use ib_levels::{Latch, Level, Mode};
use ib_logrec::Law;
use ib_rule::Pass;
use ib_word::{LockWord, X_LOCK_DECR, is_drained};
use thiserror::Error;

/// Why a try took nothing.
#[derive(Clone, Copy, PartialEq, Eq, Debug, Error)]
pub enum TryFault {
    /// The word found refuses the wish.
    #[error("the lock word {} refuses it", word.0)]
    Busy { word: LockWord },
    /// The exchange found another word than the look before it.
    #[error("the lock word was {} where {} was expected", found.0, expected.0)]
    Raced { expected: LockWord, found: LockWord },
}

/// What a reservation of X came to.
#[derive(Clone, Copy, PartialEq, Eq, Debug)]
pub enum Reserve {
    /// X is owned.
    Owned,
    /// Readers remain: the session is the next writer, and this word is left.
    Next { word: LockWord },
}

// What a session has of a latch in SX and X.
#[derive(Clone, Copy)]
pub(crate) enum Claim {
    Nothing,
    // SX alone.
    Sx,
    X,
}

/// Readers remain, as this word tells: the next writer does not own X yet.
#[derive(Clone, Copy, PartialEq, Eq, Debug, Error)]
#[error("readers remain at the lock word {}", word.0)]
pub struct NotReady {
    /// The lock word found.
    pub word: LockWord,
}

impl<L: Law, S: Sleep> Latches<L, S> {
    /// The lock word, by one look.
    ///
    /// ```
    /// let word = table.word_of(&mut pass, Latch::INDEX);
    /// let state = classify(word);
    /// ```
    #[inline(always)]
    pub fn word_of(&self, pass: &mut Pass, latch: Latch) -> LockWord
        requires free { IsInPhase self.now latch.0 Free pass.old }
        ensures counted { IsCounted result.0 }
        ensures view { pass.new ≡ looked_at latch.0 result pass.old }
    {
        self.space.load_word(pass, latch)
    }

    /// Takes S on a latch of which the session holds nothing (sync0rw, `rw_lock_s_lock_low`): a
    /// look, and one exchange that takes 1 off. Refused as `Busy` where the word found is not above
    /// 0: somebody owns X there or is its next writer. `Raced` where the exchange found another word.
    ///
    /// ```
    /// match table.try_s(&mut pass, latch, Level::TreeNode) {
    ///     Ok(()) => table.unlock_s(&mut pass, latch),
    ///     Err(TryFault::Busy { word }) => note(word),
    ///     Err(TryFault::Raced { expected, found }) => note(found),
    /// }
    /// ```
    pub fn try_s(&self, pass: &mut Pass, latch: Latch, level: Level) -> Result<(), TryFault>
        requires may { MayTake self.now latch.0 level pass.old }
        ensures still { IsStillOf self.now pass.old pass.new }
        ensures tried { IsFirstTry ModeS latch.0 level pass.old result pass.new }
        ensures taken { IsOk result → HasTakenGrant ModeS
            (holding_too ModeS latch.0 level pass.old.view.session.held) Free pass.old.view
            pass.new.view }
        ensures refused { IsUnchangedAtFault result pass.old pass.new }
    {
        match self.first_try(pass, Mode::S, latch, level) {
            Ok(_) => Ok(()),
            Err(fault) => Err(fault),
        }
    }

    /// Takes SX (WL#6363, `rw_lock_sx_lock_low`) on a latch that the session does not read. Beside
    /// one's own SX it is counted by a look at the writer, and beside one's own X it takes HALF off:
    /// both are always granted. Else it is a look, and one exchange that takes HALF off: refused as
    /// `Busy` where the word found is not above HALF, as somebody has SX or X there or is its next
    /// writer, and as `Raced` where the exchange found another word.
    ///
    /// ```
    /// if table.try_sx(&mut pass, Latch::INDEX, Level::IndexTree).is_ok() {
    ///     table.unlock_sx(&mut pass, Latch::INDEX);
    /// }
    /// ```
    pub fn try_sx(&self, pass: &mut Pass, latch: Latch, level: Level) -> Result<(), TryFault>
        requires may { MayTakeMore self.now latch.0 level pass.old }
        ensures still { IsStillOf self.now pass.old pass.new }
        ensures first { claims latch.0 pass.old.view.session ≡ 0
            → IsFirstTry ModeSx latch.0 level pass.old result pass.new }
        ensures more { 0 < claims latch.0 pass.old.view.session
            → (result ≡ Ok tt) × IsSxMore latch.0 pass.old pass.new }
        ensures taken { IsOk result → HasTakenGrant ModeSx
            (held_with ModeSx latch.0 level pass.old.view.session) Free pass.old.view
            pass.new.view }
        ensures signed { IsOk result → sx_grants latch.0 pass.old.view.session ≡ 0
            → Stores latch.0 pass.new.view.written }
        ensures refused { IsUnchangedAtFault result pass.old pass.new }
    {
        let Claim::Nothing = claim_on(pass, latch) else {
            self.sx_more(pass, latch);
            return Ok(());
        };
        match self.first_try(pass, Mode::Sx, latch, level) {
            Ok(_) => Ok(()),
            Err(fault) => Err(fault),
        }
    }

    /// Takes X on a latch that the session does not read, and has not in SX alone: beside one's own
    /// X always (sync0rw, `rw_lock_x_lock_low`), and else where nobody holds anything there, by a
    /// look, and one exchange that takes `X_LOCK_DECR` off. Refused as `Busy` where the word found
    /// is not that of a free latch, and as `Raced` where the exchange found another word.
    ///
    /// ```
    /// if table.try_x(&mut pass, latch, Level::TreeNode).is_ok() {
    ///     table.unlock_x(&mut pass, latch);
    /// }
    /// ```
    pub fn try_x(&self, pass: &mut Pass, latch: Latch, level: Level) -> Result<(), TryFault>
        requires may { MayTakeMore self.now latch.0 level pass.old }
        requires no_upgrade { 0 < sx_grants latch.0 pass.old.view.session
            → 0 < x_grants latch.0 pass.old.view.session }
        ensures still { IsStillOf self.now pass.old pass.new }
        ensures first { claims latch.0 pass.old.view.session ≡ 0
            → IsTryOf is_free_word ModeX latch.0
            (first_session ModeX latch.0 level pass.old.view.session.held) pass.old result pass.new }
        ensures more { 0 < x_grants latch.0 pass.old.view.session
            → (result ≡ Ok tt) × IsXMore latch.0 pass.old pass.new }
        ensures taken { IsOk result → HasTakenGrant ModeX
            (held_with ModeX latch.0 level pass.old.view.session) Free pass.old.view
            pass.new.view }
        ensures signed { IsOk result → Stores latch.0 pass.new.view.written }
        ensures refused { IsUnchangedAtFault result pass.old pass.new }
    {
        let Claim::Nothing = claim_on(pass, latch) else {
            self.x_more(pass, latch);
            return Ok(());
        };
        match self.free_try(pass, latch, level) {
            Ok(_) => Ok(()),
            Err(fault) => Err(fault),
        }
    }

    /// Takes X or reserves it (sync0rw, `rw_lock_x_lock_low`), on a latch that the session does not
    /// read: beside one's own X always, and else by a look, and one exchange that takes
    /// `X_LOCK_DECR` off. Where readers remain then, the answer is `Next`: nobody reads the latch
    /// anew, and `ready_x` tells when X is owned. Refused as `Busy` where the word found is not above
    /// HALF, or beside one's own SX not above 0, and as `Raced` where the exchange found another
    /// word.
    ///
    /// ```
    /// match table.reserve_x(&mut pass, latch, Level::TreeNode) {
    ///     Ok(Reserve::Owned) => change(&mut pass),
    ///     Ok(Reserve::Next) => wait_by_ready_x(&mut pass),
    ///     Err(_) => later(),
    /// }
    /// ```
    pub fn reserve_x(
        &self,
        pass: &mut Pass,
        latch: Latch,
        level: Level,
    ) -> Result<Reserve, TryFault>
        requires may { MayTakeMore self.now latch.0 level pass.old }
        ensures still { IsStillOf self.now pass.old pass.new }
        ensures first { claims latch.0 pass.old.view.session ≡ 0
            → IsReserveOf is_above_half latch.0
            (first_session ModeX latch.0 level pass.old.view.session.held) pass.old result pass.new }
        ensures upgrade { 0 < sx_grants latch.0 pass.old.view.session
            → x_grants latch.0 pass.old.view.session ≡ 0
            → IsReserveOf is_above_0 latch.0 (upgraded latch.0 pass.old.view.session.held)
            pass.old result pass.new }
        ensures more { 0 < x_grants latch.0 pass.old.view.session
            → (result ≡ Ok Reserve.Owned) × IsXMore latch.0 pass.old pass.new }
        ensures taken { IfOk result (λ reserve. HasTakenGrant ModeX
            (held_with ModeX latch.0 level pass.old.view.session)
            (phase_of latch.0 (level_with latch.0 level pass.old.view.session) reserve)
            pass.old.view pass.new.view) }
        ensures signed { IsOk result → Stores latch.0 pass.new.view.written }
        ensures refused { IsUnchangedAtFault result pass.old pass.new }
    {
        if pass.counts(latch).x > 0 {
            self.x_more(pass, latch);
            return Ok(Reserve::Owned);
        }
        match self.claim_x(pass, latch, level) {
            Ok(word) => Ok(reserve_at(word)),
            Err(fault) => Err(fault),
        }
    }

    /// Whether the next writer of the latch owns X by now (sync0rw, `rw_lock_x_lock_wait`): a look,
    /// at which it does where no reader is left. Else `NotReady`, and it is the next writer still.
    ///
    /// ```
    /// if table.ready_x(&mut pass, latch).is_ok() {
    ///     table.unlock_x(&mut pass, latch);
    /// }
    /// ```
    pub fn ready_x(&self, pass: &mut Pass, latch: Latch) -> Result<(), NotReady>
        requires own { IsOf self.now pass.old }
        requires latch { latch.0 < latches_of self.now.sizes }
        requires next { (level : Level) × (pass.old.view.session.phase ≡ Next latch.0 level) }
        ensures still { IsStillOf self.now pass.old pass.new }
        ensures tried { IsReadyTry latch.0 pass.old result pass.new }
        ensures ready { IsOk result → pass.new.view.session
            ≡ record { held = pass.old.view.session.held; phase = Free } }
        ensures not_ready { IfErr result (λ none. pass.new.view.session
            ≡ pass.old.view.session) }
        ensures grants { pass.new.view.grants ≡ pass.old.view.grants }
        ensures looks { pass.new.view.looks.count ≡ pass.old.view.looks.count + 1 }
    {
        let own = pass.counts(latch);
        let word = self.space.load_word(pass, latch);
        if owns_x_at(own.sx, word) {
            Ok(())
        } else {
            Err(NotReady { word })
        }
    }

    // A first try for a mode. It answers the word that it found twice where it is won.
    #[inline(always)]
    pub(crate) fn first_try(
        &self,
        pass: &mut Pass,
        mode: Mode,
        latch: Latch,
        level: Level,
    ) -> Result<LockWord, TryFault>
        requires may { MayTake self.now latch.0 level pass.old }
        ensures tried { IsTryAt (is_given_at mode) mode latch.0
            (first_session mode latch.0 level pass.old.view.session.held) pass.old result
            pass.new }
        ensures taken { IfOk result (λ w. HasTakenGrant mode
            (holding_too mode latch.0 level pass.old.view.session.held)
            (phase_by mode latch.0 level w.0) pass.old.view pass.new.view) }
    {
        let word = self.word_of(pass, latch);
        if !is_given_at(mode, word) {
            return Err(TryFault::Busy { word });
        }
        match self.exchange(pass, mode, latch, level, word) {
            Ok(()) => Ok(word),
            Err(found) => Err(TryFault::Raced {
                expected: word,
                found,
            }),
        }
    }

    // A first try for X alone on a free latch. It answers the word that it found twice where it is
    // won.
    fn free_try(&self, pass: &mut Pass, latch: Latch, level: Level) -> Result<LockWord, TryFault>
        requires may { MayTake self.now latch.0 level pass.old }
        ensures tried { IsTryAt is_free_word ModeX latch.0
            (first_session ModeX latch.0 level pass.old.view.session.held) pass.old result pass.new }
        ensures taken { IsOk result → HasTakenGrant ModeX
            (holding_too ModeX latch.0 level pass.old.view.session.held) Free pass.old.view
            pass.new.view }
    {
        let word = self.word_of(pass, latch);
        if !is_free(word) {
            return Err(TryFault::Busy { word });
        }
        match self.exchange(pass, Mode::X, latch, level, word) {
            Ok(()) => Ok(word),
            Err(found) => Err(TryFault::Raced {
                expected: word,
                found,
            }),
        }
    }

    // A try for X with no X of one's own. It answers the word that it found twice where it is won.
    pub(crate) fn claim_x(
        &self,
        pass: &mut Pass,
        latch: Latch,
        level: Level,
    ) -> Result<LockWord, TryFault>
        requires may { MayTakeMore self.now latch.0 level pass.old }
        requires no_x { x_grants latch.0 pass.old.view.session ≡ 0 }
        ensures still { IsStillOf self.now pass.old pass.new }
        ensures first { claims latch.0 pass.old.view.session ≡ 0
            → IsTryAt is_above_half ModeX latch.0
            (first_session ModeX latch.0 level pass.old.view.session.held) pass.old result pass.new }
        ensures upgrade { 0 < sx_grants latch.0 pass.old.view.session
            → IsTryAt is_above_0 ModeX latch.0
            (upgraded latch.0 pass.old.view.session.held) pass.old result pass.new }
        ensures above { IfOk result (λ w. is_above_0 w.0 ≡ true) }
        ensures taken { IfOk result (λ w. HasTakenGrant ModeX
            (held_with ModeX latch.0 level pass.old.view.session)
            (phase_of latch.0 (level_with latch.0 level pass.old.view.session)
            (reserve_at (w.0 -ℤ pos X_LOCK_DECR))) pass.old.view pass.new.view) }
        ensures signed { IsOk result → Stores latch.0 pass.new.view.written }
        ensures refused { IsUnchangedAtFault result pass.old pass.new }
    {
        match claim_on(pass, latch) {
            Claim::Nothing => self.first_try(pass, Mode::X, latch, level),
            _ => self.upgrade(pass, latch),
        }
    }

    // A try for X beside one's own SX alone. It answers the word that it found twice where it is
    // won.
    pub(crate) fn upgrade(&self, pass: &mut Pass, latch: Latch) -> Result<LockWord, TryFault>
        requires may { MayUpgrade self.now latch.0 pass.old }
        ensures tried { IsTryAt is_above_0 ModeX latch.0
            (upgraded latch.0 pass.old.view.session.held) pass.old result pass.new }
        ensures taken { IfOk result (λ w. HasTakenGrant ModeX
            (changed_on latch.0 (one_more ModeX) pass.old.view.session.held)
            (phase_of latch.0 (level_on latch.0 Log pass.old.view.session.held)
            (reserve_at (w.0 -ℤ pos X_LOCK_DECR))) pass.old.view pass.new.view) }
    {
        let word = self.word_of(pass, latch);
        if !is_given_at(Mode::S, word) {
            return Err(TryFault::Busy { word });
        }
        match self.exchange_more(pass, latch, word) {
            Ok(()) => Ok(word),
            Err(found) => Err(TryFault::Raced {
                expected: word,
                found,
            }),
        }
    }

    // One exchange of the lock word, for X beside one's own SX alone.
    fn exchange_more(&self, pass: &mut Pass, latch: Latch, word: LockWord) -> Result<(), LockWord>
        requires may { MayUpgrade self.now latch.0 pass.old }
        requires given { is_above_0 word.0 ≡ true }
        ensures won { IsOk result → pass.new ≡ won_with ModeX latch.0 word
            (upgraded latch.0 pass.old.view.session.held word) pass.old }
        ensures lost { IfErr result (λ found. (found.0 ≢ word.0)
            × (pass.new ≡ lost_at latch.0 word found pass.old)) }
    {
        self.space.upgrade(pass, latch, word)?;
        self.space.store_writer(pass, latch);
        Ok(())
    }

    // SX more, beside one's own SX or X.
    pub(crate) fn sx_more(&self, pass: &mut Pass, latch: Latch)
        requires may { MayTakeFurther self.now latch.0 pass.old }
        requires claims { 0 < claims latch.0 pass.old.view.session }
        ensures more { IsSxMore latch.0 pass.old pass.new }
        ensures taken { HasTakenGrant ModeSx
            (changed_on latch.0 (one_more ModeSx) pass.old.view.session.held) Free pass.old.view
            pass.new.view }
    {
        if pass.counts(latch).sx > 0 {
            self.space.take_sx_again(pass, latch);
        } else {
            self.space.take_sx_under_x(pass, latch);
            self.space.store_writer(pass, latch);
        }
    }

    // X more, beside one's own X.
    pub(crate) fn x_more(&self, pass: &mut Pass, latch: Latch)
        requires may { MayTakeFurther self.now latch.0 pass.old }
        requires owns { 0 < x_grants latch.0 pass.old.view.session }
        ensures more { IsXMore latch.0 pass.old pass.new }
        ensures taken { HasTakenGrant ModeX
            (changed_on latch.0 (one_more ModeX) pass.old.view.session.held) Free pass.old.view
            pass.new.view }
    {
        self.space.take_x_again(pass, latch);
        self.space.store_writer(pass, latch);
    }

    // One exchange of the lock word, for a first grant of the mode. Where SX or X is granted or
    // reserved by it, the session is stored as the writer.
    #[inline(always)]
    pub(crate) fn exchange(
        &self,
        pass: &mut Pass,
        mode: Mode,
        latch: Latch,
        level: Level,
        word: LockWord,
    ) -> Result<(), LockWord>
        requires may { MayTryAt self.now mode latch.0 level word pass.old }
        ensures won { IsOk result → pass.new ≡ won_with mode latch.0 word
            (first_session mode latch.0 level pass.old.view.session.held word) pass.old }
        ensures lost { IfErr result (λ found. (found.0 ≢ word.0)
            × (pass.new ≡ lost_at latch.0 word found pass.old)) }
    {
        // Each mode by a call of its own, in which it is known.
        match mode {
            Mode::S => self.space.take_first(pass, Mode::S, latch, level, word),
            Mode::Sx => {
                self.space.take_first(pass, Mode::Sx, latch, level, word)?;
                self.space.store_writer(pass, latch);
                Ok(())
            }
            Mode::X => {
                self.space.take_first(pass, Mode::X, latch, level, word)?;
                self.space.store_writer(pass, latch);
                Ok(())
            }
        }
    }
}

// What the session has of the latch in SX and X.
#[inline(always)]
pub(crate) fn claim_on(pass: &Pass, latch: Latch) -> Claim
    ensures { IsClaim latch.0 pass.now.view.session result }
{
    let counts = pass.counts(latch);
    if counts.x > 0 {
        Claim::X
    } else if counts.sx > 0 {
        Claim::Sx
    } else {
        Claim::Nothing
    }
}

// It is the word of a latch that nobody holds.
fn is_free(word: LockWord) -> bool
    ensures { result ≡ is_free_word word.0 }
{
    word.0 == LockWord::FREE.0
}

// What a reservation came to that took `X_LOCK_DECR` off the word.
pub(crate) fn reserve_at(word: LockWord) -> Reserve
    requires { is_above_0 word.0 ≡ true }
    ensures { result ≡ reserve_at (word.0 -ℤ pos X_LOCK_DECR) }
{
    let left = LockWord(word.0 - X_LOCK_DECR as i32);
    if is_drained(left) {
        Reserve::Owned
    } else {
        Reserve::Next { word: left }
    }
}
