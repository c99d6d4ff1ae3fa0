//! The steps that look at a lock word and take grants.

ghost use Rattle.std.specs.Prelude.{◌≡◌, ℕ, ◌+◌, ◌-◌, ◌<◌, IsTrue, IsOk, IfErr, pos, ◌-ℤ◌};
ghost use Rattle.ib_word.specs.Word.{IsCounted, cell_of};
ghost use Rattle.ib_word.specs.Weight.{x_weight};
ghost use Rattle.ib_word.specs.declared.word.TheConstants.{X_LOCK_DECR, X_LOCK_HALF_DECR};
ghost use Rattle.ib_levels.specs.declared.level.Level.TheVariants.{Log};
ghost use Rattle.ib_levels.specs.declared.level.Mode.TheVariants.{Sx as ModeSx, X as ModeX};
ghost use Rattle.ib_levels.specs.Holding.{changed_on};
ghost use Rattle.ib_layout.specs.Places.{latches_of};
ghost use Rattle.ib_core.specs.declared.event.Event.TheVariants.{Sx as SxEvent, X as XEvent};
ghost use Rattle.ib_core.specs.declared.phase.Phase.TheVariants.{Free};
ghost use Rattle.ib_core.specs.Takings.{first_weight, level_on, one_more, reserving};
ghost use Rattle.ib_core.specs.Responses.{is_above_0};
ghost use Rattle.ib_core.specs.Sessions.{claims, sx_grants, x_grants};
ghost use Rattle.ib_rule.specs.Pass.{IsOf, with_view};
ghost use Rattle.ib_rule.specs.Views.{signed};
ghost use Rattle.ib_rule.specs.Steps.{event_at, view_after};
ghost use Rattle.ib_rule.specs.Conditions.{try_event, word_kind};
ghost use Rattle.ib_rule.specs.Takes.{MayTakeFurther, MayUpgrade};
ghost use Rattle.ib_rule.specs.Told.{Happens};
ghost use Rattle.ib_rule.specs.Turns.{IsTry, IsTryFor, IsTurn, MayTryAt};
ghost use Rattle.ib_rule.specs.Afterwards.{granted, looked_on, phased, tried_on, with_step, word_loaded};

use crate::kind::WordOp;
use crate::pass::Pass;
use crate::space::Space;
use crate::turns::{HALF, WHOLE};
use ib_core::{Event, LatchWord, Phase};
use ib_levels::{Latch, Level, Mode};
use ib_logrec::Law;
use ib_word::{LockWord, again_x, from_cell};

impl<L: Law> Space<L> {
    /// Loads the lock word. It is a look, and for a session that waits on the latch an event: for a
    /// next writer `ready`, and for one that has set the flag `again`, where the word refuses its
    /// wish.
    #[inline(always)]
    pub fn load_word(&self, pass: &mut Pass, latch: Latch) -> LockWord
        requires own { IsOf self.now pass.old }
        requires latch { latch.0 < latches_of self.now.sizes }
        ensures counted { IsCounted result.0 }
        ensures view { pass.new ≡ with_view pass.old
            (view_after (word_kind latch.0 pass.old.view.session.phase) (cell_of result.0)
            pass.old.view) }
        ensures event { Happens
            (event_at (word_kind latch.0 pass.old.view.session.phase) pass.old.view.session
            (cell_of result.0)) pass.old.view.session (cell_of result.0)
            pass.new.view.session }
        ensures same { pass.new ≡ with_view pass.old (looked_on latch.0 result (phased
            (word_loaded latch.0 (cell_of result.0) pass.old.view.session
            pass.old.view.session.phase) pass.old.view)) }
    {
        let found = match pass.member.phase() {
            Phase::Next { latch: at, .. } | Phase::NextArmed { latch: at, .. } if at == latch.0 => {
                let event = Event::Ready { latch: latch.0 };
                self.turn(pass, event, LatchWord::Lock, WordOp::Load).0
            }
            Phase::Flagged { latch: at, .. } if at == latch.0 => self.recheck(pass, latch),
            _ => self.look(pass, latch),
        };
        from_cell(found)
    }

    /// Takes a first grant of the mode, or for X reserves one, with nothing held on the latch: one
    /// exchange, where the word is the expected one. It takes 1 off for S (sync0rw,
    /// `rw_lock_s_lock_low`), `X_LOCK_HALF_DECR` for SX (WL#6363, `rw_lock_sx_lock_low`), and
    /// `X_LOCK_DECR` for X (sync0rw, `rw_lock_x_lock_low`), which is owned where 0 is left: else the
    /// session is the next writer. Where the word is another, it answers that, and nothing is
    /// changed but the looks.
    #[inline(always)]
    pub fn take_first(
        &self,
        pass: &mut Pass,
        mode: Mode,
        latch: Latch,
        level: Level,
        expected: LockWord,
    ) -> Result<(), LockWord>
        requires may { MayTryAt self.now mode latch.0 level expected pass.old }
        ensures { IsTryFor mode latch.0 level expected result pass.old pass.new }
    {
        if let Phase::Free = pass.member.phase() {
            return self.take_by_wish(pass, mode, latch, level, expected);
        }
        self.take_in_phase(pass, mode, latch, level, expected)
    }

    /// Takes or reserves X beside one's own SX: one exchange that takes `X_LOCK_DECR` off the lock
    /// word, where it is the expected one. X is owned where minus `X_LOCK_HALF_DECR` is left, and else
    /// the session is the next writer. The latch keeps the level of its first grant.
    pub fn upgrade(&self, pass: &mut Pass, latch: Latch, expected: LockWord) -> Result<(), LockWord>
        requires may { MayUpgrade self.now latch.0 pass.old }
        requires given { IsTrue (is_above_0 expected.0) }
        ensures tried { IsTry (XEvent latch.0 Log) expected result pass.old pass.new }
        ensures taken { IsOk result → pass.new ≡ with_view pass.old (granted ModeX
            (reserving latch.0 (level_on latch.0 Log pass.old.view.session.held)
            (expected.0 -ℤ pos X_LOCK_DECR)
            (changed_on latch.0 (one_more ModeX) pass.old.view.session.held)).session
            (tried_on latch.0 expected expected pass.old.view)) }
        ensures lost { IfErr result (λ found. pass.new
            ≡ with_view pass.old (tried_on latch.0 expected found pass.old.view)) }
    {
        let event = Event::X {
            latch: latch.0,
            level: Level::Log,
        };
        match self.exchange_turn(pass, event, expected, WHOLE, None) {
            Ok(_) => Ok(()),
            Err(found) => Err(found),
        }
    }

    /// Takes X once more: `X_LOCK_DECR` off the lock word where it was owned once, and else 1
    /// (`rw_lock_x_lock_low`). It answers the word after the step.
    pub fn take_x_again(&self, pass: &mut Pass, latch: Latch) -> LockWord
        requires may { MayTakeFurther self.now latch.0 pass.old }
        requires owns { 0 < x_grants latch.0 pass.old.view.session }
        ensures turn { let x = x_grants latch.0 pass.old.view.session in
            IsTurn (XEvent latch.0 Log) (cell_of result.0 + (x_weight (x + 1) - x_weight x))
            pass.old pass.new }
        ensures taken { pass.new ≡ with_view pass.old (granted ModeX (record {
          held = changed_on latch.0 (one_more ModeX) pass.old.view.session.held;
          phase = Free;
        }) (with_step pass.old.view)) }
    {
        let weight = u64::from(again_x(pass.member.counts(latch).x));
        let event = Event::X {
            latch: latch.0,
            level: Level::Log,
        };
        let (found, _) = self.turn(pass, event, LatchWord::Lock, WordOp::Sub(weight));
        from_cell(found - weight)
    }

    /// Takes a first SX beside one's own X: `X_LOCK_HALF_DECR` off the lock word
    /// (`rw_lock_sx_lock_low`). It answers the word after the step.
    pub fn take_sx_under_x(&self, pass: &mut Pass, latch: Latch) -> LockWord
        requires may { MayTakeFurther self.now latch.0 pass.old }
        requires owns_x { 0 < x_grants latch.0 pass.old.view.session }
        requires no_sx { sx_grants latch.0 pass.old.view.session ≡ 0 }
        ensures turn { IsTurn (SxEvent latch.0 Log) (cell_of result.0 + X_LOCK_HALF_DECR)
            pass.old pass.new }
        ensures taken { pass.new ≡ with_view pass.old (granted ModeSx (record {
          held = changed_on latch.0 (one_more ModeSx) pass.old.view.session.held;
          phase = Free;
        }) (with_step pass.old.view)) }
    {
        let event = Event::Sx {
            latch: latch.0,
            level: Level::Log,
        };
        let (found, _) = self.turn(pass, event, LatchWord::Lock, WordOp::Sub(HALF));
        from_cell(found - HALF)
    }

    /// Takes SX once more: a load of the writer counts it, and nothing is taken off. The word is the
    /// session's own number once it was stored, and nobody asks for it.
    pub fn take_sx_again(&self, pass: &mut Pass, latch: Latch)
        requires may { MayTakeFurther self.now latch.0 pass.old }
        requires owns { 0 < sx_grants latch.0 pass.old.view.session }
        ensures turn { (found : ℕ) × IsTurn (SxEvent latch.0 Log) found pass.old pass.new }
        ensures taken { pass.new ≡ with_view pass.old (granted ModeSx (record {
          held = changed_on latch.0 (one_more ModeSx) pass.old.view.session.held;
          phase = Free;
        }) pass.old.view) }
    {
        let event = Event::Sx {
            latch: latch.0,
            level: Level::Log,
        };
        self.turn(pass, event, LatchWord::Writer, WordOp::Load);
    }

    /// Stores the session's number as the writer of a latch that it has in SX or X, or is the next
    /// writer of.
    pub fn store_writer(&self, pass: &mut Pass, latch: Latch)
        requires own { IsOf self.now pass.old }
        requires latch { latch.0 < latches_of self.now.sizes }
        requires claims { 0 < claims latch.0 pass.old.view.session }
        ensures { pass.new ≡ with_view pass.old (signed latch.0 pass.old.view) }
    {
        self.sign(pass, latch);
    }

    // .. by a session in the middle of nothing.
    #[inline(always)]
    fn take_by_wish(
        &self,
        pass: &mut Pass,
        mode: Mode,
        latch: Latch,
        level: Level,
        expected: LockWord,
    ) -> Result<(), LockWord>
        requires may { MayTryAt self.now mode latch.0 level expected pass.old }
        requires free { pass.old.view.session.phase ≡ Free }
        ensures { IsTryFor mode latch.0 level expected result pass.old pass.new }
    {
        let event = wish_event(mode, latch.0, level);
        let wish = Some((mode, level));
        match self.exchange_turn(pass, event, expected, first_weight(mode), wish) {
            Ok(_) => Ok(()),
            Err(found) => Err(found),
        }
    }

    // .. in any phase.
    #[inline(never)]
    fn take_in_phase(
        &self,
        pass: &mut Pass,
        mode: Mode,
        latch: Latch,
        level: Level,
        expected: LockWord,
    ) -> Result<(), LockWord>
        requires may { MayTryAt self.now mode latch.0 level expected pass.old }
        ensures { IsTryFor mode latch.0 level expected result pass.old pass.new }
    {
        let event = try_event(mode, latch.0, level, pass.member.phase());
        match self.exchange_turn(pass, event, expected, first_weight(mode), None) {
            Ok(_) => Ok(()),
            Err(found) => Err(found),
        }
    }
}

// What a first grant of the mode takes off.
#[inline(always)]
fn first_weight(mode: Mode) -> u64
    ensures { result ≡ first_weight mode }
{
    match mode {
        Mode::S => 1,
        Mode::Sx => HALF,
        Mode::X => WHOLE,
    }
}

// The event of a first wish for the mode.
#[inline(always)]
fn wish_event(mode: Mode, latch: u32, level: Level) -> Event
    ensures { result ≡ try_event mode latch level Free }
{
    match mode {
        Mode::S => Event::S { latch, level },
        Mode::Sx => Event::Sx { latch, level },
        Mode::X => Event::X { latch, level },
    }
}

// The event of a first try for the mode.
#[inline(always)]
fn try_event(mode: Mode, latch: u32, level: Level, phase: Phase) -> Event
    ensures { result ≡ try_event mode latch level phase }
{
    match (phase, mode) {
        (Phase::Flagged { .. }, _) => Event::Again { latch },
        (_, Mode::S) => Event::S { latch, level },
        (_, Mode::Sx) => Event::Sx { latch, level },
        (_, Mode::X) => Event::X { latch, level },
    }
}
