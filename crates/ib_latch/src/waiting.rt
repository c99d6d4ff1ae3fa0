//! How a session waits: it writes down in a cell what it waits for, and sleeps while the generation
//! that it recorded stands (sync0arr, `sync_array_wait_event`).

ghost use Rattle.std.specs.Prelude.{◌≡◌, ℕ, ◌<◌, IsTrue, None, false};
ghost use Rattle.ib_layout.specs.Places.{latches_of};
ghost use Rattle.ib_core.specs.declared.phase.Phase.TheVariants.{Flagged, Free, Next, NextArmed};
ghost use Rattle.ib_core.specs.Sessions.{sx_grants};
ghost use Rattle.ib_rule.specs.Conditions.{MayGrow, MayLoadGen};
ghost use Rattle.ib_rule.specs.Pass.{IsOf};
ghost use Rattle.ib_rule.specs.Takes.{MayTake};
ghost use Rattle.ib_rule.specs.Turns.{IsInPhase};
ghost use Rattle.ib_latch.specs.Waits.{EndsOwned, HasLookedAsNext, HasTried, IsAsleepOn, IsStill, NextWaits, wish_for};

use crate::latches::Latches;
use crate::parkers::Parkers;
use crate::tries::{Reserve, TryFault};
use ib_core::Phase;
use ib_levels::{Latch, Level, Mode};
use ib_logrec::Law;
use ib_rule::Pass;
use ib_wait::{Cell, Wish};
use std::sync::Wait;
use std::thread;

impl<L: Law> Latches<L, Parkers> {
    // The session arms itself, reserves a cell, tries once more, and sleeps where its wish is
    // refused still. None where nothing was granted: it was woken, or another was faster, or no cell
    // was free.
    pub(crate) fn wait<R: Wait>(
        &self,
        rt: &R,
        pass: &mut Pass,
        mode: Mode,
        latch: Latch,
        level: Level,
    ) -> Option<Reserve>
        requires may { MayTake self.now latch.0 level pass.old }
        ensures { HasTried self.now mode latch.0 level result pass.old pass.new }
    {
        let generation = self.arm(pass, latch, mode, level);
        let cell = Cell {
            latch,
            wish: wish_for(mode),
            session: pass.number(),
            generation,
        };
        let Some(cell) = self.sleep.reserve(rt, pass, cell) else {
            self.stand_down(pass);
            return None;
        };
        let reserve = self.recheck_or_sleep(rt, pass, mode, latch, level);
        self.sleep.free(rt, cell);
        reserve
    }

    // Tries once more, and sleeps where the wish is refused still.
    fn recheck_or_sleep<R: Wait>(
        &self,
        rt: &R,
        pass: &mut Pass,
        mode: Mode,
        latch: Latch,
        level: Level,
    ) -> Option<Reserve>
        requires own { IsOf self.now pass.old }
        requires latch { latch.0 < latches_of self.now.sizes }
        requires grows { MayGrow pass.old.view }
        requires flagged { (generation : ℕ)
            × (pass.old.view.session.phase ≡ Flagged latch.0 mode level generation) }
        ensures { HasTried self.now mode latch.0 level result pass.old pass.new }
    {
        // For the proof: the contract alone speaks of them.
        let _ = (mode, level);
        match self.recheck(pass, latch) {
            Ok(reserve) => Some(reserve),
            Err(TryFault::Raced { .. }) => {
                self.stand_down(pass);
                None
            }
            Err(TryFault::Busy { .. }) => {
                self.sleep_on(rt, pass, latch);
                None
            }
        }
    }

    // Sleeps while the generation stands that the session recorded.
    fn sleep_on<R: Wait>(&self, rt: &R, pass: &mut Pass, latch: Latch)
        requires own { IsOf self.now pass.old }
        requires latch { latch.0 < latches_of self.now.sizes }
        requires checked { MayLoadGen latch.0 None pass.old.view.session
            pass.old.view.session.phase }
        ensures own { IsOf self.now pass.new }
        ensures still { IsStill Free pass.old pass.new }
    {
        for _ in rt.forever() {
            if self.is_awake(pass, latch) {
                return;
            }
            self.rest(rt, pass, latch);
        }
        unreachable!()
    }

    // Sleeps once: no session does that has not looked whether its generation stands.
    fn rest<R: Wait>(&self, rt: &R, pass: &Pass, latch: Latch)
        requires { IsAsleepOn latch.0 pass.now.view.session.phase }
    {
        // For the proof: the contract alone speaks of it.
        let _ = latch;
        self.sleep.sleep(rt, pass);
    }

    // A look at the generation: whether it is another than the one recorded.
    fn is_awake(&self, pass: &mut Pass, latch: Latch) -> bool
        requires own { IsOf self.now pass.old }
        requires latch { latch.0 < latches_of self.now.sizes }
        requires checked { MayLoadGen latch.0 None pass.old.view.session
            pass.old.view.session.phase }
        ensures own { IsOf self.now pass.new }
        ensures still { IsStill pass.new.view.session.phase pass.old pass.new }
        ensures awake { IsTrue result → pass.new.view.session.phase ≡ Free }
        ensures asleep { result ≡ false → IsAsleepOn latch.0 pass.new.view.session.phase }
        ensures again { result ≡ false
            → MayLoadGen latch.0 None pass.new.view.session pass.new.view.session.phase }
    {
        self.space.load_gen(pass, latch, None);
        matches!(pass.phase(), Phase::Free)
    }

    // The next writer records the ex generation, reserves a cell, verifies that readers remain, and
    // sleeps then. Where no cell is free it looks again and again in place of sleep. Whether X is
    // owned.
    #[tactic(auto, using(crate::proofs::Stills::still_owned))]
    pub(crate) fn wait_for_readers<R: Wait>(
        &self,
        rt: &R,
        pass: &mut Pass,
        latch: Latch,
        level: Level,
    ) -> bool
        requires next { IsInPhase self.now latch.0 (Next latch.0 level) pass.old }
        ensures { HasLookedAsNext self.now latch.0 level result pass.old pass.new }
    {
        let generation = self.space.load_ex_gen(pass, latch);
        let cell = Cell {
            latch,
            wish: Wish::NextX,
            session: pass.number(),
            generation,
        };
        let cell = self.sleep.reserve(rt, pass, cell);
        let owned = self.verify_or_sleep(rt, pass, latch, level, cell.is_some());
        if let Some(cell) = cell {
            self.sleep.free(rt, cell);
        }
        owned
    }

    // Verifies that readers remain, and sleeps then. Whether X is owned.
    fn verify_or_sleep<R: Wait>(
        &self,
        rt: &R,
        pass: &mut Pass,
        latch: Latch,
        level: Level,
        has_cell: bool,
    ) -> bool
        requires own { IsOf self.now pass.old }
        requires latch { latch.0 < latches_of self.now.sizes }
        requires armed { (generation : ℕ)
            × (pass.old.view.session.phase ≡ NextArmed latch.0 level generation) }
        ensures { HasLookedAsNext self.now latch.0 level result pass.old pass.new }
    {
        if self.verify(pass, latch, level) {
            return true;
        }
        self.sleep_as_next(rt, pass, latch, level, has_cell);
        false
    }

    // A look of a next writer that is armed: whether it owns X.
    fn verify(&self, pass: &mut Pass, latch: Latch, level: Level) -> bool
        requires own { IsOf self.now pass.old }
        requires latch { latch.0 < latches_of self.now.sizes }
        requires armed { (generation : ℕ)
            × (pass.old.view.session.phase ≡ NextArmed latch.0 level generation) }
        ensures own { IsOf self.now pass.new }
        ensures still { IsStill pass.new.view.session.phase pass.old pass.new }
        ensures owns { IsTrue result → pass.new.view.session.phase ≡ Free }
        ensures owned { IsTrue result → EndsOwned (sx_grants latch.0 pass.old.view.session)
            latch.0 pass.new.view.looks }
        ensures waits { result ≡ false → NextWaits latch.0 level pass.new.view.session.phase }
    {
        // For the proof: the contract alone speaks of it.
        let _ = level;
        self.space.load_word(pass, latch);
        matches!(pass.phase(), Phase::Free)
    }

    // Sleeps while the ex generation stands that the next writer recorded.
    fn sleep_as_next<R: Wait>(
        &self,
        rt: &R,
        pass: &mut Pass,
        latch: Latch,
        level: Level,
        has_cell: bool,
    )
        requires own { IsOf self.now pass.old }
        requires latch { latch.0 < latches_of self.now.sizes }
        requires waits { NextWaits latch.0 level pass.old.view.session.phase }
        ensures own { IsOf self.now pass.new }
        ensures still { IsStill (Next latch.0 level) pass.old pass.new }
    {
        for _ in rt.forever() {
            if self.is_awake_as_next(pass, latch, level) {
                return;
            }
            if has_cell {
                self.rest(rt, pass, latch);
            } else {
                thread::yield_now();
            }
        }
        unreachable!()
    }

    // A look at the ex generation: whether it is another than the one recorded.
    fn is_awake_as_next(&self, pass: &mut Pass, latch: Latch, level: Level) -> bool
        requires own { IsOf self.now pass.old }
        requires latch { latch.0 < latches_of self.now.sizes }
        requires waits { NextWaits latch.0 level pass.old.view.session.phase }
        ensures own { IsOf self.now pass.new }
        ensures still { IsStill pass.new.view.session.phase pass.old pass.new }
        ensures awake { IsTrue result → pass.new.view.session.phase ≡ Next latch.0 level }
        ensures asleep { result ≡ false → IsAsleepOn latch.0 pass.new.view.session.phase }
        ensures again { result ≡ false → NextWaits latch.0 level pass.new.view.session.phase }
    {
        // For the proof: the contract alone speaks of it.
        let _ = level;
        self.space.load_ex_gen(pass, latch);
        matches!(pass.phase(), Phase::Next { .. })
    }
}

// What is written in the cell of a session that waits for a first grant of the mode.
fn wish_for(mode: Mode) -> Wish
    ensures { result ≡ wish_for mode }
{
    match mode {
        Mode::S => Wish::S,
        Mode::Sx => Wish::Sx,
        Mode::X => Wish::X,
    }
}
