//! The events that give a grant back.

ghost use Rattle.std.specs.Prelude.{◌≡◌, ◌^◌, ◌<◌, ◌≤◌, vec_capacity};
ghost use Rattle.ib_levels.specs.Holding.{on};
ghost use Rattle.ib_core.specs.Actor.{session_of};
ghost use Rattle.ib_core.specs.Rows.{HasStepped, MayGive};
ghost use Rattle.ib_core.specs.Sessions.{claims, grants, holdings};
ghost use Rattle.ib_core.specs.Takings.{count_of, given_back, giving_s, giving_sx, giving_x};
ghost use Rattle.ib_core.specs.HeldAt.{IsHeldAt};

use crate::actor::Actor;
use crate::event::{Answer, Refusal};
use crate::holdings::{give_up, take_one};
use crate::phase::Phase;
use ib_levels::{Latch, Mode};
use ib_word::{LockWord, X_LOCK_HALF_DECR, give_x, is_drained};

impl Actor {
    // One grant of SX or X goes, and with the last of them all the holding, which stands at the
    // place.
    #[inline(always)]
    fn give_back(&mut self, latch: Latch, mode: Mode, at: usize, all: u32)
        requires single { holdings latch.0 (session_of self.old) ≤ 1 }
        requires few { grants latch.0 (session_of self.old) < 2 ^ 28 }
        requires has { 0 < on latch.0 (count_of mode) self.old.held.items }
        requires index { IsHeldAt latch.0 at self.old.held.items }
        requires all { all ≡ claims latch.0 (session_of self.old) }
        ensures held { self.new.held.items ≡ given_back mode latch.0 (session_of self.old) }
        ensures phase { self.new.phase ≡ self.old.phase }
        ensures capacity { vec_capacity self.old.held ≤ vec_capacity self.new.held }
    {
        if all == 1 {
            give_up(&mut self.held, latch, at);
        } else {
            take_one(&mut self.held, latch, mode);
        }
    }

    // S. The last reader before a next writer owes it a raise of the ex generation (sync0rw,
    // `rw_lock_s_unlock_func`).
    #[inline(always)]
    pub(crate) fn give_s(&mut self, word: &mut LockWord, latch: Latch) -> Answer
        requires { MayGive latch.0 word.old.0 self.old }
        ensures { HasStepped latch.0 word.old.0 self.old result word.new.0 self.new
            (giving_s latch.0 word.old.0 (session_of self.old)) }
    {
        let mine = self.found(latch);
        if mine.s == 0 {
            return Answer::Refused(Refusal::NotHeld);
        }
        *word = LockWord(word.0 + 1);
        give_up(&mut self.held, latch, mine.at);
        if is_drained(*word) {
            self.phase = Phase::OwesRaiseEx { latch: latch.0 };
        }
        Answer::Released
    }

    // One SX. With the last, and no X of its own, the session owes a look at the waiters flag
    // (WL#6363, `rw_lock_sx_unlock_func`).
    #[inline(always)]
    pub(crate) fn give_sx(&mut self, word: &mut LockWord, latch: Latch) -> Answer
        requires { MayGive latch.0 word.old.0 self.old }
        ensures { HasStepped latch.0 word.old.0 self.old result word.new.0 self.new
            (giving_sx latch.0 (session_of self.old)) }
    {
        let mine = self.found(latch);
        if mine.sx == 0 {
            return Answer::Refused(Refusal::NotHeld);
        }
        if mine.sx == 1 {
            *word = LockWord(word.0 + X_LOCK_HALF_DECR as i32);
        }
        self.give_back(latch, Mode::Sx, mine.at, mine.sx + mine.x);
        if mine.sx + mine.x == 1 {
            self.phase = Phase::OwesLook { latch: latch.0 };
        }
        Answer::Released
    }

    // One X. With the last the session owes a look at the waiters flag (sync0rw,
    // `rw_lock_x_unlock_func`).
    #[inline(always)]
    pub(crate) fn give_x(&mut self, word: &mut LockWord, latch: Latch) -> Answer
        requires { MayGive latch.0 word.old.0 self.old }
        ensures { HasStepped latch.0 word.old.0 self.old result word.new.0 self.new
            (giving_x latch.0 (session_of self.old)) }
    {
        let mine = self.found(latch);
        if mine.x == 0 {
            return Answer::Refused(Refusal::NotHeld);
        }
        *word = LockWord(word.0 + give_x(mine.x) as i32);
        self.give_back(latch, Mode::X, mine.at, mine.sx + mine.x);
        if mine.x == 1 {
            self.phase = Phase::OwesLook { latch: latch.0 };
        }
        Answer::Released
    }
}
