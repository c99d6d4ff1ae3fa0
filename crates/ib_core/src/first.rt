//! The first grant of a session on a latch, and the place of the next writer.

ghost use Rattle.std.specs.Prelude.{◌≡◌, ◌≤◌, ◌-ℤ◌, pos, IsTrue, SomeIff, vec_capacity};
ghost use Rattle.ib_core.specs.declared.phase.Phase.TheVariants.{Free};
ghost use Rattle.ib_core.specs.Actor.{HasRoom, session_of};
ghost use Rattle.ib_core.specs.Member.{CanStep};
ghost use Rattle.ib_core.specs.Rows.{HasMoved};
ghost use Rattle.ib_core.specs.Sessions.{holdings};
ghost use Rattle.ib_core.specs.Takings.{first, first_holding, first_response, first_weight, holding_too, is_given_at, reserving};
ghost use Rattle.ib_core.specs.Responses.{answered};

use crate::actor::Actor;
use crate::event::Answer;
use crate::holdings::add;
use crate::phase::Phase;
use ib_levels::{Holding, Latch, Level, Mode};
use ib_word::{LockWord, X_LOCK_DECR, X_LOCK_HALF_DECR, is_drained, take_s, take_sx, take_x};

/// Whether a first grant of the mode is given at the word.
pub fn is_given_at(mode: Mode, word: LockWord) -> bool
    ensures { result ≡ is_given_at mode word.0 }
{
    match mode {
        Mode::S => word.0 > 0,
        Mode::Sx | Mode::X => word.0 > X_LOCK_HALF_DECR as i32,
    }
}

// The word after a first grant of the mode, None where the word refuses it.
fn word_after(word: LockWord, mode: Mode) -> Option<LockWord>
    ensures { SomeIff result (IsTrue (is_given_at mode word.0))
        (record { 0 = word.0 -ℤ pos (first_weight mode) }) }
{
    match mode {
        Mode::S => take_s(word),
        Mode::Sx => take_sx(word),
        Mode::X => take_x(word),
    }
}

// The holding with one grant of the mode.
#[inline(always)]
fn with_one(latch: Latch, mode: Mode, level: Level) -> Holding
    ensures { result ≡ first_holding mode latch.0 level }
{
    Holding {
        latch,
        level,
        s: u32::from(mode == Mode::S),
        sx: u32::from(mode == Mode::Sx),
        x: u32::from(mode == Mode::X),
    }
}

impl Actor {
    // X was taken off the word, which is this one now: the session owns X where no reader
    // remains, and else it is the next writer (sync0rw, `rw_lock_x_lock_wait`).
    #[inline(always)]
    pub(crate) fn reserve(&mut self, word: LockWord, latch: Latch, level: Level) -> Answer
        ensures responds { answered result (session_of self.new)
            ≡ reserving latch.0 level word.0 self.old.held.items }
        ensures held { self.new.held.items ≡ self.old.held.items }
        ensures capacity { vec_capacity self.old.held ≤ vec_capacity self.new.held }
    {
        if is_drained(word) {
            self.phase = Phase::Free;
            return Answer::Granted;
        }
        self.phase = Phase::Next {
            latch: latch.0,
            level,
        };
        Answer::Reserved
    }

    // A first grant of the mode, at a word that gives it, with no walk over what the session holds.
    #[inline(always)]
    pub(crate) fn grant_first(
        &mut self,
        word: LockWord,
        latch: Latch,
        mode: Mode,
        level: Level,
    ) -> Answer
        requires free { self.old.phase ≡ Free }
        requires none { holdings latch.0 (session_of self.old) ≡ 0 }
        requires room { HasRoom latch.0 self.old }
        requires given { IsTrue (is_given_at mode word.0) }
        ensures responds { answered result (session_of self.new)
            ≡ first_response mode latch.0 level (word.0 -ℤ pos (first_weight mode))
            (holding_too mode latch.0 level self.old.held.items) }
        ensures capacity { vec_capacity self.old.held ≤ vec_capacity self.new.held }
    {
        add(&mut self.held, with_one(latch, mode, level));
        match mode {
            Mode::S | Mode::Sx => Answer::Granted,
            Mode::X => self.reserve(LockWord(word.0 - X_LOCK_DECR as i32), latch, level),
        }
    }

    // A wish of a session that holds nothing on the latch. Where the word refuses it, the
    // session waits in this phase.
    pub(crate) fn take_first(
        &mut self,
        word: &mut LockWord,
        latch: Latch,
        mode: Mode,
        level: Level,
        waiting: Phase,
    ) -> Answer
        requires can { CanStep latch.0 word.old.0 (session_of self.old) }
        requires none { holdings latch.0 (session_of self.old) ≡ 0 }
        requires room { HasRoom latch.0 self.old }
        ensures responds { answered result (session_of self.new)
            ≡ first mode latch.0 level waiting word.old.0 self.old.held.items }
        ensures moves { HasMoved latch.0 word.old.0 self.old word.new.0 self.new }
    {
        let Some(after) = word_after(*word, mode) else {
            self.phase = waiting;
            return Answer::Busy { word: *word };
        };
        *word = after;
        add(&mut self.held, with_one(latch, mode, level));
        if mode == Mode::X {
            return self.reserve(after, latch, level);
        }
        self.phase = Phase::Free;
        Answer::Granted
    }
}
