//! The events of a session that waits, and the word at which a next writer owns X.

ghost use Rattle.std.specs.Prelude.{◌≡◌, ◌≤◌};
ghost use Rattle.ib_core.specs.declared.event.Answer.TheVariants.{Quit as WaitsNoMore};
ghost use Rattle.ib_core.specs.declared.phase.Phase.TheVariants.{Free};
ghost use Rattle.ib_core.specs.Actor.{session_of};
ghost use Rattle.ib_core.specs.Sessions.{holdings};
ghost use Rattle.ib_core.specs.Rows.{HasResponded};
ghost use Rattle.ib_core.specs.Table.{arming, owns_x_at, readying, sleeping};

use crate::actor::Actor;
use crate::event::{Answer, Refusal};
use crate::phase::Phase;
use ib_levels::{Latch, Level, Mode};
use ib_word::{LockWord, X_LOCK_HALF_DECR};

/// Whether a next writer with so many grants of SX owns X at the word.
pub fn owns_x_at(sx: u64, word: LockWord) -> bool
    ensures { result ≡ owns_x_at sx word.0 }
{
    if sx > 0 {
        word.0 == -(X_LOCK_HALF_DECR as i32)
    } else {
        word.0 == 0
    }
}

impl Actor {
    // Records the generation, before it waits for a grant of the mode (sync0arr,
    // `sync_array_reserve_cell`).
    pub(crate) fn arm(&mut self, latch: Latch, mode: Mode, level: Level, generation: u64) -> Answer
        ensures { HasResponded self.old result self.new
            (arming latch.0 mode level generation (session_of self.old)) }
    {
        if self.holds(latch) {
            return Answer::Refused(Refusal::HeldAlready);
        }
        if let Err(levels) = self.may_take(latch, level) {
            return Answer::against(levels);
        }
        self.phase = Phase::Armed {
            latch: latch.0,
            mode,
            level,
            generation,
        };
        Answer::Armed { generation }
    }

    // Goes to sleep, or sleeps on, where this generation is the recorded one, and else is awake
    // (sync0arr, `sync_array_wait_event`).
    pub(crate) fn sleep(&mut self, now: u64, recorded: u64, asleep: Phase, awake: Phase) -> Answer
        ensures { HasResponded self.old result self.new
            (sleeping now recorded asleep awake (session_of self.old)) }
    {
        if now == recorded {
            self.phase = asleep;
            Answer::Asleep { generation: now }
        } else {
            self.phase = awake;
            Answer::Awake { generation: now }
        }
    }

    // The next writer owns X where its readers are gone, and else waits in this phase (sync0rw,
    // `rw_lock_x_lock_wait`).
    pub(crate) fn ready(&mut self, word: LockWord, latch: Latch, waiting: Phase) -> Answer
        requires { holdings latch.0 (session_of self.old) ≤ 1 }
        ensures { HasResponded self.old result self.new
            (readying latch.0 waiting word.0 (session_of self.old)) }
    {
        if owns_x_at(u64::from(self.grants(latch).sx), word) {
            self.phase = Phase::Free;
            Answer::Granted
        } else {
            self.phase = waiting;
            Answer::NotReady { word }
        }
    }

    // Waits no more.
    pub(crate) fn quit(&mut self) -> Answer
        ensures answer { result ≡ WaitsNoMore }
        ensures held { self.new ≡ record self.old { phase = Free } }
    {
        self.phase = Phase::Free;
        Answer::Quit
    }
}
