//! The events that take a grant.

ghost use Rattle.std.specs.Prelude.{◌≡◌, ◌<◌};
ghost use Rattle.ib_core.specs.declared.event.Answer.TheVariants.{Refused};
ghost use Rattle.ib_core.specs.declared.event.Refusal.TheVariants.{Against as AgainstLevels};
ghost use Rattle.ib_core.specs.declared.phase.Phase.TheVariants.{Free};
ghost use Rattle.ib_core.specs.Actor.{session_of};
ghost use Rattle.ib_core.specs.Member.{CanStep};
ghost use Rattle.ib_core.specs.Rows.{HasStepped, MayBegin};
ghost use Rattle.ib_core.specs.Sessions.{sx_grants, x_grants};
ghost use Rattle.ib_core.specs.Takings.{taking_s, taking_sx, taking_x, upgrade};

use crate::actor::Actor;
use crate::event::{Answer, Refusal};
use crate::holdings::{add_one, level_of};
use crate::phase::Phase;
use ib_levels::{Against, Latch, Level, Mode};
use ib_word::{LockWord, X_LOCK_HALF_DECR, again_x, upgrade_x};

impl Answer {
    // The refusal by the order of levels.
    pub(crate) fn against(levels: Against) -> Answer
        ensures { result ≡ Refused (AgainstLevels levels.held levels.wanted) }
    {
        Answer::Refused(Refusal::Against {
            held: levels.held,
            wanted: levels.wanted,
        })
    }
}

impl Actor {
    // S, where the session holds nothing on the latch (sync0rw, `rw_lock_s_lock_low`).
    pub(crate) fn take_s(&mut self, word: &mut LockWord, latch: Latch, level: Level) -> Answer
        requires { MayBegin latch.0 word.old.0 self.old }
        ensures { HasStepped latch.0 word.old.0 self.old result word.new.0 self.new
            (taking_s latch.0 level word.old.0 (session_of self.old)) }
    {
        if self.holds(latch) {
            return Answer::Refused(Refusal::HeldAlready);
        }
        if let Err(levels) = self.may_take(latch, level) {
            return Answer::against(levels);
        }
        self.take_first(word, latch, Mode::S, level, Phase::Free)
    }

    // SX: the owner of SX or X always has it, and takes HALF off the word with its first
    // (WL#6363, `rw_lock_sx_lock_low`).
    pub(crate) fn take_sx(&mut self, word: &mut LockWord, latch: Latch, level: Level) -> Answer
        requires { MayBegin latch.0 word.old.0 self.old }
        ensures { HasStepped latch.0 word.old.0 self.old result word.new.0 self.new
            (taking_sx latch.0 level word.old.0 (session_of self.old)) }
    {
        let mine = self.grants(latch);
        if mine.s > 0 {
            return Answer::Refused(Refusal::HeldAlready);
        }
        if let Err(levels) = self.may_take(latch, level) {
            return Answer::against(levels);
        }
        if mine.sx == 0 && mine.x == 0 {
            return self.take_first(word, latch, Mode::Sx, level, Phase::Free);
        }
        if mine.sx == 0 {
            *word = LockWord(word.0 - X_LOCK_HALF_DECR as i32);
        }
        add_one(&mut self.held, latch, Mode::Sx);
        Answer::Granted
    }

    // X: its owner always has it, the owner of SX takes it or becomes the next writer, and so
    // does a newcomer where nobody has SX or X (sync0rw, `rw_lock_x_lock_low`).
    pub(crate) fn take_x(&mut self, word: &mut LockWord, latch: Latch, level: Level) -> Answer
        requires { MayBegin latch.0 word.old.0 self.old }
        ensures { HasStepped latch.0 word.old.0 self.old result word.new.0 self.new
            (taking_x latch.0 level word.old.0 (session_of self.old)) }
    {
        let mine = self.grants(latch);
        if mine.s > 0 {
            return Answer::Refused(Refusal::HeldAlready);
        }
        if let Err(levels) = self.may_take(latch, level) {
            return Answer::against(levels);
        }
        if mine.x > 0 {
            *word = LockWord(word.0 - again_x(mine.x) as i32);
            add_one(&mut self.held, latch, Mode::X);
            return Answer::Granted;
        }
        if mine.sx > 0 {
            return self.upgrade(word, latch, level);
        }
        self.take_first(word, latch, Mode::X, level, Phase::Free)
    }

    // X beside one's own SX.
    fn upgrade(&mut self, word: &mut LockWord, latch: Latch, level: Level) -> Answer
        requires can { CanStep latch.0 word.old.0 (session_of self.old) }
        requires free { self.old.phase ≡ Free }
        requires owner { 0 < sx_grants latch.0 (session_of self.old) }
        requires first { x_grants latch.0 (session_of self.old) ≡ 0 }
        ensures { HasStepped latch.0 word.old.0 self.old result word.new.0 self.new
            (upgrade latch.0 level word.old.0 self.old.held.items) }
    {
        let Some(after) = upgrade_x(*word) else {
            return Answer::Busy { word: *word };
        };
        let level = level_of(self.held.as_slice(), latch, level);
        *word = after;
        add_one(&mut self.held, latch, Mode::X);
        self.reserve(after, latch, level)
    }
}
