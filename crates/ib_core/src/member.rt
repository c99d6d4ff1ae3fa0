//! A session of the machine, among a number of latches.

ghost use Rattle.std.specs.Prelude.{◌≡◌, ℕ, ◌+◌, ◌<◌, ◌≤◌, ◌^◌, length, IfOk, IsTrue};
ghost use Rattle.ib_levels.specs.Listed.{answer_to};
ghost use Rattle.ib_levels.specs.Holding.{is_held, levels_of};
ghost use Rattle.ib_core.specs.Sessions.{holdings, reads, sx_grants, x_grants};
ghost use Rattle.ib_core.specs.Responses.{answered, latch_of};
ghost use Rattle.ib_core.specs.declared.session.Marks.{Marks as MarksOf};
ghost use Rattle.ib_core.specs.Good.{IsProper};
ghost use Rattle.ib_core.specs.Holders.{CanWish};
ghost use Rattle.ib_core.specs.Takings.{is_given_at, wish};
ghost use Rattle.ib_core.specs.Table.{response_of, turn_of};
ghost use Rattle.ib_core.specs.Member.{CanStep, SameSum, idle_among};

use crate::OutOfMemory;
use crate::actor::Actor;
use crate::event::{Answer, Event};
use crate::holdings::Counts;
use crate::phase::Phase;
use crate::session::Marks;
use ib_levels::{Against, Holding, Latch, Level, Mode};
use ib_word::LockWord;
use std::alloc::Global;
use std::marker::Model;

/// A session of the machine. Contracts see it as the session and the number of latches for which
/// its list has room, so that no event on one of them takes memory. It may go over to another
/// thread.
#[derive(Drop)]
pub struct Member {
    actor: Actor,
    latches: u32,
}

impl Model for Member {
    ghost use Rattle.ib_core.specs.Actor.{HasRoomFor, session_of};
    ghost use Rattle.ib_core.specs.Member.{SessionAmong};

    ghost Value = { SessionAmong };

    ghost view = { λ m. record { session = session_of m.actor; latches = m.latches } };

    ghost invariant = { λ m. HasRoomFor m.latches m.actor };
}

impl Member {
    /// A session that holds nothing, with room for this many latches.
    pub fn idle(alloc: Global, latches: u32) -> Result<Member, OutOfMemory>
        ensures { IfOk result (λ m. m ≡ idle_among latches) }
    {
        let actor = Actor {
            held: Vec::with_capacity(alloc, latches as usize)?,
            phase: Phase::Free,
        };
        Ok(Member { actor, latches })
    }

    /// Its phase.
    pub fn phase(&self) -> Phase
        ensures { result ≡ self.now.session.phase }
    {
        self.actor.phase
    }

    /// What it holds, in order of taking.
    pub fn held(&self) -> &[Holding]
        ensures held { result.now ≡ self.now.session.held }
        ensures few { ((l : ℕ) → holdings l self.now.session ≤ 1)
            → length result.now < 2 ^ 32 }
    {
        // For the proof: the number of latches is one of 32 bits.
        let _latches = self.latches;
        self.actor.held.as_slice()
    }

    /// Whether it holds the latch.
    pub fn holds(&self, latch: Latch) -> bool
        ensures { result ≡ is_held latch.0 self.now.session.held }
    {
        self.actor.holds(latch)
    }

    /// Its grants on the latch: none where it does not hold it.
    pub fn counts(&self, latch: Latch) -> Counts
        requires { holdings latch.0 self.now.session ≤ 1 }
        ensures s { result.s ≡ reads latch.0 self.now.session }
        ensures sx { result.sx ≡ sx_grants latch.0 self.now.session }
        ensures x { result.x ≡ x_grants latch.0 self.now.session }
    {
        self.actor.grants(latch)
    }

    /// Whether the order of levels allows it the latch at the level: it does where the session
    /// holds the latch already. Else the answer names the first level held that forbids it.
    pub fn may_take(&self, latch: Latch, level: Level) -> Result<(), Against>
        ensures { result
            ≡ answer_to (is_held latch.0 self.now.session.held) level
            (levels_of self.now.session.held) }
    {
        self.actor.may_take(latch, level)
    }

    /// A first grant of the mode, to a session that may wish for it, at a word that gives it: exactly
    /// the turn of the wish, with no walk over what the session holds.
    #[inline(always)]
    pub fn grant_first(&mut self, word: LockWord, latch: Latch, mode: Mode, level: Level) -> Answer
        requires latch { latch.0 < self.old.latches }
        requires proper { IsProper self.old.session }
        requires may { CanWish latch.0 level self.old.session }
        requires given { IsTrue (is_given_at mode word.0) }
        ensures turn { (marks : MarksOf) → answered result self.new.session
            ≡ response_of word.0 marks (wish mode latch.0 level) self.old.session }
        ensures latches { self.new.latches ≡ self.old.latches }
    {
        self.actor.grant_first(word, latch, mode, level)
    }

    /// One event of the session, on the latch with this word and these marks: exactly the turn of
    /// the table. The word moves by what the session takes off it.
    #[inline(always)]
    pub fn step(&mut self, word: &mut LockWord, marks: &mut Marks, event: Event) -> Answer
        requires latch { latch_of event < self.old.latches }
        requires can { CanStep (latch_of event) word.old.0 self.old.session }
        requires generation { marks.old.generation + 1 < 2 ^ 64 }
        requires ex_generation { marks.old.ex_generation + 1 < 2 ^ 64 }
        ensures turn { record { answer = result; session = self.new.session; marks = marks.new }
            ≡ turn_of word.old.0 marks.old event self.old.session }
        ensures weighs { SameSum (latch_of event) word.old.0 self.old.session
            word.new.0 self.new.session }
        ensures latches { self.new.latches ≡ self.old.latches }
    {
        self.actor.step(word, marks, event)
    }
}
