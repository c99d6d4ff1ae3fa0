//! The machine: all sessions, and the words of all latches.

ghost use Rattle.std.specs.Prelude.{◌≡◌, ℕ, ◌+◌, ◌-◌, ◌<◌, ◌≤◌, length, replicate, IfOk};
ghost use Rattle.ib_core.specs.Sessions.{word_on};
ghost use Rattle.ib_core.specs.Responses.{latch_of};
ghost use Rattle.ib_core.specs.Machine.{IsGoodState, opening_state, outcome_of};
ghost use Rattle.ib_core.specs.Member.{idle_among};

use crate::event::{Answer, Event};
use crate::member::Member;
use crate::session::Marks;
use ib_levels::MOST_PAGES;
use ib_word::{LockWord, MOST_READERS};
use std::alloc::{AllocError, Global};
use std::marker::Model;

/// The most sessions of a machine. Each reads a latch once at most.
pub const MOST_SESSIONS: u32 = MOST_READERS;

/// The most latches of a machine: the log's, the index's, and those of the most pages.
pub const MOST_LATCHES: u32 = MOST_PAGES + 2;

/// The most steps of a machine. The words and generations that they reach fit their numbers.
pub const MOST_STEPS: u32 = (1 << 28) - 1;

// Clauses cite these by name: with another number the check fails here.
const _: () = prove!(MOST_SESSIONS == 1024);

const _: () = prove!(MOST_LATCHES == 4098);

const _: () = prove!(MOST_STEPS == 268_435_455);

/// Want of memory.
pub type OutOfMemory = AllocError;

/// The latch machine of one thread: latches and sessions as plain data. Sessions are numbered
/// from 1, latches from 0. Contracts see it as its state and the number of steps made.
#[derive(Drop)]
pub struct Core {
    members: Vec<Member>,
    words: Vec<LockWord>,
    marks: Vec<Marks>,
    steps: u32,
}

impl Model for Core {
    ghost use Rattle.ib_core.specs.Machine.{Machine};
    ghost use Rattle.ib_core.specs.Member.{sessions_of};
    ghost use Rattle.ib_core.specs.Keeping.{IsKept};

    ghost Value = { Machine };

    ghost view = { λ c. record {
      state = record { sessions = sessions_of c.members.items; marks = c.marks.items };
      steps = c.steps;
    } };

    ghost invariant = { λ c. IsKept c.members.items c.words.items c.marks.items c.steps };
}

// As many idle members as there are sessions.
fn idle_members(alloc: Global, sessions: u32, latches: u32) -> Result<Vec<Member>, OutOfMemory>
    ensures { IfOk result (λ v. v.items ≡ replicate sessions (idle_among latches)) }
{
    let mut members = Vec::with_capacity(alloc, sessions as usize)?;
    for _ in 0..sessions {
        members.push(Member::idle(alloc, latches)?)?;
    }
    Ok(members)
}

impl Core {
    /// The machine with this many sessions and latches: all latches free, no steps made. Each
    /// session's list has room for each latch.
    pub fn new(alloc: Global, sessions: u32, latches: u32) -> Result<Core, OutOfMemory>
        requires sessions { (1 ≤ sessions) × (sessions ≤ MOST_SESSIONS) }
        requires latches { (1 ≤ latches) × (latches ≤ MOST_LATCHES) }
        ensures opens { IfOk result (λ core. core
            ≡ record { state = opening_state sessions latches; steps = 0 }) }
        ensures good { IfOk result (λ core. IsGoodState core.state) }
    {
        Ok(Core {
            members: idle_members(alloc, sessions, latches)?,
            words: vec![in alloc; LockWord::FREE; latches as usize]?,
            marks: vec![in alloc; Marks::FRESH; latches as usize]?,
            steps: 0,
        })
    }

    /// One event of a session, one atomic action of it: exactly what the table says, for every
    /// event in every phase. An event that does not belong to the session's phase, or is about
    /// another latch than it, is refused as out of turn; then a latch that is held in a mode that
    /// rules the wish out, or is not held, is; then the order of levels. A refused event changes
    /// nothing but the count of steps. It takes no memory, and its work is that of the session's
    /// own list.
    pub fn step(&mut self, session: u32, event: Event) -> Answer
        requires session { (1 ≤ session) × (session ≤ length self.old.state.sessions) }
        requires latch { latch_of event < length self.old.state.marks }
        requires steps { self.old.steps < MOST_STEPS }
        ensures event { record { answer = result; state = self.new.state }
            ≡ outcome_of self.old.state (session - 1) event }
        ensures steps { self.new.steps ≡ self.old.steps + 1 }
        ensures good { IsGoodState self.old.state × IsGoodState self.new.state }
        ensures sessions { length self.new.state.sessions ≡ length self.old.state.sessions }
        ensures latches { length self.new.state.marks ≡ length self.old.state.marks }
    {
        self.steps += 1;
        let member = &mut self.members[session as usize - 1];
        let word = &mut self.words[event.latch() as usize];
        let marks = &mut self.marks[event.latch() as usize];
        member.step(word, marks, event)
    }

    /// How often `step` was called, refused events among them.
    pub fn steps(&self) -> u32
        ensures { result ≡ self.now.steps }
    {
        self.steps
    }

    /// The lock word of a latch: the equation over all that its holders have.
    pub fn word(&self, latch: u32) -> LockWord
        requires { latch < length self.now.state.marks }
        ensures { result.0 ≡ word_on latch self.now.state.sessions }
    {
        self.words[latch as usize]
    }
}
