//! The parkers on which sessions sleep, one for each.

ghost use Rattle.std.specs.Prelude.{◌≡◌, ◌↔◌, ◌+◌, ◌<◌, ◌≤◌, IsTrue, OnErr, OnOk};

use ib_map::OutOfMemory;
use std::alloc::Global;
use std::marker::Model;
use std::sync::Wait;
use std::thread::Parker;

/// The parkers of sessions, by number from 1 on. Contracts see how many there are.
#[derive(Drop)]
pub struct Sleepers {
    parkers: Vec<Parker>,
}

impl Model for Sleepers {
    ghost use Rattle.std.specs.Prelude.{ℕ, vec_len};

    ghost Value = { ℕ };

    ghost view = { λ s. vec_len s.parkers };
}

impl Sleepers {
    /// No parker yet.
    pub fn new(alloc: Global) -> Sleepers
        ensures { result ≡ 0 }
    {
        Sleepers {
            parkers: Vec::new(alloc),
        }
    }

    /// How many parkers there are: the sessions up to this number have one.
    pub fn len(&self) -> usize
        ensures { result ≡ self.now }
    {
        self.parkers.len()
    }

    /// Whether there is no parker.
    pub fn is_empty(&self) -> bool
        ensures { IsTrue result ↔ (self.now ≡ 0) }
    {
        self.parkers.is_empty()
    }

    /// One more parker, for the next session number. Where memory lacks, there is none more.
    pub fn add(&mut self) -> Result<(), OutOfMemory>
        ensures ok { OnOk result (self.new ≡ self.old + 1) }
        ensures err { OnErr result (self.new ≡ self.old) }
    {
        self.parkers.push(Parker::new())?;
        Ok(())
    }

    /// The session sleeps until it is woken, or not at all where it was since it last slept.
    pub fn sleep<R: Wait>(&self, rt: &R, session: u32)
        requires { (1 ≤ session) × (session ≤ self.now) }
    {
        self.parkers[session as usize - 1].park(rt);
    }

    /// Wakes every session.
    pub fn wake_all(&self) {
        for parker in &self.parkers {
            parker.unpark();
        }
    }
}
