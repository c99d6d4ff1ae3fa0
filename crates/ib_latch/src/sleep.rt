//! How sessions sleep and wake.

ghost use Rattle.std.specs.Prelude.{◌≡◌};

use ib_rule::OutOfMemory;
use std::alloc::Global;

/// A generation was raised, and nobody is woken yet. It is not dropped, and outside this file nothing but
/// its `wake` takes it: a release that has one and wakes nobody does not compile.
pub(crate) struct Raised {
    latch: u32,
}

impl Raised {
    // The generation of this latch was raised, or its ex generation.
    pub(crate) fn on(latch: u32) -> Raised
        ensures { result.latch ≡ latch }
    {
        Raised { latch }
    }

    // Wakes whoever sleeps on it.
    pub(crate) fn wake<S: Sleep>(self, sleep: &S) {
        let Raised { latch } = self;
        sleep.wake(latch);
    }
}

/// How sessions that wait for a latch sleep, and how others wake them.
pub trait Sleep: Drop {
    ghost use Rattle.std.specs.Prelude.{◌≡◌, ℕ, ◌+◌, ◌≤◌, Bool, true, OnOk, OnErr, IfOk};

    /// Whether the session with this number may sleep and be woken.
    ghost admits: { Self → ℕ → Bool };

    /// For no session yet. Refused where memory lacks.
    fn new(alloc: Global) -> Result<Self, OutOfMemory>;

    /// Makes ready for the session with this number: it may sleep then, and so may whoever could before.
    /// Refused where memory lacks.
    fn admit(&mut self, number: u32) -> Result<(), OutOfMemory>
        ensures admitted { OnOk result (admits self.new number ≡ true) }
        ensures kept { (n : ℕ) → admits self.old n ≡ true → admits self.new n ≡ true };

    /// Wakes whoever sleeps on a generation of the latch of this number: one was raised. It is called after each raise.
    fn wake(&self, latch: u32);
}

/// Nobody sleeps: who waits tries again.
#[derive(Clone, Copy)]
pub struct NoSleep;

impl Sleep for NoSleep {
    ghost use Rattle.std.specs.Prelude.{true};

    ghost admits = { λ _ _. true };

    fn new(_alloc: Global) -> Result<NoSleep, OutOfMemory> {
        Ok(NoSleep)
    }

    fn admit(&mut self, _number: u32) -> Result<(), OutOfMemory> {
        Ok(())
    }

    fn wake(&self, _latch: u32) {}
}
