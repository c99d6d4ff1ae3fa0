//! A session at work: what it holds and its phase. Its events are its methods.

ghost use Rattle.std.specs.Prelude.{◌≡◌, ◌+◌, ◌<◌, ◌≤◌};
ghost use Rattle.ib_levels.specs.Listed.{answer_to};
ghost use Rattle.ib_levels.specs.Holding.{is_held, levels_of};
ghost use Rattle.ib_core.specs.Actor.{session_of};
ghost use Rattle.ib_core.specs.HeldAt.{IsHeldAt};
ghost use Rattle.ib_core.specs.Rows.{AreGrants};
ghost use Rattle.ib_core.specs.Sessions.{holdings};

use crate::holdings::{Counts, Found, found_on, grants_on};
use crate::phase::Phase;
use ib_levels::{Against, Holding, Latch, Level, holds, may_add};

// What a session holds, in a list with room for each latch, and its phase.
#[derive(Drop)]
pub(crate) struct Actor {
    pub(crate) held: Vec<Holding>,
    pub(crate) phase: Phase,
}

impl Actor {
    // Whether the session holds the latch.
    pub(crate) fn holds(&self, latch: Latch) -> bool
        ensures { result ≡ is_held latch.0 self.now.held.items }
    {
        holds(self.held.as_slice(), latch)
    }

    // Its grants on the latch.
    pub(crate) fn grants(&self, latch: Latch) -> Counts
        requires { holdings latch.0 (session_of self.now) ≤ 1 }
        ensures { AreGrants latch.0 (session_of self.now) result }
    {
        grants_on(self.held.as_slice(), latch)
    }

    // Its grants on the latch, and the place of their holding.
    #[inline(always)]
    pub(crate) fn found(&self, latch: Latch) -> Found
        requires { holdings latch.0 (session_of self.now) ≤ 1 }
        ensures counts { AreGrants latch.0 (session_of self.now)
            (record { s = result.s; sx = result.sx; x = result.x }) }
        ensures index { 0 < result.s + result.sx + result.x
            → IsHeldAt latch.0 result.at self.now.held.items }
    {
        found_on(self.held.as_slice(), latch)
    }

    // Whether the order of levels allows it the latch at the level.
    pub(crate) fn may_take(&self, latch: Latch, level: Level) -> Result<(), Against>
        ensures { result
            ≡ answer_to (is_held latch.0 self.now.held.items) level
            (levels_of self.now.held.items) }
    {
        may_add(self.held.as_slice(), latch, level)
    }
}
