//! What a caller asks of a pass before a call, who does not prove that the call's conditions hold.

ghost use Rattle.std.specs.Prelude.{◌≡◌, ◌↔◌, ◌+◌, ◌*◌, ◌^◌, true, IsTrue};
ghost use Rattle.ib_core.specs.Sessions.{idle};
ghost use Rattle.ib_rule.specs.declared.readers.TheConstants.{CALL_GRANTS, CHUNK_GRANTS};
ghost use Rattle.ib_rule.specs.Conditions.{HasGrantsLeft, MayClaim};
ghost use Rattle.ib_rule.specs.Views.{is_watched, total};

use crate::looks::Grants;
use crate::pass::{MOST_GRANTS, Pass};
use ib_levels::{Latch, Level};

/// How many grants a lookup or a change of an index may take at most, as its condition has it.
pub const CALL_GRANTS: u64 = 16_384;

const _: () = prove!(CALL_GRANTS == 16_384);

/// How many grants a scan may take at most for each chunk place that it is given, and for one more.
pub const CHUNK_GRANTS: u64 = 8_192;

const _: () = prove!(CHUNK_GRANTS == 8_192);

impl Pass {
    /// Whether a call on an index of its space may be made with it: it holds nothing and is in the
    /// middle of nothing, its scratch is in it, and it may take `CALL_GRANTS` more grants.
    pub fn may_call(&self) -> bool
        ensures { IsTrue result ↔ ((self.now.view.session ≡ idle)
            × (self.now.has_scratch ≡ true)
            × (HasGrantsLeft CALL_GRANTS self.now.view)) }
    {
        self.is_idle() && self.has_scratch() && self.grants_left() >= CALL_GRANTS
    }

    /// The same for a scan that is given so many chunk places.
    pub fn may_scan(&self, chunks: usize) -> bool
        ensures { IsTrue result ↔ ((self.now.view.session ≡ idle)
            × (self.now.has_scratch ≡ true)
            × (HasGrantsLeft (CHUNK_GRANTS * chunks + CHUNK_GRANTS) self.now.view)) }
    {
        self.is_idle() && self.has_scratch() && (chunks as u64) < self.grants_left() / CHUNK_GRANTS
    }

    /// Whether it may wish for SX or X on the latch at the level: it does not read it, and where it
    /// has nothing of it, it may take it (`can_wish`).
    pub fn may_claim(&self, latch: Latch, level: Level) -> bool
        ensures { IsTrue result ↔ MayClaim latch.0 level self.now.view.session }
    {
        let Grants { s, sx, x } = self.counts(latch);
        s == 0 && (sx > 0 || x > 0 || self.can_wish(latch, level))
    }

    /// Whether a look at the log's end was made while it held the latch, as a page's word or an append
    /// asks for it. It may answer no where there was one: it answers yes for each latch that is held,
    /// where the session took no grant since its last look (`load_end`).
    pub fn is_watched(&self, latch: Latch) -> bool
        ensures { IsTrue result → is_watched latch.0 self.now.view.memory.since ≡ true }
    {
        let Grants { s, sx, x } = self.grants;
        self.looked_after == s + sx + x && self.member.holds(latch)
    }

    // How many grants it may take still.
    fn grants_left(&self) -> u64
        ensures { result + total self.now.view.grants ≡ 2 ^ 52 }
    {
        let Grants { s, sx, x } = self.grants;
        MOST_GRANTS - (s + sx + x)
    }
}
