//! A session as C holds it: its pass, and its share of what sessions share.

ghost use Rattle.std.specs.Prelude.{◌≡◌, ◌↔◌, IsTrue};
ghost use Rattle.std.specs.Arc.{arc_value};
ghost use Rattle.ib_rule.specs.Pass.{IsAtRest};
ghost use Rattle.ib_c.specs.Calls.{HasDeleted, HasInserted, HasLookedUp};
ghost use Rattle.ib_c.specs.Scans.{HasScanned, filled};
ghost use Rattle.ib_c.specs.Sessions.{OnPass};
ghost use Rattle.ib_c.specs.Tries.{HasLookedReady, HasReservedX, HasTriedS, HasTriedSx, HasTriedX};
ghost use Rattle.ib_c.specs.Unlocks.{HasReleasedS, HasReleasedSx, HasReleasedX};
ghost use Rattle.ib_c.specs.Readers.{HasAskedTake, HasCounted, HasLookedAt, HasToldHeld, HasToldPhase};
ghost use Rattle.ib_c.specs.Waits.{HasArmed, HasArmedNext, HasLooked, HasRechecked, HasStoodDown, HasVerified};

use crate::answers::Answered;
use crate::readers::{self, Counted, Held, InPhase, Looked};
use crate::scanned::Scanned;
use crate::table::Table;
use crate::tries::{self, Tried};
use crate::unlocks::{self, Released};
use crate::waits::{self, Generation};
use crate::{calls, scans};
use ib_rule::Pass;
use std::alloc::Global;
use std::marker::Model;
use std::mem::ManuallyDrop;
use std::sync::Arc;

/// The pass of a session, which is of the table that it shares.
pub(crate) struct Session {
    pub(crate) table: Arc<Table, Global>,
    pub(crate) pass: Pass,
}

impl Model for Session {
    ghost use Rattle.std.specs.Arc.{arc_value};
    ghost use Rattle.ib_rule.specs.Pass.{IsOf};
    ghost use Rattle.ib_c.specs.SessionState.{SessionState};

    ghost Value = { SessionState };

    ghost view = { λ s. record { space = arc_value s.table; pass = s.pass } };

    ghost invariant = { λ s. IsOf (arc_value s.table) s.pass };
}

// No call lets one go: it is what `Box::into_raw` asks of a box's type. The memory of one that is let go stays taken.
impl Drop for Session {
    fn drop(self) {
        let Session { table, pass } = self;
        let _ = unsafe { ManuallyDrop::new_unchecked(table) };
        let _ = unsafe { ManuallyDrop::new_unchecked(pass) };
    }
}

impl Session {
    /// Its share of what sessions share, and its pass.
    pub(crate) fn into_parts(self) -> (Arc<Table, Global>, Pass)
        ensures { (arc_value result.0 ≡ self.space) × (result.1 ≡ self.pass) }
    {
        let Session { table, pass } = self;
        (table, pass)
    }

    /// Whether it holds nothing and is in the middle of nothing.
    pub(crate) fn is_at_rest(&self) -> bool
        ensures { IsTrue result ↔ IsAtRest self.now.space self.now.pass }
    {
        self.pass.is_idle() && self.pass.has_scratch()
    }

    /// Takes S without waiting.
    pub(crate) fn try_s(&mut self, latch: u32, level: u32) -> Tried
        ensures { OnPass (HasTriedS latch level) self.old result self.new }
    {
        tries::try_s(&self.table, &mut self.pass, latch, level)
    }

    /// Takes SX without waiting.
    pub(crate) fn try_sx(&mut self, latch: u32, level: u32) -> Tried
        ensures { OnPass (HasTriedSx latch level) self.old result self.new }
    {
        tries::try_sx(&self.table, &mut self.pass, latch, level)
    }

    /// Takes X without waiting.
    pub(crate) fn try_x(&mut self, latch: u32, level: u32) -> Tried
        ensures { OnPass (HasTriedX latch level) self.old result self.new }
    {
        tries::try_x(&self.table, &mut self.pass, latch, level)
    }

    /// Takes X, or reserves it while readers remain.
    pub(crate) fn reserve_x(&mut self, latch: u32, level: u32) -> Tried
        ensures { OnPass (HasReservedX latch level) self.old result self.new }
    {
        tries::reserve_x(&self.table, &mut self.pass, latch, level)
    }

    /// Whether the next writer owns X by now.
    pub(crate) fn ready_x(&mut self, latch: u32) -> Tried
        ensures { OnPass (HasLookedReady latch) self.old result self.new }
    {
        tries::ready_x(&self.table, &mut self.pass, latch)
    }

    /// Gives S back.
    pub(crate) fn unlock_s(&mut self, latch: u32) -> Released
        ensures { OnPass (HasReleasedS latch) self.old result self.new }
    {
        unlocks::unlock_s(&self.table, &mut self.pass, latch)
    }

    /// Gives one SX back.
    pub(crate) fn unlock_sx(&mut self, latch: u32) -> Released
        ensures { OnPass (HasReleasedSx latch) self.old result self.new }
    {
        unlocks::unlock_sx(&self.table, &mut self.pass, latch)
    }

    /// Gives one X back.
    pub(crate) fn unlock_x(&mut self, latch: u32) -> Released
        ensures { OnPass (HasReleasedX latch) self.old result self.new }
    {
        unlocks::unlock_x(&self.table, &mut self.pass, latch)
    }
}

impl Session {
    /// Records the generation and the wish, and sets the waiters flag.
    pub(crate) fn arm(&mut self, latch: u32, mode: u32, level: u32) -> Generation
        ensures { OnPass (HasArmed latch mode level) self.old result self.new }
    {
        waits::arm(&self.table, &mut self.pass, latch, mode, level)
    }

    /// Tries once more for what the session wishes for.
    pub(crate) fn recheck(&mut self, latch: u32) -> Tried
        ensures { OnPass (HasRechecked latch) self.old result self.new }
    {
        waits::recheck(&self.table, &mut self.pass, latch)
    }

    /// Gives the wish up.
    pub(crate) fn stand_down(&mut self, latch: u32) -> u32
        ensures { OnPass (HasStoodDown latch) self.old result self.new }
    {
        waits::stand_down(&self.table, &mut self.pass, latch)
    }

    /// Records the ex generation, for a next writer.
    pub(crate) fn arm_next(&mut self, latch: u32) -> Generation
        ensures { OnPass (HasArmedNext latch) self.old result self.new }
    {
        waits::arm_next(&self.table, &mut self.pass, latch)
    }

    /// Whether an armed next writer owns X.
    pub(crate) fn verify(&mut self, latch: u32) -> Tried
        ensures { OnPass (HasVerified latch) self.old result self.new }
    {
        waits::verify(&self.table, &mut self.pass, latch)
    }

    /// Whether the generation stands that the session recorded.
    pub(crate) fn look(&mut self, latch: u32) -> Generation
        ensures { OnPass (HasLooked latch) self.old result self.new }
    {
        waits::look(&self.table, &mut self.pass, latch)
    }
}

impl Session {
    /// The lock word of a latch, by one look.
    pub(crate) fn word(&mut self, latch: u32) -> Looked
        ensures { OnPass (HasLookedAt latch) self.old result self.new }
    {
        readers::word(&self.table, &mut self.pass, latch)
    }

    /// How many grants the session holds now.
    pub(crate) fn held(&mut self) -> Held
        ensures { OnPass HasToldHeld self.old result self.new }
    {
        readers::grants_held(&self.pass)
    }

    /// How many grants of each mode the session holds on a latch.
    pub(crate) fn counts(&mut self, latch: u32) -> Counted
        ensures { OnPass (HasCounted latch) self.old result self.new }
    {
        readers::counts(&self.table, &self.pass, latch)
    }

    /// The phase of the session.
    pub(crate) fn phase(&mut self) -> InPhase
        ensures { OnPass HasToldPhase self.old result self.new }
    {
        readers::phase(&self.pass)
    }

    /// Whether a grant of the mode may be wished for.
    pub(crate) fn may_take(&mut self, latch: u32, mode: u32, level: u32) -> u32
        ensures { OnPass (HasAskedTake latch mode level) self.old result self.new }
    {
        readers::asked_take(&self.table, &self.pass, latch, mode, level)
    }
}

impl Session {
    /// Looks a key up without waiting.
    pub(crate) fn get_nowait(&mut self, key: &[u8]) -> Answered
        ensures { OnPass (HasLookedUp key.now) self.old result self.new }
    {
        calls::get_nowait(&self.table, &mut self.pass, key)
    }

    /// Puts a pair in without waiting.
    pub(crate) fn insert_nowait(&mut self, key: &[u8], value: u64) -> Answered
        ensures { OnPass (HasInserted key.now value) self.old result self.new }
    {
        calls::insert_nowait(&self.table, &mut self.pass, key, value)
    }

    /// Takes a key out without waiting.
    pub(crate) fn delete_nowait(&mut self, key: &[u8]) -> Answered
        ensures { OnPass (HasDeleted key.now) self.old result self.new }
    {
        calls::delete_nowait(&self.table, &mut self.pass, key)
    }

    /// Scans from one key to another without waiting.
    pub(crate) fn scan_nowait(
        &mut self,
        alloc: Global,
        low: &[u8],
        high: &[u8],
        chunks: &mut [u64],
        pairs: &mut [u64],
    ) -> Scanned
        ensures { OnPass (HasScanned low.now high.now chunks.old pairs.old) self.old
            (filled result chunks.new pairs.new) self.new }
    {
        scans::scan_nowait(alloc, &self.table, &mut self.pass, low, high, chunks, pairs)
    }
}
