//! The calls of a session that waits, as C sees them.

ghost use Rattle.std.specs.Prelude.{Err};
ghost use Rattle.ib_c.specs.declared.status.Status.TheVariants.{NoHandle};
ghost use Rattle.ib_c.specs.Sessions.{OnHandle};
ghost use Rattle.ib_c.specs.Statuses.{status_number};
ghost use Rattle.ib_c.specs.Tries.{told_only};
ghost use Rattle.ib_c.specs.Waits.{HasArmed, HasArmedNext, HasLooked, HasRechecked, HasStoodDown, HasVerified, told_generation};

use crate::session_handle::SessionSlot;
use crate::status::Status;
use crate::tries::Tried;
use crate::waits::{Generation, told_generation};
use std::alloc::Global;

/// Records the generation and the wish, and sets the waiters flag (`sync_array_reserve_cell`).
#[unsafe(no_mangle)]
pub extern "C" fn ib_c_arm(
    alloc: Global,
    slot: &mut SessionSlot,
    latch: u32,
    mode: u32,
    level: u32,
) -> Generation
    ensures { OnHandle (told_generation (Err NoHandle)) (HasArmed latch mode level) slot.old.handle.held result
        slot.new.handle.held }
{
    let Some(mut session) = slot.take(alloc) else {
        return told_generation(Err(Status::NoHandle));
    };
    let answer = session.arm(latch, mode, level);
    slot.put(session);
    answer
}

/// Tries once more for what the session wishes for (the second look of `rw_lock_s_lock_spin`).
#[unsafe(no_mangle)]
pub extern "C" fn ib_c_recheck(alloc: Global, slot: &mut SessionSlot, latch: u32) -> Tried
    ensures { OnHandle (told_only NoHandle) (HasRechecked latch) slot.old.handle.held result
        slot.new.handle.held }
{
    let Some(mut session) = slot.take(alloc) else {
        return Tried::only(Status::NoHandle);
    };
    let answer = session.recheck(latch);
    slot.put(session);
    answer
}

/// Gives the wish up (`sync_array_free_cell`).
#[unsafe(no_mangle)]
pub extern "C" fn ib_c_stand_down(alloc: Global, slot: &mut SessionSlot, latch: u32) -> u32
    ensures { OnHandle (status_number NoHandle) (HasStoodDown latch) slot.old.handle.held result
        slot.new.handle.held }
{
    let Some(mut session) = slot.take(alloc) else {
        return Status::NoHandle.number();
    };
    let answer = session.stand_down(latch);
    slot.put(session);
    answer
}

/// Records the ex generation, for a next writer (`sync_array_reserve_cell` for `RW_LOCK_X_WAIT`).
#[unsafe(no_mangle)]
pub extern "C" fn ib_c_arm_next(alloc: Global, slot: &mut SessionSlot, latch: u32) -> Generation
    ensures { OnHandle (told_generation (Err NoHandle)) (HasArmedNext latch) slot.old.handle.held result
        slot.new.handle.held }
{
    let Some(mut session) = slot.take(alloc) else {
        return told_generation(Err(Status::NoHandle));
    };
    let answer = session.arm_next(latch);
    slot.put(session);
    answer
}

/// Whether an armed next writer owns X (`rw_lock_x_lock_wait`).
#[unsafe(no_mangle)]
pub extern "C" fn ib_c_verify(alloc: Global, slot: &mut SessionSlot, latch: u32) -> Tried
    ensures { OnHandle (told_only NoHandle) (HasVerified latch) slot.old.handle.held result
        slot.new.handle.held }
{
    let Some(mut session) = slot.take(alloc) else {
        return Tried::only(Status::NoHandle);
    };
    let answer = session.verify(latch);
    slot.put(session);
    answer
}

/// Whether the generation stands that the session recorded (`os_event_wait_low`).
#[unsafe(no_mangle)]
pub extern "C" fn ib_c_look(alloc: Global, slot: &mut SessionSlot, latch: u32) -> Generation
    ensures { OnHandle (told_generation (Err NoHandle)) (HasLooked latch) slot.old.handle.held result
        slot.new.handle.held }
{
    let Some(mut session) = slot.take(alloc) else {
        return told_generation(Err(Status::NoHandle));
    };
    let answer = session.look(latch);
    slot.put(session);
    answer
}
