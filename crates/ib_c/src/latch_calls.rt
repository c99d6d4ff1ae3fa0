//! The calls on latches, as C sees them.

ghost use Rattle.std.specs.Prelude.{Err};
ghost use Rattle.ib_c.specs.declared.status.Status.TheVariants.{NoHandle};
ghost use Rattle.ib_c.specs.Sessions.{OnHandle};
ghost use Rattle.ib_c.specs.Tries.{HasLookedReady, HasReservedX, HasTriedS, HasTriedSx, HasTriedX, told_only};
ghost use Rattle.ib_c.specs.Unlocks.{HasReleasedS, HasReleasedSx, HasReleasedX, told_raise};

use crate::session_handle::SessionSlot;
use crate::status::Status;
use crate::tries::Tried;
use crate::unlocks::{Released, told_raise};
use std::alloc::Global;

/// Takes S without waiting (`rw_lock_s_lock_nowait`).
#[unsafe(no_mangle)]
pub extern "C" fn ib_c_try_s(alloc: Global, slot: &mut SessionSlot, latch: u32, level: u32) -> Tried
    ensures { OnHandle (told_only NoHandle) (HasTriedS latch level) slot.old.handle.held result
        slot.new.handle.held }
{
    let Some(mut session) = slot.take(alloc) else {
        return Tried::only(Status::NoHandle);
    };
    let answer = session.try_s(latch, level);
    slot.put(session);
    answer
}

/// Takes SX without waiting (`rw_lock_sx_lock_nowait`).
#[unsafe(no_mangle)]
pub extern "C" fn ib_c_try_sx(
    alloc: Global,
    slot: &mut SessionSlot,
    latch: u32,
    level: u32,
) -> Tried
    ensures { OnHandle (told_only NoHandle) (HasTriedSx latch level) slot.old.handle.held result
        slot.new.handle.held }
{
    let Some(mut session) = slot.take(alloc) else {
        return Tried::only(Status::NoHandle);
    };
    let answer = session.try_sx(latch, level);
    slot.put(session);
    answer
}

/// Takes X without waiting (`rw_lock_x_lock_func_nowait`).
#[unsafe(no_mangle)]
pub extern "C" fn ib_c_try_x(alloc: Global, slot: &mut SessionSlot, latch: u32, level: u32) -> Tried
    ensures { OnHandle (told_only NoHandle) (HasTriedX latch level) slot.old.handle.held result
        slot.new.handle.held }
{
    let Some(mut session) = slot.take(alloc) else {
        return Tried::only(Status::NoHandle);
    };
    let answer = session.try_x(latch, level);
    slot.put(session);
    answer
}

/// Takes X, or reserves it while readers remain (`rw_lock_x_lock_low`).
#[unsafe(no_mangle)]
pub extern "C" fn ib_c_reserve_x(
    alloc: Global,
    slot: &mut SessionSlot,
    latch: u32,
    level: u32,
) -> Tried
    ensures { OnHandle (told_only NoHandle) (HasReservedX latch level) slot.old.handle.held result
        slot.new.handle.held }
{
    let Some(mut session) = slot.take(alloc) else {
        return Tried::only(Status::NoHandle);
    };
    let answer = session.reserve_x(latch, level);
    slot.put(session);
    answer
}

/// Whether the next writer owns X by now (`rw_lock_x_lock_wait`).
#[unsafe(no_mangle)]
pub extern "C" fn ib_c_ready_x(alloc: Global, slot: &mut SessionSlot, latch: u32) -> Tried
    ensures { OnHandle (told_only NoHandle) (HasLookedReady latch) slot.old.handle.held result
        slot.new.handle.held }
{
    let Some(mut session) = slot.take(alloc) else {
        return Tried::only(Status::NoHandle);
    };
    let answer = session.ready_x(latch);
    slot.put(session);
    answer
}

/// Gives S back (`rw_lock_s_unlock`).
#[unsafe(no_mangle)]
pub extern "C" fn ib_c_unlock_s(alloc: Global, slot: &mut SessionSlot, latch: u32) -> Released
    ensures { OnHandle (told_raise (Err NoHandle)) (HasReleasedS latch) slot.old.handle.held result
        slot.new.handle.held }
{
    let Some(mut session) = slot.take(alloc) else {
        return told_raise(Err(Status::NoHandle));
    };
    let answer = session.unlock_s(latch);
    slot.put(session);
    answer
}

/// Gives one SX back (`rw_lock_sx_unlock`).
#[unsafe(no_mangle)]
pub extern "C" fn ib_c_unlock_sx(alloc: Global, slot: &mut SessionSlot, latch: u32) -> Released
    ensures { OnHandle (told_raise (Err NoHandle)) (HasReleasedSx latch) slot.old.handle.held result
        slot.new.handle.held }
{
    let Some(mut session) = slot.take(alloc) else {
        return told_raise(Err(Status::NoHandle));
    };
    let answer = session.unlock_sx(latch);
    slot.put(session);
    answer
}

/// Gives one X back (`rw_lock_x_unlock`).
#[unsafe(no_mangle)]
pub extern "C" fn ib_c_unlock_x(alloc: Global, slot: &mut SessionSlot, latch: u32) -> Released
    ensures { OnHandle (told_raise (Err NoHandle)) (HasReleasedX latch) slot.old.handle.held result
        slot.new.handle.held }
{
    let Some(mut session) = slot.take(alloc) else {
        return told_raise(Err(Status::NoHandle));
    };
    let answer = session.unlock_x(latch);
    slot.put(session);
    answer
}
