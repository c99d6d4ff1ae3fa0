//! The calls that only ask, as C sees them.

ghost use Rattle.std.specs.Prelude.{Err};
ghost use Rattle.ib_core.specs.declared.phase.Phase.TheVariants.{Free};
ghost use Rattle.ib_c.specs.declared.status.Status.TheVariants.{NoHandle};
ghost use Rattle.ib_c.specs.Sessions.{OnHandle};
ghost use Rattle.ib_c.specs.Statuses.{status_number};
ghost use Rattle.ib_c.specs.Readers.{HasAskedTake, HasCounted, HasLookedAt, HasToldHeld, HasToldPhase, told_counts, told_held, told_phase, told_word};

use crate::readers::{
    Counted, Held, InPhase, Looked, told_counts, told_held, told_phase, told_word,
};
use crate::session_handle::SessionSlot;
use crate::status::Status;
use ib_core::Phase;
use std::alloc::Global;

/// The lock word of a latch, by one look (`rw_lock_get_x_lock_count`).
#[unsafe(no_mangle)]
pub extern "C" fn ib_c_word(alloc: Global, slot: &mut SessionSlot, latch: u32) -> Looked
    ensures { OnHandle (told_word (Err NoHandle)) (HasLookedAt latch) slot.old.handle.held result
        slot.new.handle.held }
{
    let Some(mut session) = slot.take(alloc) else {
        return told_word(Err(Status::NoHandle));
    };
    let answer = session.word(latch);
    slot.put(session);
    answer
}

/// How many grants the session holds now (the length of an mtr's memo).
#[unsafe(no_mangle)]
pub extern "C" fn ib_c_held(alloc: Global, slot: &mut SessionSlot) -> Held
    ensures { OnHandle (told_held NoHandle 0) HasToldHeld slot.old.handle.held result
        slot.new.handle.held }
{
    let Some(mut session) = slot.take(alloc) else {
        return told_held(Status::NoHandle, 0);
    };
    let answer = session.held();
    slot.put(session);
    answer
}

/// How many grants of each mode the session holds on a latch (`mtr_memo_contains`).
#[unsafe(no_mangle)]
pub extern "C" fn ib_c_counts(alloc: Global, slot: &mut SessionSlot, latch: u32) -> Counted
    ensures { OnHandle (told_counts (Err NoHandle)) (HasCounted latch) slot.old.handle.held result
        slot.new.handle.held }
{
    let Some(mut session) = slot.take(alloc) else {
        return told_counts(Err(Status::NoHandle));
    };
    let answer = session.counts(latch);
    slot.put(session);
    answer
}

/// The phase of the session (`wait_ex_event` and `request_type` of a cell).
#[unsafe(no_mangle)]
pub extern "C" fn ib_c_phase(alloc: Global, slot: &mut SessionSlot) -> InPhase
    ensures { OnHandle (told_phase NoHandle Free) HasToldPhase slot.old.handle.held result
        slot.new.handle.held }
{
    let Some(mut session) = slot.take(alloc) else {
        return told_phase(Status::NoHandle, Phase::Free);
    };
    let answer = session.phase();
    slot.put(session);
    answer
}

/// Whether a grant of the mode may be wished for (`sync_check_lock`).
#[unsafe(no_mangle)]
pub extern "C" fn ib_c_may_take(
    alloc: Global,
    slot: &mut SessionSlot,
    latch: u32,
    mode: u32,
    level: u32,
) -> u32
    ensures { OnHandle (status_number NoHandle) (HasAskedTake latch mode level) slot.old.handle.held result
        slot.new.handle.held }
{
    let Some(mut session) = slot.take(alloc) else {
        return Status::NoHandle.number();
    };
    let answer = session.may_take(latch, mode, level);
    slot.put(session);
    answer
}
