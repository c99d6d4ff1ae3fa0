//! The calls on spaces, as C sees them.

ghost use Rattle.ib_c.specs.SpaceCalls.{HasClosedHandle, HasConnectedHandle, HasDisconnectedHandle, HasFreedHandle, HasOpenedHandle, IsGenuine};

use crate::session_handle::SessionSlot;
use crate::space::{Opened, Space};
use crate::space_handle::SpaceSlot;
use crate::status::Status;
use std::alloc::{AllocFailed, Global};

/// Opens a space with so many pages, log words and sessions.
#[unsafe(no_mangle)]
#[tactic(auto, using(crate::proofs::SpaceLaws::open_in_use, crate::proofs::SpaceLaws::open_not, crate::proofs::SpaceLaws::open_done))]
pub extern "C" fn ib_c_open(
    alloc: Global,
    slot: &mut SpaceSlot,
    pages: u32,
    log_words: u32,
    sessions: u32,
) -> u32
    ensures { HasOpenedHandle pages log_words sessions slot.old.handle.held result
        slot.new.handle.held }
{
    if slot.is_live() {
        return Status::InUse.number();
    }
    match Opened::open(alloc, pages, log_words, sessions) {
        Err(status) => status.number(),
        Ok(opened) => match Box::new(alloc, Space::Open(opened)) {
            Err(AllocFailed { value }) => {
                value.give_up();
                Status::OutOfMemory.number()
            }
            Ok(space) => {
                slot.put(space);
                Status::Done.number()
            }
        },
    }
}

/// Takes a session of the space.
#[unsafe(no_mangle)]
#[tactic(auto, using(crate::proofs::SpaceLaws::connect_in_use, crate::proofs::SpaceLaws::connect_nowhere, crate::proofs::SpaceLaws::connect_not, crate::proofs::SpaceLaws::connect_done))]
pub extern "C" fn ib_c_connect(
    alloc: Global,
    slot: &mut SpaceSlot,
    session: &mut SessionSlot,
) -> u32
    ensures { HasConnectedHandle slot.old.handle.held session.old.handle.held result
        slot.new.handle.held session.new.handle.held }
{
    if session.is_live() {
        return Status::InUse.number();
    }
    let Some(mut space) = slot.take(alloc) else {
        return Status::NoHandle.number();
    };
    match space.connect(alloc) {
        Err(status) => {
            slot.put(space);
            status.number()
        }
        Ok(connected) => {
            session.put(connected);
            slot.put(space);
            Status::Done.number()
        }
    }
}

/// Gives a session of the space back.
#[unsafe(no_mangle)]
#[tactic(auto, using(crate::proofs::SpaceLaws::disconnect_nowhere, crate::proofs::SpaceLaws::disconnect_nobody, crate::proofs::SpaceLaws::disconnect_done, crate::proofs::SpaceLaws::disconnect_not, crate::proofs::SpaceLaws::genuine_from))]
pub extern "C" fn ib_c_disconnect(
    alloc: Global,
    slot: &mut SpaceSlot,
    session: &mut SessionSlot,
) -> u32
    // The session is one of this space.
    requires genuine { IsGenuine slot.old.handle.held session.old.handle.held }
    ensures { HasDisconnectedHandle slot.old.handle.held session.old.handle.held result
        slot.new.handle.held session.new.handle.held }
{
    let Some(mut space) = slot.take(alloc) else {
        return Status::NoHandle.number();
    };
    let Some(connected) = session.take(alloc) else {
        slot.put(space);
        return Status::NoHandle.number();
    };
    match space.disconnect(connected) {
        Ok(()) => {
            slot.put(space);
            Status::Done.number()
        }
        Err((connected, status)) => {
            session.put(connected);
            slot.put(space);
            status.number()
        }
    }
}

/// Closes the space, where no session is connected.
#[unsafe(no_mangle)]
#[tactic(auto, using(crate::proofs::SpaceLaws::close_nowhere, crate::proofs::SpaceLaws::close_done))]
pub extern "C" fn ib_c_close(alloc: Global, slot: &mut SpaceSlot) -> u32
    ensures { HasClosedHandle slot.old.handle.held result slot.new.handle.held }
{
    let Some(mut space) = slot.take(alloc) else {
        return Status::NoHandle.number();
    };
    let status = space.close();
    slot.put(space);
    status.number()
}

/// Frees a space that is closed.
#[unsafe(no_mangle)]
#[tactic(auto, using(crate::proofs::SpaceLaws::free_nowhere, crate::proofs::SpaceLaws::free_open, crate::proofs::SpaceLaws::free_done))]
pub extern "C" fn ib_c_free(alloc: Global, slot: &mut SpaceSlot) -> u32
    ensures { HasFreedHandle slot.old.handle.held result slot.new.handle.held }
{
    let Some(space) = slot.take(alloc) else {
        return Status::NoHandle.number();
    };
    if space.is_open() {
        slot.put(space);
        return Status::WrongState.number();
    }
    drop(space);
    Status::Done.number()
}
