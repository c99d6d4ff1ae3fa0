//! The calls on the tree, as C sees them.

ghost use Rattle.std.specs.Prelude.{Err};
ghost use Rattle.ib_c.specs.declared.status.Status.TheVariants.{NoHandle};
ghost use Rattle.ib_c.specs.Answers.{told_answer};
ghost use Rattle.ib_c.specs.Calls.{HasDeleted, HasInserted, HasLookedUp};
ghost use Rattle.ib_c.specs.Scans.{HasScanned, filled, unfilled};
ghost use Rattle.ib_c.specs.Sessions.{OnHandle};

use crate::answers::{Answered, told_answer};
use crate::scanned::Scanned;
use crate::session_handle::SessionSlot;
use crate::status::Status;
use std::alloc::Global;

/// Looks a key up without waiting (`row_search_mvcc`).
#[unsafe(no_mangle)]
pub extern "C" fn ib_c_get_nowait(alloc: Global, slot: &mut SessionSlot, key: &[u8]) -> Answered
    ensures { OnHandle (told_answer (Err NoHandle)) (HasLookedUp key.now) slot.old.handle.held result
        slot.new.handle.held }
{
    let Some(mut session) = slot.take(alloc) else {
        return told_answer(Err(Status::NoHandle));
    };
    let answer = session.get_nowait(key);
    slot.put(session);
    answer
}

/// Puts a pair in without waiting (`row_ins_clust_index_entry`).
#[unsafe(no_mangle)]
pub extern "C" fn ib_c_insert_nowait(
    alloc: Global,
    slot: &mut SessionSlot,
    key: &[u8],
    value: u64,
) -> Answered
    ensures { OnHandle (told_answer (Err NoHandle)) (HasInserted key.now value) slot.old.handle.held result
        slot.new.handle.held }
{
    let Some(mut session) = slot.take(alloc) else {
        return told_answer(Err(Status::NoHandle));
    };
    let answer = session.insert_nowait(key, value);
    slot.put(session);
    answer
}

/// Takes a key out without waiting (`row_upd_clust_step` with the record's delete mark, and the purge after it).
#[unsafe(no_mangle)]
pub extern "C" fn ib_c_delete_nowait(alloc: Global, slot: &mut SessionSlot, key: &[u8]) -> Answered
    ensures { OnHandle (told_answer (Err NoHandle)) (HasDeleted key.now) slot.old.handle.held result
        slot.new.handle.held }
{
    let Some(mut session) = slot.take(alloc) else {
        return told_answer(Err(Status::NoHandle));
    };
    let answer = session.delete_nowait(key);
    slot.put(session);
    answer
}

/// Scans from one key to another without waiting, and writes the chunks, six words each, to the front of `chunks`: the two
/// words of the key that it begins at, of the key that it ends at, its place, and how many pairs it has; and their pairs,
/// three words each, to the front of `pairs` (`row_search_mvcc` of a range).
#[unsafe(no_mangle)]
pub extern "C" fn ib_c_scan_nowait(
    alloc: Global,
    slot: &mut SessionSlot,
    low: &[u8],
    high: &[u8],
    chunks: &mut [u64],
    pairs: &mut [u64],
) -> Scanned
    ensures { OnHandle (unfilled NoHandle chunks.old pairs.old)
        (HasScanned low.now high.now chunks.old pairs.old) slot.old.handle.held
        (filled result chunks.new pairs.new) slot.new.handle.held }
{
    let Some(mut session) = slot.take(alloc) else {
        return Scanned::only(Status::NoHandle);
    };
    let answer = session.scan_nowait(alloc, low, high, chunks, pairs);
    slot.put(session);
    answer
}
