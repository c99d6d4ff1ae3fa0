//! The log's words of a closed space, copied for C.

ghost use Rattle.std.specs.Prelude.{◌≡◌, ℕ, ◌+◌, ◌<◌, ◌≤◌, length, slice_index};
ghost use Rattle.ib_rule.specs.Closed.{log_in};
ghost use Rattle.ib_c.specs.LogWords.{HasCopied, HasCopiedHandle, IsCopied, told_copy};

use crate::space::Space;
use crate::space_handle::SpaceSlot;
use crate::status::Status;
use ib_rule::SpaceWords;
use std::alloc::Global;

/// What a copy came to: its status, and how many words the log or a page has, 0 where that is not known.
#[repr(C)]
#[derive(Clone, Copy, PartialEq, Eq, Debug)]
pub struct Copied {
    pub status: u32,
    pub used: u32,
}

// A status, and how many words the log or a page has, in C's words.
pub(crate) fn told_copy(status: Status, used: u32) -> Copied
    ensures { result ≡ told_copy status used }
{
    Copied {
        status: status.number(),
        used,
    }
}

// As many words of the log as `out` has room for, from `first` on, where there are so many.
fn copy_part(words: &SpaceWords, first: u32, out: &mut [u64]) -> Status
    ensures { IsCopied (log_in words.now.sizes words.now.words) first out.old result out.new }
{
    let used = words.used();
    if first > used || out.len() > (used - first) as usize {
        return Status::BadRange;
    }
    copy(words, first, out);
    Status::Done
}

// Those words, where there are so many.
fn copy(words: &SpaceWords, first: u32, out: &mut [u64])
    requires { first + length out.old ≤ length (log_in words.now.sizes words.now.words) }
    ensures { (k : ℕ) → k < length out.old
        → slice_index out.new k ≡ slice_index (log_in words.now.sizes words.now.words) (first + k) }
{
    // For the proof: the log's words are counted by 32 bits.
    let _ = words.used();
    for (k, word) in out.iter_mut().enumerate() {
        *word = words.log_word(first + k as u32);
    }
}

// The same of a space, where it is closed.
fn copied_of(space: &Space, first: u32, out: &mut [u64]) -> Copied
    ensures { HasCopied first out.old space.now result out.new }
{
    match space {
        Space::Closed(words) => {
            let status = copy_part(words, first, out);
            told_copy(status, words.used())
        }
        _ => told_copy(Status::WrongState, 0),
    }
}

/// Copies words of a closed space's log, from `first` on, as many as `out` has room for (`log_group_write_buf`, to a
/// buffer). With no room it tells how many words the log has.
#[unsafe(no_mangle)]
pub extern "C" fn ib_c_log_words(
    alloc: Global,
    slot: &mut SpaceSlot,
    first: u32,
    out: &mut [u64],
) -> Copied
    ensures { HasCopiedHandle first out.old slot.old.handle.held result slot.new.handle.held out.new }
{
    let Some(space) = slot.take(alloc) else {
        return told_copy(Status::NoHandle, 0);
    };
    let answer = copied_of(&space, first, out);
    slot.put(space);
    answer
}
