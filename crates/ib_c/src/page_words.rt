//! The words of a page of a closed space, copied for C.

ghost use Rattle.std.specs.Prelude.{◌≡◌, ◌<◌, ℕ, length, slice_index};
ghost use Rattle.ib_map.specs.declared.TheConstants.{PAGE_WORDS};
ghost use Rattle.ib_layout.specs.Places.{page_place};
ghost use Rattle.ib_c.specs.PageWords.{HasCopiedPage, HasCopiedPageHandle, IsCopiedPage};

use crate::log_words::{Copied, told_copy};
use crate::space::Space;
use crate::space_handle::SpaceSlot;
use crate::status::Status;
use ib_map::PAGE_WORDS;
use ib_rule::SpaceWords;
use std::alloc::Global;

// The words of the page, where there is one, and `out` is as long as a page.
fn copy_page(words: &SpaceWords, page: u32, out: &mut [u64]) -> Status
    ensures { IsCopiedPage words.now page out.old result out.new }
{
    if page >= words.geometry().pages() || out.len() != PAGE_WORDS {
        return Status::BadRange;
    }
    copy(words, page, out);
    Status::Done
}

// Those words, where there is such a page.
fn copy(words: &SpaceWords, page: u32, out: &mut [u64])
    requires page { page < words.now.sizes.pages }
    requires size { length out.old ≡ PAGE_WORDS }
    ensures { (i : ℕ) → i < PAGE_WORDS
        → slice_index out.new i ≡ slice_index words.now.words (page_place words.now.sizes page i) }
{
    let image = words.page(page);
    for (i, word) in out.iter_mut().enumerate() {
        *word = image.word(i);
    }
}

// The same of a space, where it is closed.
fn copied_page_of(space: &Space, page: u32, out: &mut [u64]) -> Copied
    ensures { HasCopiedPage page out.old space.now result out.new }
{
    match space {
        Space::Closed(words) => {
            let status = copy_page(words, page, out);
            told_copy(status, PAGE_WORDS as u32)
        }
        _ => told_copy(Status::WrongState, 0),
    }
}

/// Copies the words of a page of a closed space (`buf_page_get_gen`, for one who reads the frame), where `out` has the room of
/// a page. It tells how many words a page has.
#[unsafe(no_mangle)]
pub extern "C" fn ib_c_page_words(
    alloc: Global,
    slot: &mut SpaceSlot,
    page: u32,
    out: &mut [u64],
) -> Copied
    ensures { HasCopiedPageHandle page out.old slot.old.handle.held result slot.new.handle.held
        out.new }
{
    let Some(space) = slot.take(alloc) else {
        return told_copy(Status::NoHandle, 0);
    };
    let answer = copied_page_of(&space, page, out);
    slot.put(space);
    answer
}
