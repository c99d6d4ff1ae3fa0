//! Pages are copied one after another, while other sessions go on.

ghost use Rattle.std.specs.Prelude.{◌≡◌, ◌+◌, ◌<◌, true, length};
ghost use Rattle.ib_map.specs.Space.{has_pages};
ghost use Rattle.ib_core.specs.Sessions.{idle};
ghost use Rattle.ib_logrec.specs.Log.{by_place};
ghost use Rattle.ib_levels.specs.declared.level.Mode.TheVariants.{S as ModeS};
ghost use Rattle.ib_rule.specs.Conditions.{HasGrantLeft, HasGrantsLeft};
ghost use Rattle.ib_rule.specs.Pass.{IsAtRest, IsOf};
ghost use Rattle.ib_rule.specs.Takes.{IsStillOf};
ghost use Rattle.ib_latch.specs.Waits.{IsWon};
ghost use Rattle.ib_image.specs.Copies.{IsCopy};
ghost use Rattle.ib_image.specs.Copying.{CopiesPage, HasCopied, level_for};

use crate::copy::{CopiedPage, FuzzyCopy};
use ib_frames::read_page;
use ib_latch::{Latches, Parkers, Reserve};
use ib_levels::{Latch, Level};
use ib_logrec::Law;
use ib_rule::Pass;
use std::sync::Wait;

// The level of a page's latch: page 0 is the space page.
fn level_of(page: u32) -> Level
    ensures { result ≡ level_for page }
{
    if page == 0 {
        Level::Space
    } else {
        Level::TreeNode
    }
}

// Takes S on the latch of a page, at its level, and waits until it is granted.
fn latch_page<L: Law, R: Wait>(rt: &R, latches: &Latches<L, Parkers>, pass: &mut Pass, page: u32)
    requires own { IsOf latches.now pass.old }
    requires idle { pass.old.view.session ≡ idle }
    requires room { HasGrantLeft pass.old.view }
    requires pages { has_pages latches.now.sizes.pages ≡ true }
    requires page { page < latches.now.sizes.pages }
    ensures still { IsStillOf latches.now pass.old pass.new }
    ensures won { IsWon ModeS (page + 2) (level_for page) Reserve.Owned pass.old pass.new }
{
    latches.lock_s(rt, pass, Latch::page(page), level_of(page));
}

// Copies a page under its latch, with the log's end, which is the page's place.
fn copy_page<L: Law, R: Wait>(
    rt: &R,
    latches: &Latches<L, Parkers>,
    pass: &mut Pass,
    page: u32,
    out: &mut CopiedPage,
)
    requires own { IsOf latches.now pass.old }
    requires idle { pass.old.view.session ≡ idle }
    requires room { HasGrantLeft pass.old.view }
    requires pages { has_pages latches.now.sizes.pages ≡ true }
    requires page { page < latches.now.sizes.pages }
    ensures own { IsOf latches.now pass.new }
    ensures copies { CopiesPage latches.now.sizes (L.lawful latches.now.sizes.pages)
        (by_place L.opening latches.now.sizes.pages) page out.new pass.old pass.new }
{
    let latch = Latch::page(page);
    latch_page(rt, latches, pass, page);
    // For the proof: the session's entries are those of its number, and an image has as many words as a page.
    let _ = pass.number();
    read_page(latches.space(), pass, page, &mut out.image);
    let _ = out.image.word(0);
    out.place = pass.place();
    latches.unlock_s(pass, latch);
}

// Copies all pages, from page 0 up, and tells how many words of the log stand before the place of page 0.
fn copy_pages<L: Law, R: Wait>(
    rt: &R,
    latches: &Latches<L, Parkers>,
    pass: &mut Pass,
    out: &mut [CopiedPage],
) -> u32
    requires own { IsOf latches.now pass.old }
    requires idle { pass.old.view.session ≡ idle }
    requires room { HasGrantsLeft (length out.old) pass.old.view }
    requires pages { has_pages latches.now.sizes.pages ≡ true }
    requires size { length out.old ≡ latches.now.sizes.pages }
    ensures own { IsOf latches.now pass.new }
    ensures size { length out.new ≡ length out.old }
    ensures copied { HasCopied latches.now.sizes (L.lawful latches.now.sizes.pages)
        (by_place L.opening latches.now.sizes.pages) (length out.old) out.new result
        pass.old pass.new }
{
    copy_page(rt, latches, pass, 0, &mut out[0]);
    let tail_word = pass.used();
    for page in 1..out.len() {
        copy_page(rt, latches, pass, page as u32, &mut out[page]);
    }
    tail_word
}

/// Copies all pages while other sessions go on, from page 0 up: each is latched in S, page 0 at `Level::Space` and the
/// others at `Level::TreeNode`, read, the log's end read under the same grant, and the latch given up, as a backup reads
/// the pages of a tablespace one by one and keeps the redo from its first checkpoint on. It waits for latches and takes
/// no memory.
///
/// Afterwards `out` is a copy of the log that is seen then. The ends of the log that the call found are just the places of
/// the pages, in order, none below what was seen before, and it takes one grant of S for each page and no other. The
/// session holds nothing before and after.
///
/// ```
/// if pass.is_idle() {
///     copy_all(rt, index.latches(), &mut pass, &mut copy);
///     let tail = copy.tail_word();
/// }
/// ```
pub fn copy_all<L: Law, R: Wait>(
    rt: &R,
    latches: &Latches<L, Parkers>,
    pass: &mut Pass,
    out: &mut FuzzyCopy,
)
    requires own { IsOf latches.now pass.old }
    requires idle { pass.old.view.session ≡ idle }
    requires room { HasGrantsLeft (length out.old.pages) pass.old.view }
    requires size { length out.old.pages ≡ latches.now.sizes.pages }
    ensures own { IsOf latches.now pass.new }
    ensures copy { IsCopy (by_place L.opening latches.now.sizes.pages) latches.now.sizes.pages
        pass.new.view.memory.seen out.new.pages }
    ensures copied { HasCopied latches.now.sizes (L.lawful latches.now.sizes.pages)
        (by_place L.opening latches.now.sizes.pages) latches.now.sizes.pages out.new.pages
        out.new.tail_word pass.old pass.new }
    ensures rest { IsAtRest latches.now pass.old → IsAtRest latches.now pass.new }
{
    // For the proof: the number of pages is one that a space has.
    let _ = latches.space().geometry().pages();
    out.tail_word = copy_pages(rt, latches, pass, out.pages.as_mut_slice());
}
