//! The pages beside the path of a key, taken for a delete without waiting.

ghost use Rattle.std.specs.Prelude.{◌≡◌, ℕ, ◌<◌, ◌≤◌, ◌+◌, ◌-◌, ◌*◌, ◌++◌, true, false, List, Some, length, IfErr, IfOk, OnOk};
ghost use Rattle.ib_page.specs.Image.{IsFormed, next_of};
ghost use Rattle.ib_page.specs.Work.{changed_of};
ghost use Rattle.ib_heap.specs.declared.TheConstants.{MOST_LEVEL};
ghost use Rattle.ib_plans.specs.Agreement.{last_of, path_of};
ghost use Rattle.ib_rule.specs.Conditions.{HasGrantLeft, HasGrantsLeft};
ghost use Rattle.ib_rule.specs.Under.{under};
ghost use Rattle.ib_rule.specs.Views.{is_watched};
ghost use Rattle.ib_mtr.specs.Mtr.{IsMtr, IsStillMtr};
ghost use Rattle.ib_cursor.specs.Claims.{HasClaimed, beside};
ghost use Rattle.ib_cursor.specs.Descent.{MayDescend};
ghost use Rattle.ib_cursor.specs.OnPath.{IsRoot, IsSought};
ghost use Rattle.ib_cursor.specs.Refusals.{AreFewLooks, IsDeleteRefusal, IsDeleteRefused, IsRefusedBehind, IsRowRefused};
ghost use Rattle.ib_cursor.specs.Rows.{CanTakeRow, HasTakenRows, MayTakeRows};
ghost use Rattle.ib_cursor.specs.Shapes.{is_claimed};
ghost use Rattle.ib_cursor.specs.Siblings.{IsPathWithSiblings, child_if, with_siblings};
ghost use Rattle.ib_cursor.specs.Spaces.{pages_under};
ghost use Rattle.ib_cursor.specs.Takings.{HasTakenMore, MayTakeFirst, TakesFirst, WillTake};

use crate::claim::{facts_of_trees, right_of};
use crate::fault::NowaitFault;
use crate::nowait_claim::{try_claim, try_path, try_take_beside, try_take_page};
use crate::search::Sought;
use crate::siblings::{children_of, last_page};
use ib_latch::Sleep;
use ib_logrec::Law;
use ib_map::Key;
use ib_merge::Beside;
use ib_mtr::Mtr;
use ib_page::Path;
use ib_tree::Trees;

// Tries the page of a node's record, where there is one.
fn try_take_child<L: Law, S: Sleep>(
    mtr: &mut Mtr<'_, L, S>,
    child: Option<(Key, u64)>,
) -> Result<(), NowaitFault>
    requires mtr { IsMtr mtr.old.latches.now mtr.old.pass.now }
    requires room { HasGrantLeft mtr.old.pass.now.view }
    requires ready { under L.Law mtr.old.latches.now MayTakeFirst (child_if child)
        mtr.old.pass.now }
    ensures still { IsStillMtr mtr.old mtr.new }
    ensures taken { OnOk result (under L.Law mtr.old.latches.now TakesFirst (child_if child)
        mtr.old.pass.now mtr.new.pass.now) }
    ensures few { OnOk result (AreFewLooks 0 mtr.old.pass.now.view mtr.new.pass.now.view) }
    ensures refused { IfErr result (λ fault. (held more : List ℕ) → under L.Law mtr.old.latches.now
        WillTake held (child_if child ++ more) mtr.old.pass.now → under L.Law mtr.old.latches.now
        IsRefusedBehind held (child_if child) fault mtr.old.pass.now mtr.new.pass.now) }
{
    // For the proof: a page of the space has a number that fits 32 bits.
    let _ = mtr.geometry().pages();
    match child {
        Some((_, page)) => match try_take_page(mtr, page as u32) {
            Ok(()) => Ok(()),
            Err(fault) => Err(fault),
        },
        None => Ok(()),
    }
}

// Tries the key's child under a node that is held, and the pages beside it there, from left to right.
// It answers the last one.
fn try_take_row<L: Law, S: Sleep>(
    mtr: &mut Mtr<'_, L, S>,
    node: u32,
    key: Key,
) -> Result<u32, NowaitFault>
    requires mtr { IsMtr mtr.old.latches.now mtr.old.pass.now }
    requires room { HasGrantsLeft 8 mtr.old.pass.now.view }
    requires ready { (held : List ℕ) × under L.Law mtr.old.latches.now CanTakeRow key held node
        mtr.old.pass.now }
    ensures still { IsStillMtr mtr.old mtr.new }
    ensures taken { OnOk result ((held : List ℕ) → under L.Law mtr.old.latches.now CanTakeRow key
        held node mtr.old.pass.now → under L.Law mtr.old.latches.now HasTakenMore held
        (with_siblings (pages_under L.Law mtr.old.latches.now mtr.old.pass.now) key node)
        mtr.old.pass.now mtr.new.pass.now) }
    ensures last { IfOk result (λ last. last ≡ last_of (with_siblings
        (pages_under L.Law mtr.old.latches.now mtr.old.pass.now) key node)) }
    ensures few { OnOk result (AreFewLooks 0 mtr.old.pass.now.view mtr.new.pass.now.view) }
    ensures refused { IfErr result (λ fault. (held : List ℕ) → under L.Law mtr.old.latches.now
        CanTakeRow key held node mtr.old.pass.now → under L.Law mtr.old.latches.now IsRefusedBehind
        held (with_siblings (pages_under L.Law mtr.old.latches.now mtr.old.pass.now) key node)
        fault mtr.old.pass.now mtr.new.pass.now) }
{
    // For the proof: a page of the space has a number that fits 32 bits.
    let _ = mtr.geometry().pages();
    let Beside { left, here, right } = children_of(mtr, node, key);
    match try_take_child(mtr, left) {
        Ok(()) => {}
        Err(fault) => return Err(fault),
    }
    match try_take_child(mtr, Some(here)) {
        Ok(()) => {}
        Err(fault) => return Err(fault),
    }
    match try_take_child(mtr, right) {
        Ok(()) => Ok(last_page(here, right)),
        Err(fault) => Err(fault),
    }
}

// Tries the root and then, from the root down, the row below each node of a path that was read, behind the pages of
// other trees that are held already. It answers the last page that it took.
fn try_take_rows<L: Trees, S: Sleep>(
    mtr: &mut Mtr<'_, L, S>,
    path: &Path,
    sought: Sought,
) -> Result<u32, NowaitFault>
    requires mtr { IsMtr mtr.old.latches.now mtr.old.pass.now }
    requires ready { (held : List ℕ) × under L.Law mtr.old.latches.now MayTakeRows sought.root path.now
        held mtr.old.pass.now }
    requires on_path { path.now ≡ path_of (pages_under L.Law mtr.old.latches.now mtr.old.pass.now)
        sought.key sought.root }
    requires room { HasGrantsLeft 32 mtr.old.pass.now.view }
    requires sought { IsSought L.ROOTS sought.root sought.key }
    ensures still { IsStillMtr mtr.old mtr.new }
    ensures taken { IfOk result (λ last. (held : List ℕ) → under L.Law mtr.old.latches.now MayTakeRows
        sought.root path.now held mtr.old.pass.now → under L.Law mtr.old.latches.now HasTakenRows
        held sought.root sought.key path.now (length path.now - 1) last mtr.old.pass.now
        mtr.new.pass.now) }
    ensures few { OnOk result (AreFewLooks 0 mtr.old.pass.now.view mtr.new.pass.now.view) }
    ensures refused { IfErr result (λ fault. under L.Law mtr.old.latches.now IsRowRefused sought.root
        sought.key path.now fault mtr.old.pass.now mtr.new.pass.now) }
{
    facts_of_trees(mtr);
    let pages = path.pages();
    match try_take_page(mtr, sought.root) {
        Ok(()) => {}
        Err(fault) => return Err(fault),
    }
    let mut last = sought.root;
    let mut at = 0;
    while at + 1 < pages.len() {
        match try_take_row(mtr, pages[at], sought.key) {
            Ok(page) => {
                last = page;
                at += 1;
            }
            Err(fault) => return Err(fault),
        }
    }
    Ok(last)
}

// Tries the leaf behind a page that is held and loaded, by its link, where there is one.
fn try_take_behind<L: Law, S: Sleep>(mtr: &mut Mtr<'_, L, S>, last: u32) -> Result<(), NowaitFault>
    requires mtr { IsMtr mtr.old.latches.now mtr.old.pass.now }
    requires loaded { (image : List ℕ) × (changed_of last mtr.old.pass.now.work ≡ Some image)
        × IsFormed image }
    requires room { HasGrantLeft mtr.old.pass.now.view }
    requires ready { (image : List ℕ) → changed_of last mtr.old.pass.now.work ≡ Some image
        → under L.Law mtr.old.latches.now MayTakeFirst (beside (next_of image)) mtr.old.pass.now }
    ensures still { IsStillMtr mtr.old mtr.new }
    ensures taken { OnOk result ((image : List ℕ) → changed_of last mtr.old.pass.now.work ≡ Some image
        → under L.Law mtr.old.latches.now TakesFirst (beside (next_of image)) mtr.old.pass.now
        mtr.new.pass.now) }
    ensures few { OnOk result (AreFewLooks 0 mtr.old.pass.now.view mtr.new.pass.now.view) }
    ensures refused { IfErr result (λ fault. (image : List ℕ)
        → changed_of last mtr.old.pass.now.work ≡ Some image → (held more : List ℕ)
        → under L.Law mtr.old.latches.now WillTake held (beside (next_of image) ++ more)
        mtr.old.pass.now → under L.Law mtr.old.latches.now IsRefusedBehind held
        (beside (next_of image)) fault mtr.old.pass.now mtr.new.pass.now) }
{
    let behind = right_of(mtr, last);
    match try_take_beside(mtr, behind) {
        Ok(()) => Ok(()),
        Err(fault) => Err(fault),
    }
}

// Claims the index, reads the path of a key, and takes the pages that a delete may change, all by tries. Where one is
// refused, those that were had are held still.
fn take_to_delete<L: Trees, S: Sleep>(
    mtr: &mut Mtr<'_, L, S>,
    sought: Sought,
) -> Result<Path, NowaitFault>
    requires may { MayDescend mtr.old.latches.now mtr.old.pass.now }
    requires unwatched { is_watched 1 mtr.old.pass.now.view.memory.since ≡ false }
    requires sought { IsSought L.ROOTS sought.root sought.key }
    ensures still { IsStillMtr mtr.old mtr.new }
    ensures claimed { IfOk result (λ path. (held : List ℕ) × under L.Law mtr.old.latches.now
        HasClaimed sought.root sought.key path held mtr.old.pass.now mtr.new.pass.now
        × IsPathWithSiblings (pages_under L.Law mtr.old.latches.now mtr.new.pass.now) sought.root
        sought.key path held) }
    ensures alone { OnOk result (is_claimed mtr.new.pass.now.view.memory.since ≡ true) }
    ensures twice { OnOk result (AreFewLooks 0 mtr.old.pass.now.view mtr.new.pass.now.view) }
    ensures few { mtr.new.pass.now.view.looks.count
        ≤ mtr.old.pass.now.view.looks.count + 8 * (MOST_LEVEL + 2) }
    ensures refusal { IfErr result (λ fault. under L.Law mtr.old.latches.now IsDeleteRefusal
        sought.root sought.key fault mtr.old.pass.now mtr.new.pass.now) }
{
    facts_of_trees(mtr);
    match try_claim(mtr) {
        Ok(()) => {}
        Err(fault) => return Err(fault),
    }
    let found = match try_path(mtr, sought) {
        Ok(found) => found,
        Err(fault) => return Err(fault),
    };
    let last = match try_take_rows(mtr, &found.path, sought) {
        Ok(last) => last,
        Err(fault) => return Err(fault),
    };
    match try_take_behind(mtr, last) {
        Ok(()) => Ok(found.path),
        Err(fault) => Err(fault),
    }
}

/// Descends to the leaf of a key for a delete that may change the tree's structure, as `descend_to_delete`
/// (`btr_cur_search_to_nth_level` with `BTR_MODIFY_TREE` and the intention to delete), without waiting: the
/// index is tried in SX, the pages of the path in S to read them, and then, level by level, those pages and
/// the pages beside them in X, for every `Sleep`. Where one is refused, the log's end is looked at, and then
/// all is given back: memo and work set are empty again. `Busy` and `Raced` tell the latch that was not had,
/// one of these, and the words of the try. There are two looks for each grant, and two at most for the
/// refused try.
///
/// ```
/// match descend_to_delete_nowait(&mut mtr, 1, key) {
///     Ok(path) => merge(mtr, path),
///     Err(fault) => {
///         mtr.finish();
///         later(fault)
///     }
/// }
/// ```
pub fn descend_to_delete_nowait<L: Trees, S: Sleep>(
    mtr: &mut Mtr<'_, L, S>,
    root: u32,
    key: Key,
) -> Result<Path, NowaitFault>
    requires may { MayDescend mtr.old.latches.now mtr.old.pass.now }
    requires unwatched { is_watched 1 mtr.old.pass.now.view.memory.since ≡ false }
    requires root { IsRoot L.ROOTS root }
    ensures still { IsStillMtr mtr.old mtr.new }
    ensures claimed { IfOk result (λ path. (held : List ℕ) × under L.Law mtr.old.latches.now
        HasClaimed root key path held mtr.old.pass.now mtr.new.pass.now × IsPathWithSiblings
        (pages_under L.Law mtr.old.latches.now mtr.new.pass.now) root key path held) }
    ensures alone { OnOk result (is_claimed mtr.new.pass.now.view.memory.since ≡ true) }
    ensures twice { OnOk result (AreFewLooks 0 mtr.old.pass.now.view mtr.new.pass.now.view) }
    ensures few { mtr.new.pass.now.view.looks.count
        ≤ mtr.old.pass.now.view.looks.count + 8 * (MOST_LEVEL + 2) }
    ensures refused { IfErr result (λ fault. under L.Law mtr.old.latches.now IsDeleteRefused root
        key fault mtr.old.pass.now mtr.new.pass.now) }
{
    match take_to_delete(mtr, Sought { root, key }) {
        Ok(path) => Ok(path),
        Err(fault) => {
            mtr.give_back();
            Err(fault)
        }
    }
}
