//! The descent to a leaf that is to be changed, which does not wait.

ghost use Rattle.std.specs.Prelude.{◌≡◌, ◌+◌, ◌-◌, ◌*◌, ◌<◌, ◌≤◌, ◌∷◌, ℕ, [], true, Some, IfErr, IfOk, OnOk};
ghost use Rattle.ib_heap.specs.declared.TheConstants.{MOST_LEVEL};
ghost use Rattle.ib_rule.specs.Conditions.{HasGrantLeft};
ghost use Rattle.ib_rule.specs.Under.{under, under_lawful};
ghost use Rattle.ib_rule.specs.Views.{with_grant};
ghost use Rattle.ib_walk.specs.Trees.{height_of};
ghost use Rattle.ib_mtr.specs.Mtr.{IsMtr, IsStillMtr};
ghost use Rattle.ib_cursor.specs.Descent.{HasDescended, HasReached, IsAt, IsDown, IsHeldAt, MayDescend};
ghost use Rattle.ib_cursor.specs.Going.{HasSeen, WentOn};
ghost use Rattle.ib_cursor.specs.Grants.{HasGrants, index_grant};
ghost use Rattle.ib_cursor.specs.OnPath.{IsRoot, IsSought};
ghost use Rattle.ib_cursor.specs.Refusals.{AreFewLooks, IsLeafRefusal, IsLeafRefused, IsVainOnPath};
ghost use Rattle.ib_cursor.specs.Spaces.{pages_under};

use crate::descent::load_end;
use crate::fault::NowaitFault;
use crate::held_page::{child_of, level_of};
use crate::search::{Search, Sought};
use crate::try_latch::{try_page, try_take};
use ib_latch::Sleep;
use ib_levels::{Latch, Level, Mode};
use ib_map::Key;
use ib_mtr::Mtr;
use ib_page::Path;
use ib_tree::Trees;

// Tries the root behind the index, looks, and reads its level.
pub(crate) fn try_root_in<L: Trees, S: Sleep>(
    mtr: &mut Mtr<'_, L, S>,
    sought: Sought,
    mode: Mode,
) -> Result<u32, NowaitFault>
    requires mtr { IsMtr mtr.old.latches.now mtr.old.pass.now }
    requires index { HasGrants (index_grant ∷ []) mtr.old.pass.now }
    requires none { mtr.old.pass.now.work ≡ [] }
    requires room { HasGrantLeft mtr.old.pass.now.view }
    requires sought { IsSought L.ROOTS sought.root sought.key }
    ensures still { IsStillMtr mtr.old mtr.new }
    ensures here { IfOk result (λ level. under L.Law mtr.old.latches.now IsAt sought.root
        sought.key (index_grant ∷ []) sought.root level mode mtr.new.pass.now) }
    ensures height { IfOk result (λ level. level
        ≡ height_of (pages_under L.Law mtr.old.latches.now mtr.new.pass.now) sought.root) }
    ensures low { IfOk result (λ level. level ≤ MOST_LEVEL) }
    ensures seen { OnOk result (under_lawful L.Law mtr.old.latches.now HasSeen mtr.old.pass.now
        mtr.new.pass.now) }
    ensures grants { OnOk result (mtr.new.pass.now.view.grants
        ≡ with_grant (Some mode) mtr.old.pass.now.view.grants) }
    ensures few { OnOk result (AreFewLooks 0 mtr.old.pass.now.view mtr.new.pass.now.view) }
    ensures vain { IfErr result (λ fault. (level : ℕ) × under L.Law mtr.old.latches.now
        IsVainOnPath sought.root sought.key mode sought.root level fault mtr.old.pass.now
        mtr.new.pass.now) }
{
    // For the proof: the laws of trees, at the number of pages that the space has.
    L::trees_law();
    let _ = mtr.geometry().pages();
    match try_page(mtr, sought.root, mode) {
        Ok(()) => Ok(level_of(mtr, sought.root)),
        Err(fault) => Err(fault),
    }
}

// From a node that is held to the key's child, tried and looked at before the node is given up.
pub(crate) fn try_down_in<L: Trees, S: Sleep>(
    mtr: &mut Mtr<'_, L, S>,
    sought: Sought,
    page: u32,
    level: u32,
    mode: Mode,
) -> Result<u32, NowaitFault>
    requires mtr { IsMtr mtr.old.latches.now mtr.old.pass.now }
    requires here { under L.Law mtr.old.latches.now IsHeldAt sought.root sought.key
        (index_grant ∷ []) page level mtr.old.pass.now }
    requires node { 0 < level }
    requires room { HasGrantLeft mtr.old.pass.now.view }
    requires sought { IsSought L.ROOTS sought.root sought.key }
    ensures still { IsStillMtr mtr.old mtr.new }
    ensures here { IfOk result (λ child. under L.Law mtr.old.latches.now IsAt sought.root
        sought.key (index_grant ∷ []) child (level - 1) mode mtr.new.pass.now) }
    ensures went { OnOk result (WentOn mtr.old.pass.now mtr.new.pass.now) }
    ensures grants { OnOk result (mtr.new.pass.now.view.grants
        ≡ with_grant (Some mode) mtr.old.pass.now.view.grants) }
    ensures few { OnOk result (AreFewLooks 0 mtr.old.pass.now.view mtr.new.pass.now.view) }
    ensures vain { IfErr result (λ fault. (child : ℕ) × under L.Law mtr.old.latches.now
        IsVainOnPath sought.root sought.key mode child (level - 1) fault mtr.old.pass.now
        mtr.new.pass.now) }
{
    // For the proof: the laws of trees, at the number of pages that the space has.
    L::trees_law();
    let _ = mtr.geometry().pages();
    let child = child_of(mtr, page, sought.key);
    match try_page(mtr, child, mode) {
        Ok(()) => {
            mtr.release_at(1);
            Ok(child)
        }
        Err(fault) => Err(fault),
    }
}

// Tries the index in S and the root behind it: in S, and where that is a leaf, in X after it gave the S up.
fn try_first_pages<L: Trees, S: Sleep>(
    mtr: &mut Mtr<'_, L, S>,
    sought: Sought,
) -> Result<u32, NowaitFault>
    requires may { MayDescend mtr.old.latches.now mtr.old.pass.now }
    requires sought { IsSought L.ROOTS sought.root sought.key }
    ensures still { IsStillMtr mtr.old mtr.new }
    ensures down { IfOk result (λ level. under L.Law mtr.old.latches.now IsDown sought.root
        sought.key (index_grant ∷ []) true 0 sought.root level mtr.old.pass.now
        mtr.new.pass.now) }
    ensures few { OnOk result (AreFewLooks 0 mtr.old.pass.now.view mtr.new.pass.now.view) }
    ensures refusal { IfErr result (λ fault. under L.Law mtr.old.latches.now IsLeafRefusal
        sought.root sought.key fault mtr.old.pass.now mtr.new.pass.now) }
{
    match try_take(mtr, Latch::INDEX, Mode::S, Level::IndexTree) {
        Ok(()) => {}
        Err(fault) => return Err(fault),
    }
    let level = match try_root_in(mtr, sought, Mode::S) {
        Ok(level) => level,
        Err(fault) => return Err(fault),
    };
    if level > 0 {
        return Ok(level);
    }
    mtr.release_at(1);
    match try_root_in(mtr, sought, Mode::X) {
        Ok(level) => Ok(level),
        Err(fault) => Err(fault),
    }
}

// Descends from a root to the leaf of a key by tries, with X on the leaf, which is held at the end, and not loaded:
// it is the last page of the path. Where a latch is refused, those that were had are held still.
fn reach_leaf_to_change<L: Trees, S: Sleep>(
    mtr: &mut Mtr<'_, L, S>,
    sought: Sought,
) -> Result<Path, NowaitFault>
    requires may { MayDescend mtr.old.latches.now mtr.old.pass.now }
    requires sought { IsSought L.ROOTS sought.root sought.key }
    ensures still { IsStillMtr mtr.old mtr.new }
    ensures reached { IfOk result (λ path. under L.Law mtr.old.latches.now HasReached sought.root
        sought.key true path mtr.old.pass.now mtr.new.pass.now) }
    ensures none { OnOk result (mtr.new.pass.now.work ≡ []) }
    ensures few { OnOk result (AreFewLooks 0 mtr.old.pass.now.view mtr.new.pass.now.view) }
    ensures refusal { IfErr result (λ fault. under L.Law mtr.old.latches.now IsLeafRefusal
        sought.root sought.key fault mtr.old.pass.now mtr.new.pass.now) }
{
    let mut path = Path::new();
    let mut page = sought.root;
    let mut level = match try_first_pages(mtr, sought) {
        Ok(level) => level,
        Err(fault) => return Err(fault),
    };
    while level > 0 {
        path.push(page);
        level -= 1;
        let mode = Search::ModifyLeaf.mode_at(level);
        match try_down_in(mtr, sought, page, level + 1, mode) {
            Ok(child) => page = child,
            Err(fault) => return Err(fault),
        }
    }
    mtr.release_at(0);
    path.push(page);
    Ok(path)
}

/// Descends from a root to the leaf of a key that is to be changed, as `descend_at` with `Search::ModifyLeaf`
/// (`btr_cur_search_to_nth_level` with `BTR_MODIFY_LEAF`), without waiting: each latch is tried
/// (`rw_lock_s_lock_nowait`, `rw_lock_x_lock_func_nowait`), for every `Sleep`. Where one is refused, the log's
/// end is looked at, and then all is given back: memo and work set are empty again. `Busy` and `Raced` tell
/// the latch that was not had, the index, or a page of the key's path, and the words of the try. There are
/// two looks at most for each latch of the longest path that a tree can have, the index, and the root again, and
/// two for the refused try.
///
/// ```
/// match descend_to_change_nowait(&mut mtr, 1, key) {
///     Ok(path) => change(mtr, path),
///     Err(fault) => {
///         mtr.finish();
///         later(fault)
///     }
/// }
/// ```
pub fn descend_to_change_nowait<L: Trees, S: Sleep>(
    mtr: &mut Mtr<'_, L, S>,
    root: u32,
    key: Key,
) -> Result<Path, NowaitFault>
    requires may { MayDescend mtr.old.latches.now mtr.old.pass.now }
    requires root { IsRoot L.ROOTS root }
    ensures still { IsStillMtr mtr.old mtr.new }
    ensures descended { IfOk result (λ path. under L.Law mtr.old.latches.now HasDescended root key
        true path mtr.old.pass.now mtr.new.pass.now) }
    ensures twice { OnOk result (AreFewLooks 0 mtr.old.pass.now.view mtr.new.pass.now.view) }
    ensures few { mtr.new.pass.now.view.looks.count
        ≤ mtr.old.pass.now.view.looks.count + 2 * (MOST_LEVEL + 4) }
    ensures refused { IfErr result (λ fault. under L.Law mtr.old.latches.now IsLeafRefused root key
        fault mtr.old.pass.now mtr.new.pass.now) }
{
    let sought = Sought { root, key };
    match reach_leaf_to_change(mtr, sought) {
        Ok(path) => {
            load_end(mtr, &path, sought);
            Ok(path)
        }
        Err(fault) => {
            mtr.give_back();
            Err(fault)
        }
    }
}
