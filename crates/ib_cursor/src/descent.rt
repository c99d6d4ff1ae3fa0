//! The descent, from the index to the leaf of a key.

ghost use Rattle.std.specs.Prelude.{◌≡◌, ◌+◌, ◌-◌, ◌*◌, ◌<◌, ◌≤◌, ◌∷◌, [], Bool, false, Some, IfErr, IfOk, OnOk};
ghost use Rattle.ib_heap.specs.declared.TheConstants.{MOST_LEVEL};
ghost use Rattle.ib_rule.specs.Conditions.{HasGrantLeft};
ghost use Rattle.ib_rule.specs.Pass.{PassState};
ghost use Rattle.ib_rule.specs.Under.{under, under_lawful};
ghost use Rattle.ib_rule.specs.Views.{with_grant};
ghost use Rattle.ib_walk.specs.Trees.{height_of};
ghost use Rattle.ib_mtr.specs.Mtr.{IsMtr, IsStillMtr};
ghost use Rattle.ib_cursor.specs.Descent.{HasReached, HasDescended, IsAt, IsDown, IsHeldAt, MayDescend};
ghost use Rattle.ib_cursor.specs.Going.{HasSeen, WentOn};
ghost use Rattle.ib_cursor.specs.Grants.{HasGrants, index_grant};
ghost use Rattle.ib_cursor.specs.Contention.{IsContended};
ghost use Rattle.ib_cursor.specs.Modes.{is_exclusive};
ghost use Rattle.ib_cursor.specs.Refusals.{AreFewLooks, looks_of};
ghost use Rattle.ib_cursor.specs.Spaces.{pages_under};
ghost use Rattle.ib_cursor.specs.OnPath.{IsSought, IsRoot};

use crate::fault::NowaitFault;
use crate::held_page::{child_of, level_of};
use crate::latch_page::{latch_page, read, take};
use crate::nowait::reach_leaf_nowait;
use crate::search::{Search, Sought};
use ib_latch::{Parkers, Sleep};
use ib_levels::{Latch, Level, Mode};
use ib_map::Key;
use ib_mtr::Mtr;
use ib_page::Path;
use ib_tree::Trees;
use std::sync::Wait;

// Takes the root behind the index, looks, and reads its level.
fn latch_root<L: Trees, R: Wait>(
    rt: &R,
    mtr: &mut Mtr<'_, L, Parkers>,
    sought: Sought,
    mode: Mode,
) -> u32
    requires mtr { IsMtr mtr.old.latches.now mtr.old.pass.now }
    requires index { HasGrants (index_grant ∷ []) mtr.old.pass.now }
    requires none { mtr.old.pass.now.work ≡ [] }
    requires room { HasGrantLeft mtr.old.pass.now.view }
    requires sought { IsSought L.ROOTS sought.root sought.key }
    ensures still { IsStillMtr mtr.old mtr.new }
    ensures here { under L.Law mtr.old.latches.now IsAt sought.root sought.key (index_grant ∷ [])
        sought.root result mode mtr.new.pass.now }
    ensures height { result ≡ height_of (pages_under L.Law mtr.old.latches.now mtr.new.pass.now)
        sought.root }
    ensures low { result ≤ MOST_LEVEL }
    ensures seen { under_lawful L.Law mtr.old.latches.now HasSeen mtr.old.pass.now
        mtr.new.pass.now }
    ensures grants { mtr.new.pass.now.view.grants
        ≡ with_grant (Some mode) mtr.old.pass.now.view.grants }
{
    // For the proof: the laws of trees, at the number of pages that the space has.
    L::trees_law();
    let _ = mtr.geometry().pages();
    latch_page(rt, mtr, sought.root, mode);
    level_of(mtr, sought.root)
}

// From a node that is held to the key's child: the child is found where the node lies, taken, and
// looked at, and only then the node is given up.
fn step_down<L: Trees, R: Wait>(
    rt: &R,
    mtr: &mut Mtr<'_, L, Parkers>,
    sought: Sought,
    page: u32,
    level: u32,
    mode: Mode,
) -> u32
    requires mtr { IsMtr mtr.old.latches.now mtr.old.pass.now }
    requires here { under L.Law mtr.old.latches.now IsHeldAt sought.root sought.key
        (index_grant ∷ []) page level mtr.old.pass.now }
    requires node { 0 < level }
    requires room { HasGrantLeft mtr.old.pass.now.view }
    requires sought { IsSought L.ROOTS sought.root sought.key }
    ensures still { IsStillMtr mtr.old mtr.new }
    ensures here { under L.Law mtr.old.latches.now IsAt sought.root sought.key (index_grant ∷ [])
        result (level - 1) mode mtr.new.pass.now }
    ensures went { WentOn mtr.old.pass.now mtr.new.pass.now }
    ensures grants { mtr.new.pass.now.view.grants
        ≡ with_grant (Some mode) mtr.old.pass.now.view.grants }
{
    // For the proof: the laws of trees, at the number of pages that the space has.
    L::trees_law();
    let _ = mtr.geometry().pages();
    let child = child_of(mtr, page, sought.key);
    latch_page(rt, mtr, child, mode);
    mtr.release_at(1);
    child
}

// Takes the index in S and the root behind it: in S, and where that is a leaf which the search is to
// change, in X after it gave the S up.
fn reach_root<L: Trees, R: Wait>(
    rt: &R,
    mtr: &mut Mtr<'_, L, Parkers>,
    sought: Sought,
    search: Search,
) -> u32
    requires may { MayDescend mtr.old.latches.now mtr.old.pass.now }
    requires sought { IsSought L.ROOTS sought.root sought.key }
    ensures still { IsStillMtr mtr.old mtr.new }
    ensures down { under L.Law mtr.old.latches.now IsDown sought.root sought.key
        (index_grant ∷ []) (is_exclusive search) 0 sought.root result mtr.old.pass.now
        mtr.new.pass.now }
{
    take(rt, mtr, Latch::INDEX, Mode::S, Level::IndexTree);
    let level = latch_root(rt, mtr, sought, Mode::S);
    if level > 0 {
        return level;
    }
    match search {
        Search::Find => level,
        Search::ModifyLeaf => {
            mtr.release_at(1);
            latch_root(rt, mtr, sought, Mode::X)
        }
    }
}

// Descends from a root to the leaf of a key, which is held at the end, and not loaded: it is the last page
// of the path.
pub(crate) fn reach_leaf<L: Trees, R: Wait>(
    rt: &R,
    mtr: &mut Mtr<'_, L, Parkers>,
    sought: Sought,
    search: Search,
) -> Path
    requires may { MayDescend mtr.old.latches.now mtr.old.pass.now }
    requires sought { IsSought L.ROOTS sought.root sought.key }
    ensures still { IsStillMtr mtr.old mtr.new }
    ensures reached { under L.Law mtr.old.latches.now HasReached sought.root sought.key
        (is_exclusive search) result mtr.old.pass.now mtr.new.pass.now }
    ensures none { mtr.new.pass.now.work ≡ [] }
{
    let mut path = Path::new();
    let mut page = sought.root;
    let mut level = reach_root(rt, mtr, sought, search);
    while level > 0 {
        path.push(page);
        level -= 1;
        page = step_down(rt, mtr, sought, page, level + 1, search.mode_at(level));
    }
    mtr.release_at(0);
    path.push(page);
    path
}

// Loads the leaf that was come to, the last page of the path.
pub(crate) fn load_end<L: Trees, S: Sleep>(mtr: &mut Mtr<'_, L, S>, path: &Path, sought: Sought)
    requires mtr { IsMtr mtr.old.latches.now mtr.old.pass.now }
    requires none { mtr.old.pass.now.work ≡ [] }
    requires sought { IsSought L.ROOTS sought.root sought.key }
    requires reached { (exclusive : Bool) × (p : PassState) × under L.Law mtr.old.latches.now HasReached
        sought.root sought.key exclusive path.now p mtr.old.pass.now }
    ensures still { IsStillMtr mtr.old mtr.new }
    ensures descended { (exclusive : Bool) (p : PassState)
        → under L.Law mtr.old.latches.now HasReached sought.root sought.key exclusive path.now p
        mtr.old.pass.now → under L.Law mtr.old.latches.now HasDescended sought.root sought.key
        exclusive path.now p mtr.new.pass.now }
    ensures looks { mtr.new.pass.now.view.looks ≡ mtr.old.pass.now.view.looks }
    ensures grants { mtr.new.pass.now.view.grants ≡ mtr.old.pass.now.view.grants }
{
    // For the proof: the laws of trees, at the number of pages that the space has.
    L::trees_law();
    let _ = mtr.geometry().pages();
    let leaf = path.last().unwrap();
    read(mtr, leaf);
}

/// Descends from a root to the leaf of a key (`btr_cur_search_to_nth_level`; the order of latches is
/// WL#6326's): S on the index, S on the upper pages, and on the leaf S to read it, X to change it. A
/// page's child is found where the page lies, taken, and looked at, and only then the page is given
/// up; the index is given up at the leaf, which is then loaded. The memo has the leaf's grant alone at
/// the end, and the work set the leaf alone. The session holds nothing before.
pub fn descend_at<L: Trees, R: Wait>(
    rt: &R,
    mtr: &mut Mtr<'_, L, Parkers>,
    root: u32,
    mode: Search,
    key: Key,
) -> Path
    requires may { MayDescend mtr.old.latches.now mtr.old.pass.now }
    requires root { IsRoot L.ROOTS root }
    ensures still { IsStillMtr mtr.old mtr.new }
    ensures descended { under L.Law mtr.old.latches.now HasDescended root key (is_exclusive mode)
        result mtr.old.pass.now mtr.new.pass.now }
{
    let sought = Sought { root, key };
    let path = reach_leaf(rt, mtr, sought, mode);
    load_end(mtr, &path, sought);
    path
}

/// Descends from the first root, page 1.
pub fn descend<L: Trees, R: Wait>(
    rt: &R,
    mtr: &mut Mtr<'_, L, Parkers>,
    mode: Search,
    key: Key,
) -> Path
    requires may { MayDescend mtr.old.latches.now mtr.old.pass.now }
    requires root { 1 ≤ L.ROOTS }
    ensures still { IsStillMtr mtr.old mtr.new }
    ensures descended { under L.Law mtr.old.latches.now HasDescended 1 key (is_exclusive mode)
        result mtr.old.pass.now mtr.new.pass.now }
{
    descend_at(rt, mtr, 1, mode, key)
}

/// The same as a reader without waiting: each latch is tried (`rw_lock_s_lock_nowait`). Where one is
/// refused, the log's end is looked at, and then the latches are given up: memo and work set are empty
/// again. `Busy` and `Raced` tell the latch that was not had, the index or a page of the key's path, and
/// the words of the try. There are two looks at most for each latch that was had, and for `Busy` one more, for
/// `Raced` two; so two at most for each latch of the longest path that a tree can have.
pub fn descend_nowait<L: Trees, S: Sleep>(
    mtr: &mut Mtr<'_, L, S>,
    key: Key,
) -> Result<Path, NowaitFault>
    requires may { MayDescend mtr.old.latches.now mtr.old.pass.now }
    requires root { 1 ≤ L.ROOTS }
    ensures still { IsStillMtr mtr.old mtr.new }
    ensures descended { IfOk result (λ path. under L.Law mtr.old.latches.now HasDescended 1 key
        false path mtr.old.pass.now mtr.new.pass.now) }
    ensures twice { OnOk result (AreFewLooks 0 mtr.old.pass.now.view mtr.new.pass.now.view) }
    ensures contended { IfErr result (λ fault. under L.Law mtr.old.latches.now IsContended 1 key
        fault mtr.old.pass.now mtr.new.pass.now) }
    ensures vain { IfErr result (λ fault. AreFewLooks (looks_of fault) mtr.old.pass.now.view
        mtr.new.pass.now.view) }
    ensures few { mtr.new.pass.now.view.looks.count
        ≤ mtr.old.pass.now.view.looks.count + 2 * (MOST_LEVEL + 2) }
{
    let sought = Sought { root: 1, key };
    match reach_leaf_nowait(mtr, sought) {
        Ok(path) => {
            load_end(mtr, &path, sought);
            Ok(path)
        }
        Err(fault) => Err(fault),
    }
}
