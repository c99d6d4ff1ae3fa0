//! A key looked up on its leaf, where it lies.

ghost use Rattle.std.specs.Prelude.{◌≡◌, ◌+◌, ◌*◌, ◌≤◌, [], false, IfErr, IfOk, OnOk};
ghost use Rattle.ib_heap.specs.declared.TheConstants.{MOST_LEVEL};
ghost use Rattle.ib_rule.specs.Pass.{PassState};
ghost use Rattle.ib_rule.specs.Under.{under};
ghost use Rattle.ib_walk.specs.Search.{leaf_for};
ghost use Rattle.ib_mtr.specs.Mtr.{IsMtr, IsStillMtr};
ghost use Rattle.ib_cursor.specs.Descent.{HasReached, HasFound, MayDescend};
ghost use Rattle.ib_cursor.specs.Reading.{HasReadWords};
ghost use Rattle.ib_cursor.specs.Contention.{IsContended};
ghost use Rattle.ib_cursor.specs.Refusals.{AreFewLooks, looks_of};
ghost use Rattle.ib_cursor.specs.Spaces.{pages_under};

use crate::descent::reach_leaf;
use crate::fault::NowaitFault;
use crate::held_page::value_of;
use crate::nowait::reach_leaf_nowait;
use crate::search::{Search, Sought};
use ib_latch::{Parkers, Sleep};
use ib_map::Key;
use ib_mtr::Mtr;
use ib_page::Path;
use ib_tree::Trees;
use std::sync::Wait;

/// What a lookup found: the key's leaf, and the key's value there.
#[derive(Clone, Copy, Debug, PartialEq, Eq)]
pub struct FoundLeaf {
    /// The number of the leaf.
    pub leaf: u32,
    /// The value, None where the key is not there.
    pub value: Option<u64>,
}

// What is found of a key on its leaf, which is held and is the last page of the path.
fn found_at_end<L: Trees, S: Sleep>(mtr: &mut Mtr<'_, L, S>, path: &Path, key: Key) -> FoundLeaf
    requires mtr { IsMtr mtr.old.latches.now mtr.old.pass.now }
    requires none { mtr.old.pass.now.work ≡ [] }
    requires root { 1 ≤ L.ROOTS }
    requires reached { (p : PassState) × under L.Law mtr.old.latches.now HasReached 1 key false path.now
        p mtr.old.pass.now }
    ensures still { IsStillMtr mtr.old mtr.new }
    ensures found { (p : PassState) → under L.Law mtr.old.latches.now HasReached 1 key false path.now
        p mtr.old.pass.now → under L.Law mtr.old.latches.now HasFound 1 key result.value p
        mtr.new.pass.now }
    ensures leaf { result.leaf ≡ leaf_for (pages_under L.Law mtr.old.latches.now mtr.new.pass.now)
        key 1 }
    ensures read { HasReadWords mtr.old.pass.now mtr.new.pass.now }
    ensures looks { mtr.new.pass.now.view.looks.count ≡ mtr.old.pass.now.view.looks.count }
{
    // For the proof: the laws of trees, at the number of pages that the space has.
    L::trees_law();
    let _ = mtr.geometry().pages();
    let leaf = path.last().unwrap();
    let value = value_of(mtr, leaf, key);
    FoundLeaf { leaf, value }
}

/// Looks a key up in the first tree, whose root is page 1: descends to the key's leaf as a reader
/// (`btr_cur_search_to_nth_level` with `BTR_SEARCH_LEAF`), and searches the leaf where it lies
/// (`page_cur_search_with_match`). None where the key is not there. The memo has the leaf's grant alone at
/// the end, and no page is loaded. The session holds nothing before.
pub fn find<L: Trees, R: Wait>(rt: &R, mtr: &mut Mtr<'_, L, Parkers>, key: Key) -> Option<u64>
    requires may { MayDescend mtr.old.latches.now mtr.old.pass.now }
    requires root { 1 ≤ L.ROOTS }
    ensures still { IsStillMtr mtr.old mtr.new }
    ensures found { under L.Law mtr.old.latches.now HasFound 1 key result mtr.old.pass.now
        mtr.new.pass.now }
{
    find_leaf(rt, mtr, key).value
}

/// The same without waiting: each latch is tried (`rw_lock_s_lock_nowait`). Where one is refused, the log's
/// end is looked at, and then the latches are given up: memo and work set are empty again. `Busy` and
/// `Raced` tell the latch that was not had, the index or a page of the key's path, and the words of the
/// try. There are two looks at most for each latch that was had, and for `Busy` one more, for `Raced` two;
/// so two at most for each latch of the longest path that a tree can have. No step is made as one that waits.
pub fn find_nowait<L: Trees, S: Sleep>(
    mtr: &mut Mtr<'_, L, S>,
    key: Key,
) -> Result<Option<u64>, NowaitFault>
    requires may { MayDescend mtr.old.latches.now mtr.old.pass.now }
    requires root { 1 ≤ L.ROOTS }
    ensures still { IsStillMtr mtr.old mtr.new }
    ensures found { IfOk result (λ value. under L.Law mtr.old.latches.now HasFound 1 key value
        mtr.old.pass.now mtr.new.pass.now) }
    ensures twice { OnOk result (AreFewLooks 0 mtr.old.pass.now.view mtr.new.pass.now.view) }
    ensures contended { IfErr result (λ fault. under L.Law mtr.old.latches.now IsContended 1 key
        fault mtr.old.pass.now mtr.new.pass.now) }
    ensures vain { IfErr result (λ fault. AreFewLooks (looks_of fault) mtr.old.pass.now.view
        mtr.new.pass.now.view) }
    ensures looks { mtr.new.pass.now.view.looks.count
        ≤ mtr.old.pass.now.view.looks.count + 2 * (MOST_LEVEL + 2) }
{
    let path = reach_leaf_nowait(mtr, Sought { root: 1, key })?;
    Ok(found_at_end(mtr, &path, key).value)
}

/// Looks a key up as `find` does, and tells the leaf's number beside the value, for who remembers the leaf to
/// guess at it later (`btr_search_info_update`).
pub fn find_leaf<L: Trees, R: Wait>(rt: &R, mtr: &mut Mtr<'_, L, Parkers>, key: Key) -> FoundLeaf
    requires may { MayDescend mtr.old.latches.now mtr.old.pass.now }
    requires root { 1 ≤ L.ROOTS }
    ensures still { IsStillMtr mtr.old mtr.new }
    ensures found { under L.Law mtr.old.latches.now HasFound 1 key result.value mtr.old.pass.now
        mtr.new.pass.now }
    ensures leaf { result.leaf ≡ leaf_for (pages_under L.Law mtr.old.latches.now mtr.new.pass.now)
        key 1 }
{
    let path = reach_leaf(rt, mtr, Sought { root: 1, key }, Search::Find);
    found_at_end(mtr, &path, key)
}
