//! The pages beside the path of a key, taken for a delete.

ghost use Rattle.std.specs.Prelude.{◌≡◌, ℕ, ◌<◌, ◌≤◌, ◌+◌, ◌-◌, ◌^◌, ◌∷◌, true, false, List, Some, length, slice_get, IsSomeAnd};
ghost use Rattle.ib_map.specs.Keys.{rank};
ghost use Rattle.ib_page.specs.Image.{IsFormed, IsTreePage, next_of, records_of};
ghost use Rattle.ib_page.specs.Work.{changed_of};
ghost use Rattle.ib_plans.specs.Agreement.{last_of, path_of};
ghost use Rattle.ib_plans.specs.Merge.{siblings_of};
ghost use Rattle.ib_rule.specs.Conditions.{HasGrantLeft, HasGrantsLeft};
ghost use Rattle.ib_rule.specs.Under.{under, under_lawful};
ghost use Rattle.ib_rule.specs.Views.{is_watched};
ghost use Rattle.ib_mtr.specs.Mtr.{IsMtr, IsStillMtr};
ghost use Rattle.ib_cursor.specs.Claims.{HasClaimed, beside};
ghost use Rattle.ib_cursor.specs.Descent.{MayDescend};
ghost use Rattle.ib_cursor.specs.Rows.{CanTakeRow, HasTakenRows, MayTakeRows};
ghost use Rattle.ib_cursor.specs.Shapes.{is_claimed};
ghost use Rattle.ib_cursor.specs.Siblings.{IsPathWithSiblings, child_if, with_siblings};
ghost use Rattle.ib_cursor.specs.Spaces.{pages_under};
ghost use Rattle.ib_cursor.specs.Takings.{HasTakenMore, MayTakeFirst, TakesFirst};
ghost use Rattle.ib_cursor.specs.OnPath.{IsSought, IsRoot};

use crate::claim::{claim_index, facts_of_trees, read_path, right_of, take_beside, take_page};
use crate::search::Sought;
use ib_latch::{Parkers, Sleep};
use ib_logrec::Law;
use ib_map::Key;
use ib_merge::{Beside, records_beside};
use ib_mtr::Mtr;
use ib_page::Path;
use ib_tree::Trees;
use std::sync::Wait;

// The records of a node that is loaded, for the key's child and for the pages beside it.
pub(crate) fn children_of<L: Law, S: Sleep>(mtr: &Mtr<'_, L, S>, node: u32, key: Key) -> Beside
    requires mtr { IsMtr mtr.now.latches.now mtr.now.pass.now }
    requires loaded { (image : List ℕ) × (changed_of node mtr.now.pass.now.work ≡ Some image)
        × IsTreePage image × IsSomeAnd (slice_get (records_of image) 0) (λ r. rank r.0 ≤ rank key) }
    ensures { (image : List ℕ) → changed_of node mtr.now.pass.now.work ≡ Some image
        → siblings_of key (records_of image)
        ≡ record { left = result.left; here = result.here; right = result.right } }
{
    let image = mtr.image(node).unwrap();
    records_beside(image, key)
}

// Takes the page of a node's record, where there is one.
fn take_child<L: Law, R: Wait>(rt: &R, mtr: &mut Mtr<'_, L, Parkers>, child: Option<(Key, u64)>)
    requires mtr { IsMtr mtr.old.latches.now mtr.old.pass.now }
    requires room { HasGrantLeft mtr.old.pass.now.view }
    requires ready { under L.Law mtr.old.latches.now MayTakeFirst (child_if child)
        mtr.old.pass.now }
    ensures still { IsStillMtr mtr.old mtr.new }
    ensures taken { under L.Law mtr.old.latches.now TakesFirst (child_if child) mtr.old.pass.now
        mtr.new.pass.now }
{
    // For the proof: a page of the space has a number that fits 32 bits.
    let _ = mtr.geometry().pages();
    if let Some((_, page)) = child {
        take_page(rt, mtr, page as u32);
    }
}

// The page of the last of these records.
pub(crate) fn last_page(here: (Key, u64), right: Option<(Key, u64)>) -> u32
    requires small { last_of (here.1 ∷ child_if right) < 2 ^ 32 }
    ensures { result ≡ last_of (here.1 ∷ child_if right) }
{
    let (_, page) = right.unwrap_or(here);
    page as u32
}

// Takes the key's child under a node that is held, and the pages beside it there, from left to right.
// It answers the last one.
fn take_row<L: Law, R: Wait>(rt: &R, mtr: &mut Mtr<'_, L, Parkers>, node: u32, key: Key) -> u32
    requires mtr { IsMtr mtr.old.latches.now mtr.old.pass.now }
    requires room { HasGrantsLeft 8 mtr.old.pass.now.view }
    requires ready { (held : List ℕ) × under L.Law mtr.old.latches.now CanTakeRow key held node
        mtr.old.pass.now }
    ensures still { IsStillMtr mtr.old mtr.new }
    ensures taken { (held : List ℕ) → under L.Law mtr.old.latches.now CanTakeRow key held node
        mtr.old.pass.now → under L.Law mtr.old.latches.now HasTakenMore held
        (with_siblings (pages_under L.Law mtr.old.latches.now mtr.old.pass.now) key node)
        mtr.old.pass.now mtr.new.pass.now }
    ensures last { result ≡ last_of (with_siblings (pages_under L.Law mtr.old.latches.now
        mtr.old.pass.now) key node) }
{
    // For the proof: a page of the space has a number that fits 32 bits.
    let _ = mtr.geometry().pages();
    let Beside { left, here, right } = children_of(mtr, node, key);
    take_child(rt, mtr, left);
    take_child(rt, mtr, Some(here));
    take_child(rt, mtr, right);
    last_page(here, right)
}

/// Takes the root and then, from the root down, the row below each node of a path that was read, behind the pages of other
/// trees that are held already. It answers the last page that it took.
pub fn take_rows<L: Trees, R: Wait>(
    rt: &R,
    mtr: &mut Mtr<'_, L, Parkers>,
    path: &Path,
    sought: Sought,
) -> u32
    requires mtr { IsMtr mtr.old.latches.now mtr.old.pass.now }
    requires ready { (held : List ℕ) × under L.Law mtr.old.latches.now MayTakeRows sought.root path.now
        held mtr.old.pass.now }
    requires on_path { path.now ≡ path_of (pages_under L.Law mtr.old.latches.now mtr.old.pass.now)
        sought.key sought.root }
    requires room { HasGrantsLeft 32 mtr.old.pass.now.view }
    requires sought { IsSought L.ROOTS sought.root sought.key }
    ensures still { IsStillMtr mtr.old mtr.new }
    ensures taken { (held : List ℕ) → under L.Law mtr.old.latches.now MayTakeRows sought.root path.now
        held mtr.old.pass.now → under L.Law mtr.old.latches.now HasTakenRows held sought.root
        sought.key path.now (length path.now - 1) result mtr.old.pass.now mtr.new.pass.now }
{
    facts_of_trees(mtr);
    let pages = path.pages();
    take_page(rt, mtr, sought.root);
    let mut last = sought.root;
    let mut at = 0;
    while at + 1 < pages.len() {
        last = take_row(rt, mtr, pages[at], sought.key);
        at += 1;
    }
    last
}

/// Takes the leaf behind a page that is held and loaded, by its link, where there is one.
pub fn take_behind<L: Law, R: Wait>(rt: &R, mtr: &mut Mtr<'_, L, Parkers>, last: u32)
    requires mtr { IsMtr mtr.old.latches.now mtr.old.pass.now }
    requires loaded { (image : List ℕ) × (changed_of last mtr.old.pass.now.work ≡ Some image)
        × IsFormed image }
    requires room { HasGrantLeft mtr.old.pass.now.view }
    requires ready { (image : List ℕ) → changed_of last mtr.old.pass.now.work ≡ Some image
        → under L.Law mtr.old.latches.now MayTakeFirst (beside (next_of image)) mtr.old.pass.now }
    ensures still { IsStillMtr mtr.old mtr.new }
    ensures taken { (image : List ℕ) → changed_of last mtr.old.pass.now.work ≡ Some image
        → under L.Law mtr.old.latches.now TakesFirst (beside (next_of image)) mtr.old.pass.now
        mtr.new.pass.now }
{
    let behind = right_of(mtr, last);
    take_beside(rt, mtr, behind);
}

/// Descends to the leaf of a key for a delete that may change the tree's structure
/// (`btr_cur_search_to_nth_level` with `BTR_MODIFY_TREE` and the intention to delete; the order of latches is
/// WL#6326's): the index is claimed in SX, and the path read page by page in S, each given up again at
/// once. Then the root is taken in X and loaded, and level by level below it, from left to right, the page of
/// the path with the pages beside it under the same parent; and last the leaf behind those of the leaf
/// level. The session holds nothing before, and the index is not watched; the key's path is answered.
pub fn descend_to_delete<L: Trees, R: Wait>(
    rt: &R,
    mtr: &mut Mtr<'_, L, Parkers>,
    root: u32,
    key: Key,
) -> Path
    requires may { MayDescend mtr.old.latches.now mtr.old.pass.now }
    requires unwatched { is_watched 1 mtr.old.pass.now.view.memory.since ≡ false }
    requires root { IsRoot L.ROOTS root }
    ensures still { IsStillMtr mtr.old mtr.new }
    ensures claimed { (held : List ℕ) × under L.Law mtr.old.latches.now HasClaimed root key result
        held mtr.old.pass.now mtr.new.pass.now × IsPathWithSiblings
        (pages_under L.Law mtr.old.latches.now mtr.new.pass.now) root key result held }
    ensures alone { is_claimed mtr.new.pass.now.view.memory.since ≡ true }
{
    facts_of_trees(mtr);
    claim_index(rt, mtr);
    let sought = Sought { root, key };
    let found = read_path(rt, mtr, sought);
    let last = take_rows(rt, mtr, &found.path, sought);
    take_behind(rt, mtr, last);
    found.path
}
