//! A delete planned on the images of all pages.

ghost use Rattle.std.specs.Prelude.{◌≡◌, ◌⊎◌, ◌↔◌, ◌+◌, ◌-◌, ◌*◌, ◌^◌, ◌<◌, ◌≤◌, None, Some, length, IsSome, IfSome, IsTrue, IfErr, OnOk};
ghost use Rattle.std.specs.List.{All};
ghost use Rattle.ib_map.specs.Pairs.{value_at};
ghost use Rattle.ib_map.specs.declared.call.Change.TheVariants.{Delete};
ghost use Rattle.ib_page.specs.Image.{IsFormed, records_of};
ghost use Rattle.ib_page.specs.declared.work.TheConstants.{MOST_WORK_PAGES};
ghost use Rattle.ib_plans.specs.declared.TheConstants.{FEWEST_RECORDS};
ghost use Rattle.ib_plans.specs.Agreement.{IsThere, last_of};
ghost use Rattle.ib_merge.specs.Deletes.{nodes_on_path};
ghost use Rattle.ib_planned_change.specs.Copies.{IsBehindSome, AreCopies, HasCopied};
ghost use Rattle.ib_planned_change.specs.Changes.{IsPlannedForAll, IsRefusedForAll};
ghost use Rattle.ib_planned_change.specs.Steps.{ForAllPages, HasBeside, HasLastBehind, IsBeforeTree, IsLastOf, IsLeafForAll, IsNodeForAll, IsPathForAll, last_beside};

use crate::copies::{copy, copy_all, image_at};
use crate::descent::{ROOT, path_to};
use crate::insert::copy_behind;
use crate::leaf::take_pair;
use crate::refused::Refused;
use ib_map::Key;
use ib_merge::{plan_delete, records_beside};
use ib_page::{Image, Path, WorkSet};
use ib_plans::FEWEST_RECORDS;

// Plans a delete: in the work set are the pages that it reads and writes, as they were and as they are then.
pub(crate) fn delete(work: &mut WorkSet, images: &[Image], key: Key) -> Result<(), Refused>
    requires { IsBehindSome images.now }
    ensures planned { OnOk result (IsPlannedForAll (Delete key) images.now work.new) }
    ensures refused { IfErr result (IsRefusedForAll (Delete key) images.now) }
{
    let path = path_to(images, key);
    let leaf = path.pages()[path.len() - 1];
    match image_at(images, leaf).get(key) {
        None => Err(Refused::Unmade),
        Some(_) => {
            delete_found(work, images, &path, leaf, key);
            Ok(())
        }
    }
}

// Plans the delete of a key that is there.
fn delete_found(work: &mut WorkSet, images: &[Image], path: &Path, leaf: u32, key: Key)
    requires some { IsBehindSome images.now }
    requires path { IsPathForAll images.now key path.now }
    requires leaf { IsLeafForAll images.now key leaf (λ page. IsSome (value_at key page.records)) }
    ensures { IsPlannedForAll (Delete key) images.now work.new }
{
    if leaves_enough(leaf, image_at(images, leaf)) {
        delete_in_leaf(work, images, leaf, key);
    } else {
        delete_in_tree(work, images, path, key);
    }
}

// Whether a leaf is the root, or keeps enough records when it loses one.
fn leaves_enough(leaf: u32, image: &Image) -> bool
    requires { IsFormed image.now }
    ensures { IsTrue result ↔ (leaf ≡ 1) ⊎ (FEWEST_RECORDS < length (records_of image.now)) }
{
    leaf == ROOT || image.len() > FEWEST_RECORDS
}

// The delete that changes the key's leaf alone, which is the root or keeps enough (`btr_cur_optimistic_delete`).
fn delete_in_leaf(work: &mut WorkSet, images: &[Image], leaf: u32, key: Key)
    requires some { IsBehindSome images.now }
    requires leaf { IsLeafForAll images.now key leaf (λ page. IsSome (value_at key page.records) × ((leaf ≡ 1) ⊎ (FEWEST_RECORDS < length page.records))) }
    ensures { IsPlannedForAll (Delete key) images.now work.new }
{
    work.clear();
    work.add(leaf, image_at(images, leaf));
    take_pair(work.edit(leaf), key);
    // For the proof: the pages of a work set ascend.
    let _ = work.len();
}

// The delete that may change the tree's structure (`btr_cur_pessimistic_delete`).
fn delete_in_tree(work: &mut WorkSet, images: &[Image], path: &Path, key: Key)
    requires some { IsBehindSome images.now }
    requires path { IsPathForAll images.now key path.now }
    requires there { ForAllPages images.now (λ m. IsSome (value_at key (m (last_of path.now)).records)) }
    ensures { IsPlannedForAll (Delete key) images.now work.new }
{
    copy_siblings(work, images, path, key);
    let _ = plan_delete(work, path, key);
    // For the proof: the pages of a work set ascend.
    let _ = work.len();
}

// Copies the pages of the key's path, those beside each under its parent, the leaf behind the last of these, and page 0.
fn copy_siblings(work: &mut WorkSet, images: &[Image], path: &Path, key: Key)
    requires some { IsBehindSome images.now }
    requires path { IsPathForAll images.now key path.now }
    ensures copies { AreCopies images.now work.new }
    ensures path { All (IsThere work.new) path.now }
    ensures beside { ForAllPages images.now (λ m. All (HasBeside m key work.new) (nodes_on_path path.now)) }
    ensures behind { ForAllPages images.now (λ m. HasLastBehind m key work.new path.now) }
    ensures space { IsThere work.new 0 }
    ensures count { length work.new ≤ 3 * length path.now }
{
    // For the proof: a path is short.
    let _ = path.len();
    work.clear();
    copy_all(work, images, path.pages());
    let last = copy_all_beside(work, images, path, key);
    copy_behind(work, images, last);
    copy(work, images, 0);
}

// Copies the pages beside each page of a path under its parent, and gives the rightmost of the lowest ones.
fn copy_all_beside(work: &mut WorkSet, images: &[Image], path: &Path, key: Key) -> u32
    requires some { IsBehindSome images.now }
    requires path { IsPathForAll images.now key path.now }
    requires room { length work.old + 2 * length path.now ≤ MOST_WORK_PAGES }
    ensures copied { HasCopied images.now (2 * (length path.now - 1)) work.old work.new }
    ensures beside { ForAllPages images.now (λ m. All (HasBeside m key work.new) (nodes_on_path path.now)) }
    ensures last { ForAllPages images.now (λ m. IsBeforeTree m result × IsLastOf m key path.now result) }
{
    let pages = path.pages();
    let mut last = ROOT;
    for depth in 0..pages.len() - 1 {
        last = copy_beside(work, images, pages[depth], key);
    }
    last
}

// Copies the pages beside the key's child under a node, and gives the rightmost of them and the child.
fn copy_beside(work: &mut WorkSet, images: &[Image], parent: u32, key: Key) -> u32
    requires some { IsBehindSome images.now }
    requires node { IsNodeForAll images.now key parent }
    requires room { length work.old + 2 ≤ MOST_WORK_PAGES }
    ensures copied { HasCopied images.now 2 work.old work.new }
    ensures beside { ForAllPages images.now (λ m. HasBeside m key work.new parent) }
    ensures last { ForAllPages images.now (λ m. IsBeforeTree m result × (result ≡ last_beside m key parent)) }
{
    let beside = records_beside(image_at(images, parent), key);
    copy_child(work, images, beside.left);
    copy_child(work, images, beside.right);
    beside.right.unwrap_or(beside.here).1 as u32
}

// Copies the page of a node's record, where there is one.
fn copy_child(work: &mut WorkSet, images: &[Image], child: Option<(Key, u64)>)
    requires few { length images.now < 2 ^ 32 }
    requires within { IfSome child (λ r. r.1 < length images.now) }
    requires room { length work.old < MOST_WORK_PAGES }
    ensures copied { HasCopied images.now 1 work.old work.new }
    ensures there { IfSome child (λ r. IsThere work.new r.1) }
{
    if let Some((_, page)) = child {
        copy(work, images, page as u32);
    }
}
