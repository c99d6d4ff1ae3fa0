//! An insert planned on the images of all pages.

ghost use Rattle.std.specs.Prelude.{◌≡◌, ◌+◌, ◌<◌, ◌≤◌, None, length, IfOk, IfErr, OnOk};
ghost use Rattle.std.specs.List.{All};
ghost use Rattle.ib_map.specs.Pairs.{value_at};
ghost use Rattle.ib_map.specs.declared.call.Change.TheVariants.{Insert};
ghost use Rattle.ib_heap.specs.declared.TheConstants.{MOST_RECORDS};
ghost use Rattle.ib_page.specs.declared.path.TheConstants.{MOST_PATH};
ghost use Rattle.ib_page.specs.declared.work.TheConstants.{MOST_WORK_PAGES};
ghost use Rattle.ib_plans.specs.Agreement.{IsThere, last_of};
ghost use Rattle.ib_planned_change.specs.Copies.{IsBehindSome, AreCopies, HasCopied};
ghost use Rattle.ib_planned_change.specs.Changes.{IsPlannedForAll, IsRefusedForAll};
ghost use Rattle.ib_planned_change.specs.Steps.{ForAllPages, HasBehind, IsBeforeTree, IsFreshForAll, IsFullForAll, IsLeafForAll, IsPathForAll};

use crate::copies::{copy, copy_all, image_at};
use crate::descent::path_to;
use crate::leaf::put_pair;
use crate::refused::Refused;
use ib_logrec::FullKind;
use ib_map::Key;
use ib_page::{Image, MOST_RECORDS, Path, WorkSet};
use ib_split::{choose_pages, pages_needed, plan_insert};

// Plans an insert: in the work set are the pages that it reads and writes, as they were and as they are then.
pub(crate) fn insert(
    work: &mut WorkSet,
    images: &[Image],
    key: Key,
    value: u64,
) -> Result<(), Refused>
    requires { IsBehindSome images.now }
    ensures planned { OnOk result (IsPlannedForAll (Insert key value) images.now work.new) }
    ensures refused { IfErr result (IsRefusedForAll (Insert key value) images.now) }
{
    let path = path_to(images, key);
    let leaf = path.pages()[path.len() - 1];
    let image = image_at(images, leaf);
    if image.get(key).is_some() {
        return Err(Refused::Unmade);
    }
    if image.len() < MOST_RECORDS {
        insert_in_leaf(work, images, leaf, key, value);
        return Ok(());
    }
    match insert_in_tree(work, images, &path, key, value) {
        Ok(()) => Ok(()),
        Err(why) => Err(Refused::Full { why }),
    }
}

// The insert that changes the key's leaf alone, which has room (`btr_cur_optimistic_insert`).
fn insert_in_leaf(work: &mut WorkSet, images: &[Image], leaf: u32, key: Key, value: u64)
    requires some { IsBehindSome images.now }
    requires leaf { IsLeafForAll images.now key leaf (λ page. (value_at key page.records ≡ None) × (length page.records < MOST_RECORDS)) }
    ensures { IsPlannedForAll (Insert key value) images.now work.new }
{
    work.clear();
    work.add(leaf, image_at(images, leaf));
    put_pair(work.edit(leaf), key, value);
    // For the proof: the pages of a work set ascend.
    let _ = work.len();
}

// The insert that may change the tree's structure (`btr_cur_pessimistic_insert`).
fn insert_in_tree(
    work: &mut WorkSet,
    images: &[Image],
    path: &Path,
    key: Key,
    value: u64,
) -> Result<(), FullKind>
    requires some { IsBehindSome images.now }
    requires path { IsPathForAll images.now key path.now }
    requires missing { ForAllPages images.now (λ m. value_at key (m (last_of path.now)).records ≡ None) }
    ensures planned { OnOk result (IsPlannedForAll (Insert key value) images.now work.new) }
    ensures refused { IfErr result (IsFullForAll images.now key) }
{
    copy_path(work, images, path, key);
    let fresh = choose(work, images, path, key)?;
    copy_all(work, images, fresh.pages());
    let _ = plan_insert(work, path, &fresh, key, value);
    // For the proof: the pages of a work set ascend.
    let _ = work.len();
    Ok(())
}

// Copies the pages of the key's path, the leaf behind the last of them, and page 0.
fn copy_path(work: &mut WorkSet, images: &[Image], path: &Path, key: Key)
    requires some { IsBehindSome images.now }
    requires path { IsPathForAll images.now key path.now }
    ensures copies { AreCopies images.now work.new }
    ensures path { All (IsThere work.new) path.now }
    ensures behind { ForAllPages images.now (λ m. HasBehind m work.new (last_of path.now)) }
    ensures space { IsThere work.new 0 }
    ensures count { length work.new ≤ length path.now + 2 }
{
    // For the proof: a path is short.
    let _ = path.len();
    work.clear();
    copy_all(work, images, path.pages());
    copy_behind(work, images, path.pages()[path.len() - 1]);
    copy(work, images, 0);
}

// Copies the leaf behind a page, where there is one.
pub(crate) fn copy_behind(work: &mut WorkSet, images: &[Image], page: u32)
    requires some { IsBehindSome images.now }
    requires trees { ForAllPages images.now (λ m. IsBeforeTree m page) }
    requires room { length work.old < MOST_WORK_PAGES }
    ensures copied { HasCopied images.now 1 work.old work.new }
    ensures behind { ForAllPages images.now (λ m. HasBehind m work.new page) }
{
    let next = image_at(images, page).next();
    if next != 0 {
        copy(work, images, next);
    }
}

// The fresh pages that the insert takes, or what is full.
fn choose(work: &WorkSet, images: &[Image], path: &Path, key: Key) -> Result<Path, FullKind>
    requires some { IsBehindSome images.now }
    requires path { IsPathForAll images.now key path.now }
    requires copies { AreCopies images.now work.now }
    requires there { All (IsThere work.now) path.now }
    requires space { IsThere work.now 0 }
    ensures fresh { IfOk result (IsFreshForAll images.now key) }
    ensures few { IfOk result (λ fresh. length fresh ≤ MOST_PATH) }
    ensures refused { IfErr result (IsFullForAll images.now key) }
{
    let Ok(need) = pages_needed(work, path, 1) else {
        return Err(FullKind::High);
    };
    let Ok(fresh) = choose_pages(work, images.len() as u32, need) else {
        return Err(FullKind::Space);
    };
    // For the proof: so are these.
    let _ = fresh.len();
    Ok(fresh)
}
