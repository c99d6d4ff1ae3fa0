//! An insert and a delete by plan.

ghost use Rattle.std.specs.Prelude.{◌≡◌, ◌<◌, ◌≤◌, ◌-◌, length, get_or, IfOk};
ghost use Rattle.std.specs.List.{All};
ghost use Rattle.ib_map.specs.declared.TheConstants.{LEAST_PAGES, MOST_PAGES};
ghost use Rattle.ib_page.specs.Memory.{word_at};
ghost use Rattle.ib_walk.specs.Words.{bits_of, memory_of, IsLawfulMemory};
ghost use Rattle.ib_plans.specs.Agreement.{HasTreePages, IsThere};
ghost use Rattle.ib_merge.specs.Deletes.{HasSiblings, HasNext, nodes_on_path};
ghost use Rattle.ib_split.specs.Inserts.{HasFresh};
ghost use Rattle.ib_plan_tests.specs.Reads.{IsRead, HasBehind};

use crate::beside::{has_next, has_siblings, load_next, load_siblings};
use crate::pages::{has_page, has_pages, has_tree_pages, load, load_all, path_to, store};
use ib_map::Key;
use ib_merge::plan_delete;
use ib_page::{Image, Path, WorkSet};
use ib_plans::TreeFault;
use ib_split::{choose_pages, pages_needed, plan_insert};
use ib_tree::check_tree;
use std::process::Abort;

// Inserts a record into the one tree of a memory, whose pages are lawful.
pub(crate) fn insert(
    rt: &impl Abort,
    work: &mut WorkSet,
    memory: &mut [Image],
    key: Key,
    value: u64,
) -> Result<(), TreeFault>
    requires least { LEAST_PAGES ≤ length memory.old }
    requires most { length memory.old ≤ MOST_PAGES }
    ensures { length memory.new ≡ length memory.old }
{
    let path = read_path(rt, work, memory, key);
    let fresh = choose_fresh(rt, work, memory, &path, key)?;
    load_all(rt, work, memory, fresh.pages());
    load_next(rt, work, memory, path.pages()[path.len() - 1]);
    check_insert(rt, work, &path, &fresh);
    plan_insert(work, &path, &fresh, key, value)?;
    store(rt, memory, work);
    Ok(())
}

// Deletes a key from the one tree of a memory, whose pages are lawful.
pub(crate) fn delete(
    rt: &impl Abort,
    work: &mut WorkSet,
    memory: &mut [Image],
    key: Key,
) -> Result<u64, TreeFault>
    requires least { LEAST_PAGES ≤ length memory.old }
    requires most { length memory.old ≤ MOST_PAGES }
    ensures { length memory.new ≡ length memory.old }
{
    let path = read_path(rt, work, memory, key);
    load_siblings(rt, work, memory, path.pages(), key);
    check_delete(rt, work, &path, key);
    let value = plan_delete(work, &path, key)?;
    store(rt, memory, work);
    Ok(value)
}

// The path of a key, and a work set with its pages and page 0.
fn read_path(rt: &impl Abort, work: &mut WorkSet, memory: &[Image], key: Key) -> Path
    requires least { LEAST_PAGES ≤ length memory.now }
    requires most { length memory.now ≤ MOST_PAGES }
    ensures read { IsRead memory.now key result work.new }
    ensures some { 0 < length result }
{
    check_lawful(rt, memory);
    work.clear();
    let path = path_to(rt, memory, 1, key);
    load_all(rt, work, memory, path.pages());
    load(rt, work, memory, 0);
    path
}

// The fresh pages for an insert of the key.
fn choose_fresh(
    rt: &impl Abort,
    work: &WorkSet,
    memory: &[Image],
    path: &Path,
    key: Key,
) -> Result<Path, TreeFault>
    requires read { IsRead memory.now key path.now work.now }
    requires some { 0 < length path.now }
    requires most { length memory.now ≤ MOST_PAGES }
    ensures { IfOk result (λ fresh. HasFresh (length memory.now) 1 1 key fresh (memory_of memory.now) (bits_of (length memory.now) (word_at memory.now))) }
{
    check_path(rt, work, path);
    let need = pages_needed(work, path, 1)?;
    choose_pages(work, memory.len() as u32, need)
}

// The pages are those of a lawful tree.
fn check_lawful(rt: &impl Abort, memory: &[Image])
    requires least { LEAST_PAGES ≤ length memory.now }
    requires most { length memory.now ≤ MOST_PAGES }
    ensures { IsLawfulMemory (length memory.now) 1 (word_at memory.now) }
{
    assert!(rt; check_tree(memory, 1));
}

// All that is read before the fresh pages are chosen is there.
pub(crate) fn check_path(rt: &impl Abort, work: &WorkSet, path: &Path)
    ensures there { HasTreePages path.now work.now }
    ensures space { IsThere work.now 0 }
{
    assert!(rt; has_tree_pages(work, path.pages()));
    assert!(rt; has_page(work, 0));
}

// All that an insert reads is there.
fn check_insert(rt: &impl Abort, work: &WorkSet, path: &Path, fresh: &Path)
    requires { 0 < length path.now }
    ensures path { HasTreePages path.now work.now }
    ensures fresh { All (IsThere work.now) fresh.now }
    ensures next { HasNext work.now (get_or path.now (length path.now - 1) 0) }
    ensures space { IsThere work.now 0 }
{
    assert!(rt; has_tree_pages(work, path.pages()));
    assert!(rt; has_pages(work, fresh.pages()));
    assert!(rt; has_next(work, path.pages()[path.len() - 1]));
    assert!(rt; has_page(work, 0));
}

// All that a delete reads is there.
fn check_delete(rt: &impl Abort, work: &WorkSet, path: &Path, key: Key)
    requires { 0 < length path.now }
    ensures path { HasTreePages path.now work.now }
    ensures siblings { All (HasSiblings key work.now) (nodes_on_path path.now) }
    ensures behind { All (HasBehind key work.now) (nodes_on_path path.now) }
    ensures space { IsThere work.now 0 }
{
    assert!(rt; has_tree_pages(work, path.pages()));
    assert!(rt; has_siblings(work, path.pages(), key));
    assert!(rt; has_page(work, 0));
}
