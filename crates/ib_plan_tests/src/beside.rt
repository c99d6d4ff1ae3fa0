//! The pages beside those of a path, which a delete may merge.

ghost use Rattle.std.specs.Prelude.{◌<◌, length, IsTrue, IfSome};
ghost use Rattle.std.specs.List.{All};
ghost use Rattle.ib_plans.specs.Agreement.{IsThere};
ghost use Rattle.ib_merge.specs.Deletes.{HasSiblings, HasNext, nodes_on_path};
ghost use Rattle.ib_plan_tests.specs.Reads.{IsReadFrom, HasBehind};

use crate::pages::{beside_in, has_page, image_at, is_node_for, load, next_of, page_number};
use ib_map::Key;
use ib_merge::records_beside;
use ib_page::{Image, WorkSet};
use std::process::Abort;

// Has the pages beside those of a path in the work set, and the leaves behind them.
pub(crate) fn load_siblings(
    rt: &impl Abort,
    work: &mut WorkSet,
    memory: &[Image],
    path: &[u32],
    key: Key,
)
    requires read { IsReadFrom memory.now work.old }
    requires some { 0 < length path.now }
    ensures { IsReadFrom memory.now work.new }
{
    for height in 0..path.len() - 1 {
        load_beside(rt, work, memory, path[height], key);
    }
}

// .. of the key's child under a node.
fn load_beside(rt: &impl Abort, work: &mut WorkSet, memory: &[Image], parent: u32, key: Key)
    requires { IsReadFrom memory.now work.old }
    ensures { IsReadFrom memory.now work.new }
{
    let beside = beside_in(rt, image_at(rt, memory, parent), key);
    if let Some((_, left)) = beside.left {
        load(rt, work, memory, page_number(rt, left));
    }
    let last = page_number(rt, beside.right.unwrap_or(beside.here).1);
    load(rt, work, memory, last);
    load_next(rt, work, memory, last);
}

// Has the leaf behind a page of the work set there too, where there is one.
pub(crate) fn load_next(rt: &impl Abort, work: &mut WorkSet, memory: &[Image], page: u32)
    requires { IsReadFrom memory.now work.old }
    ensures { IsReadFrom memory.now work.new }
{
    let next = next_of(work, page);
    if next != 0 {
        load(rt, work, memory, next);
    }
}

// Whether the pages beside those of a path are in the work set, and the leaves behind them.
pub(crate) fn has_siblings(work: &WorkSet, path: &[u32], key: Key) -> bool
    requires { 0 < length path.now }
    ensures { IsTrue result → All (HasSiblings key work.now) (nodes_on_path path.now) × All (HasBehind key work.now) (nodes_on_path path.now) }
{
    for height in 0..path.len() - 1 {
        if !has_beside(work, path[height], key) {
            return false;
        }
    }
    true
}

// .. those of the key's child under a node.
fn has_beside(work: &WorkSet, parent: u32, key: Key) -> bool
    ensures { IsTrue result → HasSiblings key work.now parent × HasBehind key work.now parent }
{
    let Some(image) = work.image(parent) else {
        return false;
    };
    if !is_node_for(image, key) {
        return false;
    }
    let beside = records_beside(image, key);
    has_record_page(work, beside.left)
        && has_record_page(work, beside.right)
        && has_next_of(work, beside.right.unwrap_or(beside.here).1)
}

// Whether the page of a record, where there is one, is in the work set.
fn has_record_page(work: &WorkSet, beside: Option<(Key, u64)>) -> bool
    ensures { IsTrue result → IfSome beside (λ r. IsThere work.now r.1) }
{
    match beside {
        Some((_, page)) => page <= u32::MAX as u64 && has_page(work, page as u32),
        None => true,
    }
}

// .. the leaf behind the page of a record.
fn has_next_of(work: &WorkSet, page: u64) -> bool
    ensures { IsTrue result → HasNext work.now page }
{
    page <= u32::MAX as u64 && has_next(work, page as u32)
}

// Whether the leaf behind a page, where there is one, is in the work set.
pub(crate) fn has_next(work: &WorkSet, page: u32) -> bool
    ensures { IsTrue result → HasNext work.now page }
{
    let next = next_of(work, page);
    next == 0 || has_page(work, next)
}
