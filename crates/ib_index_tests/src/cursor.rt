//! The descent in a new tree, whose root is its one leaf.

ghost use Rattle.std.specs.Prelude.{◌≡◌, []};
ghost use Rattle.ib_rule.specs.Pass.{IsAtRest};
ghost use Rattle.ib_rule.specs.Views.{no_grants};

use ib_cursor::{Search, descend, descend_to_delete, descend_to_insert, find, find_nowait};
use ib_latch::{Latches, NoSleep, Sleep};
use ib_layout::Geometry;
use ib_map::Key;
use ib_mtr::Mtr;
use ib_rule::Pass;
use ib_tree::TreeLaw;
use std::alloc::Global;
use std::process::Abort;

// A table of 16 pages, with the shortest log.
fn smallest<S: Sleep>(rt: &impl Abort, alloc: Global) -> Latches<TreeLaw, S> {
    let sizes = Geometry::new(16, 8196).expect(rt, "there are such sizes");
    Latches::open(alloc, sizes).expect(rt, "there is memory")
}

fn come<S: Sleep>(rt: &impl Abort, alloc: Global, table: &mut Latches<TreeLaw, S>) -> Pass
    ensures rest { IsAtRest table.new result }
    ensures grants { result.view.grants ≡ no_grants }
    ensures since { result.view.memory.since ≡ [] }
    ensures table { table.new.table ≡ table.old.table }
    ensures sizes { table.new.sizes ≡ table.old.sizes }
{
    table.connect(alloc).expect(rt, "a session")
}

#[test]
fn a_reader_comes_to_the_root(rt: HostRuntime) {
    let mut table: Latches<TreeLaw> = smallest(&rt, rt.alloc());
    let mut one = come(&rt, rt.alloc(), &mut table);
    let mut mtr = Mtr::start(&table, &mut one);
    let path = descend(&rt, &mut mtr, Search::Find, Key::of_number(5));
    assert_eq!(rt; path.pages(), [1].as_slice());
    assert_eq!(rt; mtr.commit_read(), 0);
    let grants = one.grants_taken();
    assert_eq!(rt; (grants.s, grants.sx, grants.x), (2, 0, 0));
    table.disconnect(one);
    assert_eq!(rt; table.connected(), 0);
    table.discard();
}

#[test]
fn a_key_is_looked_up_on_the_root(rt: HostRuntime) {
    let mut table: Latches<TreeLaw> = smallest(&rt, rt.alloc());
    let mut one = come(&rt, rt.alloc(), &mut table);
    let mut mtr = Mtr::start(&table, &mut one);
    assert_eq!(rt; find(&rt, &mut mtr, Key::of_number(5)), None);
    assert_eq!(rt; mtr.commit_read(), 0);
    let grants = one.grants_taken();
    assert_eq!(rt; (grants.s, grants.sx, grants.x), (2, 0, 0));
    table.disconnect(one);
    assert_eq!(rt; table.connected(), 0);
    table.discard();
}

#[test]
fn who_changes_the_root_owns_it(rt: HostRuntime) {
    let mut table: Latches<TreeLaw> = smallest(&rt, rt.alloc());
    let mut one = come(&rt, rt.alloc(), &mut table);
    let mut mtr = Mtr::start(&table, &mut one);
    let path = descend(&rt, &mut mtr, Search::ModifyLeaf, Key::of_number(5));
    assert_eq!(rt; path.pages(), [1].as_slice());
    assert_eq!(rt; mtr.commit_read(), 0);
    let grants = one.grants_taken();
    assert_eq!(rt; (grants.s, grants.sx, grants.x), (2, 0, 1));
    table.disconnect(one);
    assert_eq!(rt; table.connected(), 0);
    table.discard();
}

#[test]
fn who_may_split_the_root_claims_the_index(rt: HostRuntime) {
    let mut table: Latches<TreeLaw> = smallest(&rt, rt.alloc());
    let mut one = come(&rt, rt.alloc(), &mut table);
    let mut mtr = Mtr::start(&table, &mut one);
    let path = descend_to_insert(&rt, &mut mtr, 1, Key::of_number(5));
    assert_eq!(rt; path.pages(), [1].as_slice());
    assert_eq!(rt; mtr.commit_read(), 0);
    let grants = one.grants_taken();
    assert_eq!(rt; (grants.s, grants.sx, grants.x), (1, 1, 1));
    table.disconnect(one);
    assert_eq!(rt; table.connected(), 0);
    table.discard();
}

#[test]
fn who_may_merge_pages_claims_the_index(rt: HostRuntime) {
    let mut table: Latches<TreeLaw> = smallest(&rt, rt.alloc());
    let mut one = come(&rt, rt.alloc(), &mut table);
    let mut mtr = Mtr::start(&table, &mut one);
    let path = descend_to_delete(&rt, &mut mtr, 1, Key::of_number(5));
    assert_eq!(rt; path.pages(), [1].as_slice());
    assert_eq!(rt; mtr.commit_read(), 0);
    let grants = one.grants_taken();
    assert_eq!(rt; (grants.s, grants.sx, grants.x), (1, 1, 1));
    table.disconnect(one);
    assert_eq!(rt; table.connected(), 0);
    table.discard();
}

#[test]
fn nobody_is_in_the_way(rt: HostRuntime) {
    let mut table: Latches<TreeLaw, NoSleep> = smallest(&rt, rt.alloc());
    let mut one = come(&rt, rt.alloc(), &mut table);
    let mut mtr = Mtr::start(&table, &mut one);
    match find_nowait(&mut mtr, Key::of_number(5)) {
        Ok(value) => assert_eq!(rt; value, None),
        Err(_) => assert!(rt; false),
    }
    assert_eq!(rt; mtr.commit_read(), 0);
    assert_eq!(rt; one.grants_taken().s, 2);
    table.disconnect(one);
    assert_eq!(rt; table.connected(), 0);
    table.discard();
}
