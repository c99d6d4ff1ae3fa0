//! Lookups in a new tree, whose root is its one leaf.

ghost use Rattle.std.specs.Prelude.{◌≡◌, ◌<◌, true};
ghost use Rattle.ib_core.specs.Sessions.{idle};
ghost use Rattle.ib_rule.specs.Conditions.{HasGrantsLeft};
ghost use Rattle.ib_rule.specs.Pass.{IsOf};

use crate::space::come;
use ib_core::Phase;
use ib_cursor::{NowaitFault, descend_nowait};
use ib_index::{Index, SharedSpace};
use ib_latch::{NoSleep, Sleep, TryFault};
use ib_layout::Geometry;
use ib_levels::{Latch, Level};
use ib_map::{Call, Key, Record, Reply};
use ib_mtr::Mtr;
use ib_rule::Pass;
use ib_word::LockWord;
use std::alloc::Global;
use std::process::Abort;

const ROOT: Latch = Latch(3);

// An index on 16 pages, with the shortest log.
fn smallest<S: Sleep>(rt: &impl Abort, alloc: Global) -> Index<S> {
    let sizes = Geometry::new(16, 8196).expect(rt, "there are such sizes");
    Index::open(alloc, sizes).expect(rt, "there is memory")
}

// It may make a call.
fn may_call(rt: &impl Abort, pass: &Pass)
    ensures idle { pass.now.view.session ≡ idle }
    ensures room { HasGrantsLeft 16384 pass.now.view }
{
    assert!(rt; pass.is_idle());
    let taken = pass.grants_taken();
    assert!(rt; taken.s < 1 << 40);
    assert!(rt; taken.sx < 1 << 40);
    assert!(rt; taken.x < 1 << 40);
}

fn leave<S: Sleep>(rt: &impl Abort, index: &mut Index<S>, pass: Pass)
    requires own { IsOf index.old pass }
    requires scratch { pass.has_scratch ≡ true }
    ensures table { index.new.table ≡ index.old.table }
    ensures sizes { index.new.sizes ≡ index.old.sizes }
{
    assert!(rt; pass.is_idle());
    index.disconnect(pass);
}

fn not_found(key: Key) -> Record {
    Record {
        call: Call::Get { key },
        reply: Reply::NotFound,
        place: 0,
    }
}

#[test]
fn a_lookup_takes_the_index_and_the_root(rt: HostRuntime) {
    let mut index: Index = smallest(&rt, rt.alloc());
    let mut one = come(&rt, rt.alloc(), &mut index);
    let five = Key::of_number(5);
    may_call(&rt, &one);
    assert_eq!(rt; index.get(&rt, &mut one, five), not_found(five));
    may_call(&rt, &one);
    assert_eq!(rt;
        index.get(&rt, &mut one, Key::least()),
        not_found(Key::least())
    );
    may_call(&rt, &one);
    assert_eq!(rt;
        index.get(&rt, &mut one, Key::greatest()),
        not_found(Key::greatest())
    );
    let taken = one.grants_taken();
    assert_eq!(rt; (taken.s, taken.sx, taken.x), (6, 0, 0));
    index.disconnect(one);
    assert_eq!(rt; index.connected(), 0);
    index.discard();
}

// X on the root, for who asks at once.
fn own_root(rt: &impl Abort, index: &Index<NoSleep>, pass: &mut Pass) -> Result<(), TryFault>
    requires own { IsOf index.now pass.old }
    requires idle { pass.old.view.session ≡ idle }
    ensures own { IsOf index.now pass.new }
    ensures scratch { pass.new.has_scratch ≡ pass.old.has_scratch }
{
    assert!(rt; index.latches().space().geometry().pages() > 1);
    assert!(rt; pass.may_grow());
    assert!(rt; pass.can_wish(ROOT, Level::TreeNode));
    index.latches().try_x(pass, ROOT, Level::TreeNode)
}

fn leave_root(rt: &impl Abort, index: &Index<NoSleep>, pass: &mut Pass)
    requires own { IsOf index.now pass.old }
    ensures own { IsOf index.now pass.new }
    ensures scratch { pass.new.has_scratch ≡ pass.old.has_scratch }
{
    assert!(rt; index.latches().space().geometry().pages() > 1);
    assert!(rt; pass.phase() == Phase::Free);
    assert!(rt; pass.counts(ROOT).x > 0);
    index.latches().unlock_x(pass, ROOT);
}

// The lock word of the index.
fn index_word(rt: &impl Abort, index: &Index<NoSleep>, pass: &mut Pass) -> LockWord
    requires own { IsOf index.now pass.old }
    requires idle { pass.old.view.session ≡ idle }
    ensures own { IsOf index.now pass.new }
    ensures scratch { pass.new.has_scratch ≡ pass.old.has_scratch }
{
    assert!(rt; index.latches().space().geometry().pages() > 1);
    index.latches().word_of(pass, Latch::INDEX)
}

#[test]
fn who_does_not_wait_is_told_what_is_in_the_way(rt: HostRuntime) {
    let mut index: Index<NoSleep> = smallest(&rt, rt.alloc());
    let mut one = come(&rt, rt.alloc(), &mut index);
    let mut two = come(&rt, rt.alloc(), &mut index);
    assert_eq!(rt; own_root(&rt, &index, &mut one), Ok(()));
    may_call(&rt, &two);
    let busy = NowaitFault::Busy {
        latch: ROOT,
        word: LockWord(0),
    };
    assert_eq!(rt; index.get_nowait(&mut two, Key::of_number(5)), Err(busy));
    assert_eq!(rt; two.grants_taken().s, 1);
    may_call(&rt, &two);
    assert_eq!(rt; index_word(&rt, &index, &mut two), LockWord(536_870_912));
    leave_root(&rt, &index, &mut one);
    may_call(&rt, &two);
    let five = Key::of_number(5);
    assert_eq!(rt; index.get_nowait(&mut two, five), Ok(not_found(five)));
    leave(&rt, &mut index, one);
    leave(&rt, &mut index, two);
    assert_eq!(rt; index.connected(), 0);
    index.discard();
}

#[test]
fn a_descent_that_does_not_wait_is_refused_beside_a_writer(rt: HostRuntime) {
    let mut index: Index<NoSleep> = smallest(&rt, rt.alloc());
    let mut one = come(&rt, rt.alloc(), &mut index);
    let mut two = come(&rt, rt.alloc(), &mut index);
    assert_eq!(rt; own_root(&rt, &index, &mut one), Ok(()));
    may_call(&rt, &two);
    let mut mtr = Mtr::start(index.latches(), &mut two);
    let busy = NowaitFault::Busy {
        latch: ROOT,
        word: LockWord(0),
    };
    match descend_nowait(&mut mtr, Key::of_number(5)) {
        Ok(_) => panic!(rt; "the root is owned by another"),
        Err(fault) => assert_eq!(rt; fault, busy),
    }
    assert!(rt; mtr.image(1).is_none());
    assert_eq!(rt; mtr.commit_read(), 0);
    assert_eq!(rt; two.grants_taken().s, 1);
    leave_root(&rt, &index, &mut one);
    may_call(&rt, &two);
    let mut mtr = Mtr::start(index.latches(), &mut two);
    match descend_nowait(&mut mtr, Key::of_number(5)) {
        Ok(path) => assert_eq!(rt; path.pages(), [1].as_slice()),
        Err(_) => panic!(rt; "nobody is in the way"),
    }
    assert!(rt; mtr.image(1).is_some());
    assert_eq!(rt; mtr.commit_read(), 0);
    let taken = two.grants_taken();
    assert_eq!(rt; (taken.s, taken.sx, taken.x), (3, 0, 0));
    leave(&rt, &mut index, one);
    leave(&rt, &mut index, two);
    assert_eq!(rt; index.connected(), 0);
    index.discard();
}
