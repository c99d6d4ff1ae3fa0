//! A reader that leaves a leaf, and comes back to where it was.

ghost use Rattle.std.specs.Prelude.{◌≡◌, ◌≤◌, []};
ghost use Rattle.ib_rule.specs.Conditions.{HasGrantsLeft};
ghost use Rattle.ib_rule.specs.Under.{under};
ghost use Rattle.ib_mtr.specs.Mtr.{IsMtr, IsStillMtr};
ghost use Rattle.ib_cursor.specs.Descent.{MayDescend};
ghost use Rattle.ib_cursor.specs.Positions.{IsPosition};

use crate::rows::{deleted, insert_up_to, inserted};
use crate::space::{come, delete, insert, open};
use ib_cursor::{Position, Restored, Search, descend, restore, store};
use ib_index::SharedSpace;
use ib_latch::Parkers;
use ib_map::Key;
use ib_mtr::Mtr;
use ib_tree::{Clocks, Trees};
use std::process::Abort;
use std::sync::Wait;

// It may take a page's latch and those of a path: it has taken few grants.
fn may_read<L: Trees>(rt: &impl Abort, mtr: &Mtr<'_, L, Parkers>)
    ensures { HasGrantsLeft 65 mtr.now.pass.now.view }
{
    let taken = mtr.pass().grants_taken();
    assert!(rt; taken.s < 1 << 40);
    assert!(rt; taken.sx < 1 << 40);
    assert!(rt; taken.x < 1 << 40);
}

// Descends to the leaf of a key, stores its position, and leaves it.
fn leave_leaf<L: Trees, R: Abort + Wait>(
    rt: &R,
    mtr: &mut Mtr<'_, L, Parkers>,
    key: Key,
) -> Position
    requires mtr { IsMtr mtr.old.latches.now mtr.old.pass.now }
    requires memo { mtr.old.pass.now.memo ≡ [] }
    requires none { mtr.old.pass.now.work ≡ [] }
    requires root { 1 ≤ L.ROOTS }
    ensures still { IsStillMtr mtr.old mtr.new }
    ensures may { MayDescend mtr.new.latches.now mtr.new.pass.now }
    ensures position { under L.Law mtr.new.latches.now (λ _. IsPosition) L.ROOTS
        mtr.new.pass.now.view.memory.seen result }
{
    // For the proof: the laws of trees, at the number of pages that the space has.
    L::trees_law();
    let _ = mtr.geometry().pages();
    may_read(rt, mtr);
    let path = descend(rt, mtr, Search::Find, key);
    let leaf = path.last().unwrap();
    may_read(rt, mtr);
    let position = store(mtr, leaf);
    mtr.release_at(0);
    position
}

// Comes back to a position, or to the leaf of the key: the page that is held, and whether it is the same.
fn come_back<L: Clocks, R: Abort + Wait>(
    rt: &R,
    mtr: &mut Mtr<'_, L, Parkers>,
    position: Position,
    key: Key,
) -> (u32, bool)
    requires may { MayDescend mtr.old.latches.now mtr.old.pass.now }
    requires root { 1 ≤ L.ROOTS }
    requires position { under L.Law mtr.old.latches.now (λ _. IsPosition) L.ROOTS
        mtr.old.pass.now.view.memory.seen position }
    ensures still { IsStillMtr mtr.old mtr.new }
{
    may_read(rt, mtr);
    match restore(rt, mtr, &position, key) {
        Restored::Same => (position.page, true),
        Restored::Moved { path } => (path.last().expect(rt, "a path ends"), false),
    }
}

// Others change the leaf behind it.
#[test]
fn a_leaf_that_nobody_wrote_is_the_same(rt: HostRuntime) {
    let mut index = open(&rt, rt.alloc(), 32768);
    let mut one = come(&rt, rt.alloc(), &mut index);
    let mut two = come(&rt, rt.alloc(), &mut index);
    insert_up_to(&rt, &index, &mut one, 36);
    let before = one.grants_taken().s;
    assert!(rt; before < 1000);
    let mut mtr = Mtr::start(index.latches(), &mut one);
    let position = leave_leaf(&rt, &mut mtr, Key::of_number(5));
    let stored = Position {
        page: 2,
        clock: 1,
        place: 36,
    };
    assert_eq!(rt; position, stored);
    assert_eq!(rt; insert(&rt, &index, &mut two, 40, 40), inserted(40, 40, 36));
    assert_eq!(rt;
        come_back(&rt, &mut mtr, position, Key::of_number(5)),
        (2, true)
    );
    assert!(rt; mtr.image(2).is_some());
    assert_eq!(rt; mtr.savepoint(), 1);
    assert_eq!(rt; mtr.commit_read(), 37);
    assert_eq!(rt; one.grants_taken().s, before + 4);
    index.disconnect(one);
    index.disconnect(two);
    assert_eq!(rt; index.connected(), 0);
    index.discard();
}

// A delete from the leaf raises its clock.
#[test]
fn a_leaf_that_was_written_is_descended_to(rt: HostRuntime) {
    let mut index = open(&rt, rt.alloc(), 32768);
    let mut one = come(&rt, rt.alloc(), &mut index);
    let mut two = come(&rt, rt.alloc(), &mut index);
    insert_up_to(&rt, &index, &mut one, 36);
    let before = one.grants_taken().s;
    assert!(rt; before < 1000);
    let mut mtr = Mtr::start(index.latches(), &mut one);
    let position = leave_leaf(&rt, &mut mtr, Key::of_number(5));
    assert_eq!(rt; delete(&rt, &index, &mut two, 7), deleted(7, 7, 36));
    assert_eq!(rt;
        come_back(&rt, &mut mtr, position, Key::of_number(5)),
        (2, false)
    );
    assert!(rt; mtr.image(2).is_some());
    assert_eq!(rt; mtr.savepoint(), 1);
    assert_eq!(rt; mtr.commit_read(), 37);
    assert_eq!(rt; one.grants_taken().s, before + 7);
    index.disconnect(one);
    index.disconnect(two);
    assert_eq!(rt; index.connected(), 0);
    index.discard();
}

// The leaf is merged into the one before it, and the root becomes the one leaf.
#[test]
fn a_leaf_that_was_merged_away_is_descended_to(rt: HostRuntime) {
    let mut index = open(&rt, rt.alloc(), 32768);
    let mut one = come(&rt, rt.alloc(), &mut index);
    let mut two = come(&rt, rt.alloc(), &mut index);
    insert_up_to(&rt, &index, &mut one, 36);
    let before = one.grants_taken().s;
    assert!(rt; before < 1000);
    let mut mtr = Mtr::start(index.latches(), &mut one);
    let position = leave_leaf(&rt, &mut mtr, Key::of_number(30));
    assert_eq!(rt; position.page, 3);
    assert_eq!(rt; delete(&rt, &index, &mut two, 36), deleted(36, 36, 36));
    assert_eq!(rt; delete(&rt, &index, &mut two, 35), deleted(35, 35, 37));
    assert_eq!(rt;
        come_back(&rt, &mut mtr, position, Key::of_number(30)),
        (1, false)
    );
    assert!(rt; mtr.image(3).is_none());
    assert!(rt; mtr.image(1).is_some());
    assert_eq!(rt; mtr.commit_read(), 38);
    assert_eq!(rt; one.grants_taken().s, before + 6);
    index.disconnect(one);
    index.disconnect(two);
    assert_eq!(rt; index.connected(), 0);
    index.discard();
}
