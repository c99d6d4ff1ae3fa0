//! A reader that goes from a leaf to the next.

ghost use Rattle.std.specs.Prelude.{◌≡◌, ◌≢◌, ◌+◌, ◌≤◌, ◌<◌, [], IfSome};
ghost use Rattle.ib_levels.specs.declared.level.Level.TheVariants.{TreeNode};
ghost use Rattle.ib_core.specs.Holders.{CanWish};
ghost use Rattle.ib_page.specs.Image.{next_of};
ghost use Rattle.ib_page.specs.Work.{changed_of};
ghost use Rattle.ib_rule.specs.Conditions.{HasGrantsLeft, MayGrow};
ghost use Rattle.ib_mtr.specs.Mtr.{IsMtr, IsStillMtr};

use crate::rows::insert_up_to;
use crate::space::{come, open};
use ib_cursor::{Search, descend, next_leaf};
use ib_index::SharedSpace;
use ib_latch::Parkers;
use ib_levels::{Latch, Level};
use ib_map::{Key, MOST_PAGES};
use ib_mtr::Mtr;
use ib_tree::Trees;
use std::process::Abort;
use std::sync::Wait;

// It may take a way's latches: it has taken few grants.
fn may_descend<L: Trees>(rt: &impl Abort, mtr: &Mtr<'_, L, Parkers>)
    ensures { HasGrantsLeft 64 mtr.now.pass.now.view }
{
    let taken = mtr.pass().grants_taken();
    assert!(rt; taken.s < 1 << 40);
    assert!(rt; taken.sx < 1 << 40);
    assert!(rt; taken.x < 1 << 40);
}

// The next link of a leaf that is loaded, of which the page may be taken.
fn link_of<L: Trees>(rt: &impl Abort, mtr: &Mtr<'_, L, Parkers>, leaf: u32) -> u32
    requires mtr { IsMtr mtr.now.latches.now mtr.now.pass.now }
    ensures link { IfSome (changed_of leaf mtr.now.pass.now.work) (λ image. result ≡ next_of image) }
    ensures grows { MayGrow mtr.now.pass.now.view }
    ensures may { result ≢ 0 → CanWish (result + 2) TreeNode mtr.now.pass.now.view.session }
{
    let image = mtr.image(leaf).expect(rt, "the leaf is loaded");
    assert!(rt; image.is_formed());
    let next = image.next();
    assert!(rt; next < MOST_PAGES);
    assert!(rt; mtr.pass().may_grow());
    assert!(rt; next == 0 || mtr.pass().can_wish(Latch::page(next), Level::TreeNode));
    next
}

// Descends to the leaf of a key, and goes on to the next: which leaves these are.
fn leaf_and_next<L: Trees, R: Abort + Wait>(
    rt: &R,
    mtr: &mut Mtr<'_, L, Parkers>,
    key: Key,
) -> (u32, Option<u32>)
    requires mtr { IsMtr mtr.old.latches.now mtr.old.pass.now }
    requires memo { mtr.old.pass.now.memo ≡ [] }
    requires none { mtr.old.pass.now.work ≡ [] }
    requires root { 1 ≤ L.ROOTS }
    ensures still { IsStillMtr mtr.old mtr.new }
{
    L::trees_law();
    let _ = mtr.geometry().pages();
    may_descend(rt, mtr);
    let path = descend(rt, mtr, Search::Find, key);
    let leaf = path.last().unwrap();
    let _ = link_of(rt, mtr, leaf);
    (leaf, next_leaf(rt, mtr, leaf))
}

#[test]
fn a_reader_goes_on_to_the_next_leaf(rt: HostRuntime) {
    let mut index = open(&rt, rt.alloc(), 16384);
    let mut one = come(&rt, rt.alloc(), &mut index);
    insert_up_to(&rt, &index, &mut one, 36);
    let before = one.grants_taken().s;
    assert!(rt; before < 1000);
    let mut mtr = Mtr::start(index.latches(), &mut one);
    assert_eq!(rt;
        leaf_and_next(&rt, &mut mtr, Key::of_number(5)),
        (2, Some(3))
    );
    assert!(rt; mtr.image(2).is_none());
    assert!(rt; mtr.image(3).is_some());
    assert_eq!(rt; mtr.commit_read(), 36);
    assert_eq!(rt; one.grants_taken().s, before + 4);
    let mut mtr = Mtr::start(index.latches(), &mut one);
    assert_eq!(rt; leaf_and_next(&rt, &mut mtr, Key::of_number(36)), (3, None));
    assert!(rt; mtr.image(3).is_some());
    assert_eq!(rt; mtr.commit_read(), 36);
    index.disconnect(one);
    assert_eq!(rt; index.connected(), 0);
    index.discard();
}
