//! A memo of three latches, and a page that leaves with its latch.

ghost use Rattle.std.specs.Prelude.{◌≡◌, ◌+◌, ◌<◌, ℕ, []};
ghost use Rattle.ib_core.specs.Sessions.{holdings};
ghost use Rattle.ib_rule.specs.Pass.{IsAtRest};
ghost use Rattle.ib_mtr.specs.Mtr.{IsMtr, IsStillMtr, IsUnchangedOn};

use ib_latch::{Latches, NoSleep, Sleep, TryFault};
use ib_layout::Geometry;
use ib_levels::{Latch, Level, Mode};
use ib_logrec::AnyLaw;
use ib_mtr::Mtr;
use ib_rule::Pass;
use std::alloc::Global;
use std::process::Abort;

type Work<'a> = Mtr<'a, AnyLaw, NoSleep>;

// A table of 16 pages, with the shortest log.
pub(crate) fn smallest<S: Sleep>(rt: &impl Abort, alloc: Global) -> Latches<AnyLaw, S> {
    let sizes = Geometry::new(16, 8196).expect(rt, "there are such sizes");
    Latches::open(alloc, sizes).expect(rt, "there is memory")
}

pub(crate) fn come<S: Sleep>(rt: &impl Abort, alloc: Global, table: &mut Latches<AnyLaw, S>) -> Pass
    ensures rest { IsAtRest table.new result }
    ensures table { table.new.table ≡ table.old.table }
    ensures sizes { table.new.sizes ≡ table.old.sizes }
{
    table.connect(alloc).expect(rt, "a session")
}

// S on a latch.
fn s(rt: &impl Abort, mtr: &mut Work<'_>, latch: Latch, level: Level) -> Result<(), TryFault>
    requires mtr { IsMtr mtr.old.latches.now mtr.old.pass.now }
    ensures still { IsStillMtr mtr.old mtr.new }
    ensures work { mtr.new.pass.now.work ≡ mtr.old.pass.now.work }
{
    assert!(rt; latch.0 < mtr.geometry().pages() + 2);
    assert!(rt; mtr.pass().may_grow());
    assert!(rt; mtr.pass().can_wish(latch, level));
    mtr.try_s_latch(latch, level)
}

// The grant at a place of the memo is given back, while no page is changed.
pub(crate) fn give<S: Sleep>(rt: &impl Abort, mtr: &mut Mtr<'_, AnyLaw, S>, at: usize)
    requires mtr { IsMtr mtr.old.latches.now mtr.old.pass.now }
    requires unchanged { (l : ℕ) → IsUnchangedOn l mtr.old.pass.now.work }
    ensures still { IsStillMtr mtr.old mtr.new }
    ensures none { mtr.old.pass.now.work ≡ [] → mtr.new.pass.now.work ≡ [] }
{
    assert!(rt; at < mtr.savepoint());
    mtr.release_at(at);
}

// S is held on the latch.
fn is_read(rt: &impl Abort, mtr: &Work<'_>, latch: Latch)
    ensures { 0 < holdings latch.0 mtr.now.pass.now.view.session }
{
    assert!(rt; mtr.pass().counts(latch).s > 0);
}

// A page whose latch is held is loaded, and no other is.
fn load(mtr: &mut Work<'_>, page: u32)
    requires mtr { IsMtr mtr.old.latches.now mtr.old.pass.now }
    requires none { mtr.old.pass.now.work ≡ [] }
    requires held { 0 < holdings (page + 2) mtr.old.pass.now.view.session }
    requires page { page < mtr.old.latches.now.sizes.pages }
    ensures still { IsStillMtr mtr.old mtr.new }
    ensures unchanged { (l : ℕ) → IsUnchangedOn l mtr.new.pass.now.work }
{
    mtr.load(page);
}

#[test]
fn a_memo_in_order_of_taking(rt: HostRuntime) {
    let mut table: Latches<AnyLaw, NoSleep> = smallest(&rt, rt.alloc());
    let mut one = come(&rt, rt.alloc(), &mut table);
    let mut mtr = Mtr::start(&table, &mut one);
    assert_eq!(rt; s(&rt, &mut mtr, Latch::INDEX, Level::IndexTree), Ok(()));
    assert_eq!(rt; s(&rt, &mut mtr, Latch(3), Level::TreeNode), Ok(()));
    assert_eq!(rt; s(&rt, &mut mtr, Latch(5), Level::TreeNode), Ok(()));
    assert_eq!(rt; (mtr.savepoint(), mtr.place()), (3, 0));
    assert_eq!(rt; mtr.position(Latch(5)), Some(2));
    give(&rt, &mut mtr, 1);
    assert_eq!(rt;
        (mtr.position(Latch(3)), mtr.position(Latch(5))),
        (None, Some(1))
    );
    assert_eq!(rt;
        mtr.memo()
            .to_vec(rt.alloc())
            .expect(&rt, "there is memory")
            .as_slice(),
        [(Latch::INDEX, Mode::S), (Latch(5), Mode::S)].as_slice()
    );
    give(&rt, &mut mtr, 0);
    give(&rt, &mut mtr, 0);
    assert_eq!(rt; mtr.savepoint(), 0);
    mtr.finish();
    assert_eq!(rt; (one.grants_held(), one.grants_taken().s), (0, 3));
    table.disconnect(one);
    assert_eq!(rt; table.connected(), 0);
    table.discard();
}

#[test]
fn a_page_leaves_with_its_latch(rt: HostRuntime) {
    let mut table: Latches<AnyLaw, NoSleep> = smallest(&rt, rt.alloc());
    let mut one = come(&rt, rt.alloc(), &mut table);
    let mut mtr = Mtr::start(&table, &mut one);
    assert_eq!(rt; s(&rt, &mut mtr, Latch(3), Level::TreeNode), Ok(()));
    is_read(&rt, &mtr, Latch(3));
    assert!(rt; 1 < mtr.geometry().pages());
    load(&mut mtr, 1);
    assert!(rt; mtr.image(1).is_some());
    give(&rt, &mut mtr, 0);
    assert_eq!(rt; (mtr.image(1).is_none(), mtr.savepoint()), (true, 0));
    mtr.finish();
    table.disconnect(one);
    assert_eq!(rt; table.connected(), 0);
    table.discard();
}
