//! Mini-transactions that never wait: a page tried in X, the index in SX, and a commit that tries the log latch.

ghost use Rattle.std.specs.Prelude.{◌≡◌, ◌<◌, []};
ghost use Rattle.ib_rule.specs.Pass.{IsAtRest};
ghost use Rattle.ib_mtr.specs.Mtr.{IsMtr, IsStillMtr};

use crate::commits::{Table, Work, load_owned, may_commit, small, touch};
use crate::locks::may_claim;
use crate::memos::{come, give};
use ib_frames::LogFull;
use ib_latch::TryFault;
use ib_levels::{Latch, Level};
use ib_map::{Change, Key};
use ib_mtr::{CommitFault, Mtr};
use ib_rule::Pass;
use ib_word::LockWord;
use std::process::Abort;

// X on a latch that is not held in SX, by a try.
fn try_x(rt: &impl Abort, mtr: &mut Work<'_>, latch: Latch, level: Level) -> Result<(), TryFault>
    requires { IsMtr mtr.old.latches.now mtr.old.pass.now }
    ensures still { IsStillMtr mtr.old mtr.new }
    ensures work { mtr.new.pass.now.work ≡ mtr.old.pass.now.work }
{
    may_claim(rt, mtr, latch, level);
    assert!(rt; mtr.pass().counts(latch).sx == 0);
    mtr.try_x_latch(latch, level)
}

// A mini-transaction that touches the page, with each latch tried.
fn commit_touch(
    rt: &impl Abort,
    table: &Table,
    pass: &mut Pass,
    page: u32,
    value: u64,
) -> Result<u32, CommitFault>
    requires rest { IsAtRest table.now pass.old }
    requires page { page < 4096 }
    ensures rest { IsAtRest table.now pass.new }
{
    let key = Key::of_number(10);
    let mut mtr = Mtr::start(table, pass);
    try_x(rt, &mut mtr, Latch::page(page), Level::TreeNode).expect(rt, "nobody holds it");
    load_owned(rt, &mut mtr, page);
    touch(rt, &mut mtr, page);
    may_commit(rt, &mtr, key, value);
    mtr.commit_nowait(Change::Insert { key, value })
}

#[test]
fn a_commit_that_never_waits_is_refused_by_the_log_latch_alone(rt: HostRuntime) {
    let mut table = small(&rt, rt.alloc(), 8203);
    let mut one = come(&rt, rt.alloc(), &mut table);
    let mut two = come(&rt, rt.alloc(), &mut table);
    let mut holder = Mtr::start(&table, &mut two);
    assert_eq!(rt; try_x(&rt, &mut holder, Latch::LOG, Level::Log), Ok(()));
    let owned = LockWord(0);
    assert_eq!(rt;
        commit_touch(&rt, &table, &mut one, 3, 1),
        Err(CommitFault::LogRefused(TryFault::Busy { word: owned }))
    );
    assert_eq!(rt; (one.grants_held(), one.made(), one.place()), (0, 0, 0));
    give(&rt, &mut holder, 0);
    assert_eq!(rt; holder.savepoint(), 0);
    holder.finish();
    assert_eq!(rt; commit_touch(&rt, &table, &mut one, 3, 1), Ok(0));
    assert_eq!(rt; commit_touch(&rt, &table, &mut one, 3, 2), Ok(1));
    let full = LogFull {
        used: 14,
        cap: 8203,
    };
    assert_eq!(rt;
        commit_touch(&rt, &table, &mut one, 3, 3),
        Err(CommitFault::Full(full))
    );
    table.disconnect(one);
    table.disconnect(two);
    assert_eq!(rt; table.connected(), 0);
    table.discard();
}

#[test]
fn the_index_is_claimed_by_a_try_once(rt: HostRuntime) {
    let mut table = small(&rt, rt.alloc(), 8203);
    let mut one = come(&rt, rt.alloc(), &mut table);
    let mut two = come(&rt, rt.alloc(), &mut table);
    let mut first = Mtr::start(&table, &mut one);
    may_claim(&rt, &first, Latch::INDEX, Level::IndexTree);
    assert_eq!(rt; first.try_sx_latch(Latch::INDEX, Level::IndexTree), Ok(()));
    let mut second = Mtr::start(&table, &mut two);
    may_claim(&rt, &second, Latch::INDEX, Level::IndexTree);
    assert!(rt; second.try_sx_latch(Latch::INDEX, Level::IndexTree).is_err());
    assert_eq!(rt; second.savepoint(), 0);
    second.finish();
    give(&rt, &mut first, 0);
    assert_eq!(rt; first.savepoint(), 0);
    first.finish();
    table.disconnect(one);
    table.disconnect(two);
    assert_eq!(rt; table.connected(), 0);
    table.discard();
}
