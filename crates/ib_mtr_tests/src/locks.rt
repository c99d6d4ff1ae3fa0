//! Latches that are waited for, onto the memo.

ghost use Rattle.ib_rule.specs.Takes.{MayTakeMore};
ghost use Rattle.ib_mtr.specs.Mtr.{IsMtr};

use crate::memos::{come, give, smallest};
use ib_latch::Latches;
use ib_levels::{Latch, Level, Mode};
use ib_logrec::AnyLaw;
use ib_mtr::Mtr;
use std::process::Abort;

type Work<'a> = Mtr<'a, AnyLaw>;

// The latch is one of the table's, which may be wished for or is claimed, and a grant may be taken.
pub(crate) fn may_claim(rt: &impl Abort, mtr: &Work<'_>, latch: Latch, level: Level)
    requires { IsMtr mtr.now.latches.now mtr.now.pass.now }
    ensures { MayTakeMore mtr.now.latches.now latch.0 level mtr.now.pass.now }
{
    assert!(rt; latch.0 < mtr.geometry().pages() + 2);
    assert!(rt; mtr.pass().may_grow());
    let counts = mtr.pass().counts(latch);
    assert!(rt; counts.s == 0);
    assert!(rt; counts.sx > 0 || counts.x > 0 || mtr.pass().can_wish(latch, level));
}

#[test]
fn each_mode_is_waited_for(rt: HostRuntime) {
    let mut table: Latches<AnyLaw> = smallest(&rt, rt.alloc());
    let mut one = come(&rt, rt.alloc(), &mut table);
    let mut mtr = Mtr::start(&table, &mut one);
    may_claim(&rt, &mtr, Latch::INDEX, Level::IndexTree);
    mtr.sx_latch(&rt, Latch::INDEX, Level::IndexTree);
    may_claim(&rt, &mtr, Latch(3), Level::TreeNode);
    mtr.x_latch(&rt, Latch(3), Level::TreeNode);
    may_claim(&rt, &mtr, Latch(3), Level::TreeNode);
    mtr.sx_latch(&rt, Latch(3), Level::TreeNode);
    may_claim(&rt, &mtr, Latch(5), Level::TreeNode);
    assert!(rt; mtr.pass().can_wish(Latch(5), Level::TreeNode));
    mtr.s_latch(&rt, Latch(5), Level::TreeNode);
    assert_eq!(rt;
        mtr.memo()
            .to_vec(rt.alloc())
            .expect(&rt, "there is memory")
            .as_slice(),
        [
            (Latch::INDEX, Mode::Sx),
            (Latch(3), Mode::X),
            (Latch(3), Mode::Sx),
            (Latch(5), Mode::S)
        ]
        .as_slice()
    );
    assert_eq!(rt; mtr.position(Latch(3)), Some(2));
    give(&rt, &mut mtr, 3);
    give(&rt, &mut mtr, 2);
    give(&rt, &mut mtr, 1);
    give(&rt, &mut mtr, 0);
    assert_eq!(rt; mtr.savepoint(), 0);
    mtr.finish();
    assert_eq!(rt; one.grants_held(), 0);
    table.disconnect(one);
    assert_eq!(rt; table.connected(), 0);
    table.discard();
}
