//! From a leaf to the next.

ghost use Rattle.std.specs.Prelude.{◌≡◌, MatchOption};
ghost use Rattle.ib_page.specs.Image.{next_of};
ghost use Rattle.ib_rule.specs.Under.{under};
ghost use Rattle.ib_mtr.specs.Mtr.{IsMtr, IsStillMtr};
ghost use Rattle.ib_cursor.specs.Nexts.{HoldsNext, HeldLeaf};

use crate::claim::right_of;
use crate::latch_page::{read, take};
use ib_latch::Parkers;
use ib_levels::{Latch, Level, Mode};
use ib_mtr::Mtr;
use ib_tree::Trees;
use std::sync::Wait;

/// Goes from a leaf to the next (`btr_pcur_move_to_next_page`): the next leaf's latch is taken in S and
/// the leaf loaded, and only then the old leaf's is given up. The old leaf is after all entries seen then
/// as it was read, so the next one is the one that its link names. None exactly where there is none, and
/// then nothing is changed.
pub fn next_leaf<L: Trees, R: Wait>(rt: &R, mtr: &mut Mtr<'_, L, Parkers>, leaf: u32) -> Option<u32>
    requires mtr { IsMtr mtr.old.latches.now mtr.old.pass.now }
    requires held { under L.Law mtr.old.latches.now HeldLeaf L.ROOTS leaf mtr.old.pass.now }
    ensures still { IsStillMtr mtr.old mtr.new }
    ensures next { (h : under L.Law mtr.old.latches.now HeldLeaf L.ROOTS leaf mtr.old.pass.now)
        → MatchOption result ((next_of h.image ≡ 0) × (mtr.new.pass.now ≡ mtr.old.pass.now))
        (λ next. under L.Law mtr.old.latches.now HoldsNext L.ROOTS h.front leaf h.image h.range
        next mtr.old.pass.now mtr.new.pass.now) }
{
    // For the proof: the laws of trees, at the number of pages that the space has.
    L::trees_law();
    let _ = mtr.geometry().pages();
    let next = right_of(mtr, leaf);
    if next == 0 {
        return None;
    }
    let at = mtr.position(Latch::page(leaf)).unwrap();
    take(rt, mtr, Latch::page(next), Mode::S, Level::TreeNode);
    read(mtr, next);
    mtr.release_at(at);
    Some(next)
}
