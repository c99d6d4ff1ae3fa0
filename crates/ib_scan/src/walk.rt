//! From leaf to leaf, and from chunk to chunk.

ghost use Rattle.std.specs.Prelude.{◌≡◌, true, MatchOption};
ghost use Rattle.ib_map.specs.Space.{has_pages};
ghost use Rattle.ib_logrec.specs.Log.{by_place};
ghost use Rattle.ib_rule.specs.Under.{under};
ghost use Rattle.ib_mtr.specs.Mtr.{IsMtr, IsStillMtr};
ghost use Rattle.ib_cursor.specs.Laws.{Laws};
ghost use Rattle.ib_scan.specs.Steps.{HasReachedEnd, HasRunToEnd, HasFront, HasRunToStop, HasPassed, HasSomeFront, IsAside, IsOnLeaf, IsScannedTo, MayPass};

use crate::part::{Part, part_of, put};
use ib_cursor::{Position, read, store, take};
use ib_latch::{Parkers, Sleep};
use ib_levels::{Latch, Level, Mode};
use ib_logrec::Law;
use ib_map::{Chunks, Key, after, is_same};
use ib_mtr::Mtr;
use ib_tree::Trees;
use std::sync::Wait;

// What is scanned: the keys from `low` to `high` in the tree of a root.
#[derive(Clone, Copy)]
pub(crate) struct Sought {
    pub(crate) root: u32,
    pub(crate) low: Key,
    pub(crate) high: Key,
}

/// The leaf in which a chunk ends, where it ends, and how many leaves before it are held.
#[derive(Clone, Copy)]
pub struct Found {
    pub leaf: u32,
    pub end: Key,
    pub passed: usize,
}

// Where a scan stopped: at the key at which the first chunk begins that found no room. The leaf that gave the
// chunk before it is kept, or where there was none the leaf on which the scan began.
#[derive(Clone, Copy)]
pub(crate) struct Stop {
    pub(crate) next: Key,
    pub(crate) kept: Position,
}

/// For proofs: the trees of the space obey their law, at its number of pages. It does nothing.
pub fn facts_of_trees<L: Trees, S: Sleep>(mtr: &Mtr<'_, L, S>)
    ensures laws { Laws mtr.now.latches.now.sizes.pages L.ROOTS
        (L.lawful mtr.now.latches.now.sizes.pages)
        (by_place L.opening mtr.now.latches.now.sizes.pages) }
    ensures space { has_pages mtr.now.latches.now.sizes.pages ≡ true }
{
    // For the proof: the laws of trees, at the number of pages that the space has.
    L::trees_law();
    let _ = mtr.geometry().pages();
}

// Passes over the leaf on which the scan stands: the next one is taken in S and loaded, while that leaf
// and those before it are still held.
fn pass_over<L: Trees, R: Wait>(rt: &R, mtr: &mut Mtr<'_, L, Parkers>, leaf: u32, next: u32)
    requires mtr { IsMtr mtr.old.latches.now mtr.old.pass.now }
    requires may { under L.Law mtr.old.latches.now MayPass L.ROOTS leaf next mtr.old.pass.now }
    ensures still { IsStillMtr mtr.old mtr.new }
    ensures passed { (h : under L.Law mtr.old.latches.now MayPass L.ROOTS leaf next mtr.old.pass.now)
        → under L.Law mtr.old.latches.now HasPassed L.ROOTS h.root h.start h.ps h.last
        mtr.old.pass.now mtr.new.pass.now }
{
    facts_of_trees(mtr);
    mtr.forget(leaf);
    take(rt, mtr, Latch::page(next), Mode::S, Level::TreeNode);
    read(mtr, next);
}

// Goes on to the leaf in which the chunk from `start` ends. Those that give no chunk are passed over, and
// held still.
fn reach_end<L: Trees, R: Wait>(
    rt: &R,
    mtr: &mut Mtr<'_, L, Parkers>,
    leaf: u32,
    start: Key,
    high: Key,
) -> Found
    requires mtr { IsMtr mtr.old.latches.now mtr.old.pass.now }
    requires on { under L.Law mtr.old.latches.now IsOnLeaf L.ROOTS leaf start mtr.old.pass.now }
    ensures still { IsStillMtr mtr.old mtr.new }
    ensures reached { (h : under L.Law mtr.old.latches.now IsOnLeaf L.ROOTS leaf start mtr.old.pass.now)
        → under L.Law mtr.old.latches.now HasReachedEnd L.ROOTS h.root start high result
        mtr.old.pass.now mtr.new.pass.now }
{
    facts_of_trees(mtr);
    let mut at = leaf;
    let mut passed = 0;
    loop {
        match part_of(mtr, at, start, high) {
            Part::Passed { next } => {
                pass_over(rt, mtr, at, next);
                at = next;
                passed += 1;
            }
            Part::Ends { end } => {
                return Found {
                    leaf: at,
                    end,
                    passed,
                };
            }
        }
    }
}

/// Gives up the leaves in front of the one on which a scan stands, so many as are held there.
pub fn leave_front<L: Law, S: Sleep>(mtr: &mut Mtr<'_, L, S>, count: usize)
    requires mtr { IsMtr mtr.old.latches.now mtr.old.pass.now }
    requires front { HasSomeFront count mtr.old.pass.now }
    ensures still { IsStillMtr mtr.old mtr.new }
    ensures left { (h : HasSomeFront count mtr.old.pass.now)
        → HasFront 0 h.leaf h.image mtr.new.pass.now }
    ensures aside { IsAside mtr.old.pass.now mtr.new.pass.now }
    ensures looks { mtr.new.pass.now.view.looks.count ≡ mtr.old.pass.now.view.looks.count }
    ensures waits { mtr.new.pass.now.view.looks.waits ≡ mtr.old.pass.now.view.looks.waits }
{
    for _ in 0..count {
        mtr.release_at(0);
    }
}

// Reads chunk after chunk, from the leaf of `low` on. None where all were appended, else where it stopped. It goes
// to no further leaf where no chunk place is spare. One leaf alone is held at the end.
pub(crate) fn scan_from<L: Trees, R: Wait>(
    rt: &R,
    mtr: &mut Mtr<'_, L, Parkers>,
    sought: Sought,
    first: u32,
    out: &mut Chunks,
) -> Option<Stop>
    requires mtr { IsMtr mtr.old.latches.now mtr.old.pass.now }
    requires begins { under L.Law mtr.old.latches.now IsScannedTo L.ROOTS sought.root first first
        sought.low sought.low sought.high out.old out.old mtr.old.pass.now mtr.old.pass.now }
    ensures still { IsStillMtr mtr.old mtr.new }
    ensures scanned { MatchOption result
        (under L.Law mtr.old.latches.now HasRunToEnd sought.root first sought.low sought.high
        out.old out.new mtr.old.pass.now mtr.new.pass.now)
        (λ stop. under L.Law mtr.old.latches.now HasRunToStop L.ROOTS sought.root first sought.low
        sought.high stop out.old out.new mtr.old.pass.now mtr.new.pass.now) }
{
    facts_of_trees(mtr);
    let mut leaf = first;
    let mut start = sought.low;
    loop {
        let stop = Stop {
            next: start,
            kept: store(mtr, leaf),
        };
        if out.room().0 == 0 {
            return Some(stop);
        }
        let found = reach_end(rt, mtr, leaf, start, sought.high);
        let place = mtr.place();
        let fits = put(mtr, found.leaf, start, found.end, place, out);
        leave_front(mtr, found.passed);
        if !fits {
            return Some(stop);
        }
        if is_same(found.end, sought.high) {
            return None;
        }
        leaf = found.leaf;
        start = after(found.end).unwrap();
    }
}
