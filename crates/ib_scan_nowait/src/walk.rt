//! From leaf to leaf by tries, and from chunk to chunk.

ghost use Rattle.std.specs.Prelude.{IfErr, IfOk, OnOk};
ghost use Rattle.ib_rule.specs.Under.{under};
ghost use Rattle.ib_mtr.specs.Mtr.{IsMtr, IsStillMtr};
ghost use Rattle.ib_cursor.specs.Refusals.{AreFewLooks};
ghost use Rattle.ib_scan.specs.Steps.{HasPassed, HasReachedEnd, HasRunToEnd, IsOnLeaf, IsScannedTo, MayPass};
ghost use Rattle.ib_scan_nowait.specs.Steps.{HasRunTo, IsNextRefused, IsRefusedFrom, read_on};

use crate::halt::Halt;
use ib_cursor::{NowaitFault, read, try_take};
use ib_latch::Sleep;
use ib_levels::{Latch, Level, Mode};
use ib_map::{Chunks, Key, after, is_same};
use ib_mtr::Mtr;
use ib_scan::{Found, Part, facts_of_trees, leave_front, part_of, put};
use ib_tree::Trees;

// Passes over the leaf on which the scan stands: the next one is tried in S and loaded, while that leaf and those
// before it are still held. Where it is refused, they are held still, and the log's end is looked at.
fn pass_over_nowait<L: Trees, S: Sleep>(
    mtr: &mut Mtr<'_, L, S>,
    leaf: u32,
    next: u32,
) -> Result<(), NowaitFault>
    requires mtr { IsMtr mtr.old.latches.now mtr.old.pass.now }
    requires may { under L.Law mtr.old.latches.now MayPass L.ROOTS leaf next mtr.old.pass.now }
    ensures still { IsStillMtr mtr.old mtr.new }
    ensures passed { OnOk result ((h : under L.Law mtr.old.latches.now MayPass L.ROOTS leaf next
        mtr.old.pass.now) → under L.Law mtr.old.latches.now HasPassed L.ROOTS h.root h.start h.ps
        h.last mtr.old.pass.now mtr.new.pass.now) }
    ensures few { OnOk result (AreFewLooks 0 mtr.old.pass.now.view mtr.new.pass.now.view) }
    ensures refused { IfErr result (λ fault. (h : under L.Law mtr.old.latches.now MayPass L.ROOTS
        leaf next mtr.old.pass.now) → under L.Law mtr.old.latches.now IsNextRefused L.ROOTS h.root
        h.start h.ps h.last fault mtr.old.pass.now mtr.new.pass.now) }
{
    facts_of_trees(mtr);
    mtr.forget(leaf);
    match try_take(mtr, Latch::page(next), Mode::S, Level::TreeNode) {
        Ok(()) => {
            read(mtr, next);
            Ok(())
        }
        Err(fault) => Err(fault),
    }
}

// Goes on to the leaf in which the chunk from `start` ends. Those that give no chunk are passed over, and held
// still.
fn reach_end_nowait<L: Trees, S: Sleep>(
    mtr: &mut Mtr<'_, L, S>,
    leaf: u32,
    start: Key,
    high: Key,
) -> Result<Found, NowaitFault>
    requires mtr { IsMtr mtr.old.latches.now mtr.old.pass.now }
    requires on { under L.Law mtr.old.latches.now IsOnLeaf L.ROOTS leaf start mtr.old.pass.now }
    ensures still { IsStillMtr mtr.old mtr.new }
    ensures reached { IfOk result (λ found. (h : under L.Law mtr.old.latches.now IsOnLeaf L.ROOTS
        leaf start mtr.old.pass.now) → under L.Law mtr.old.latches.now HasReachedEnd L.ROOTS h.root
        start high found mtr.old.pass.now mtr.new.pass.now) }
    ensures few { OnOk result (AreFewLooks 0 mtr.old.pass.now.view mtr.new.pass.now.view) }
    ensures refused { IfErr result (λ fault. (h : under L.Law mtr.old.latches.now IsOnLeaf L.ROOTS
        leaf start mtr.old.pass.now) → under L.Law mtr.old.latches.now IsRefusedFrom h.root start
        (read_on leaf h.image) fault mtr.old.pass.now mtr.new.pass.now) }
{
    facts_of_trees(mtr);
    let mut at = leaf;
    let mut passed = 0;
    loop {
        match part_of(mtr, at, start, high) {
            Part::Passed { next } => {
                match pass_over_nowait(mtr, at, next) {
                    Ok(()) => {}
                    Err(fault) => return Err(fault),
                }
                at = next;
                passed += 1;
            }
            Part::Ends { end } => {
                return Ok(Found {
                    leaf: at,
                    end,
                    passed,
                });
            }
        }
    }
}

// Reads chunk after chunk, from the leaf of `low` on, until all are appended. It goes to no further leaf where no
// chunk place is spare.
pub(crate) fn scan_from_nowait<L: Trees, S: Sleep>(
    mtr: &mut Mtr<'_, L, S>,
    low: Key,
    high: Key,
    first: u32,
    out: &mut Chunks,
) -> Result<(), Halt>
    requires mtr { IsMtr mtr.old.latches.now mtr.old.pass.now }
    requires begins { under L.Law mtr.old.latches.now IsScannedTo L.ROOTS 1 first first low low high
        out.old out.old mtr.old.pass.now mtr.old.pass.now }
    ensures still { IsStillMtr mtr.old mtr.new }
    ensures scanned { OnOk result (under L.Law mtr.old.latches.now HasRunToEnd 1 first low high
        out.old out.new mtr.old.pass.now mtr.new.pass.now) }
    ensures few { OnOk result (AreFewLooks 0 mtr.old.pass.now.view mtr.new.pass.now.view) }
    ensures halted { IfErr result (λ halt. under L.Law mtr.old.latches.now HasRunTo L.ROOTS 1 first
        low high halt out.old out.new mtr.old.pass.now mtr.new.pass.now) }
{
    facts_of_trees(mtr);
    let mut leaf = first;
    let mut start = low;
    loop {
        if out.room().0 == 0 {
            return Err(Halt::NoRoom { next: start });
        }
        let found = match reach_end_nowait(mtr, leaf, start, high) {
            Ok(found) => found,
            Err(fault) => return Err(Halt::Refused { next: start, fault }),
        };
        let place = mtr.place();
        let fits = put(mtr, found.leaf, start, found.end, place, out);
        leave_front(mtr, found.passed);
        if !fits {
            return Err(Halt::NoRoom { next: start });
        }
        if is_same(found.end, high) {
            return Ok(());
        }
        leaf = found.leaf;
        start = after(found.end).unwrap();
    }
}
