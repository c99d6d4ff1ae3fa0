//! Scans.

ghost use Rattle.std.specs.Prelude.{◌≡◌, ◌≤◌, ◌<◌, ◌+◌, [], length, Ok, IfErr, IfOk, OnOk};
ghost use Rattle.ib_map.specs.Keys.{rank};
ghost use Rattle.ib_logrec.specs.Log.{by_place};
ghost use Rattle.ib_rule.specs.Pass.{IsAtRest};
ghost use Rattle.ib_rule.specs.Under.{under};
ghost use Rattle.ib_cursor.specs.Refusals.{AreFewLooks};
ghost use Rattle.ib_scan.specs.Scanning.{HasScanned};
ghost use Rattle.ib_scan.specs.Scans.{FitsSeen, HasAll, MayScan, scan_answer};
ghost use Rattle.ib_scan.specs.Steps.{TookTwo};
ghost use Rattle.ib_scan_nowait.specs.Halts.{HasHalted};

use crate::halt::Halt;
use crate::walk::scan_from_nowait;
use ib_cursor::descend_nowait;
use ib_latch::{Latches, Sleep};
use ib_map::{Chunks, Key, Record, is_below};
use ib_mtr::Mtr;
use ib_rule::Pass;
use ib_scan::{answer, facts_of_trees};
use ib_tree::Trees;

// All chunks, or as many as found room before a latch was refused.
fn read_chunks_nowait<L: Trees, S: Sleep>(
    latches: &Latches<L, S>,
    pass: &mut Pass,
    low: Key,
    high: Key,
    out: &mut Chunks,
) -> Result<(), Halt>
    requires may { MayScan latches.now out.old pass.old }
    requires root { 1 ≤ L.ROOTS }
    requires ascends { rank low ≤ rank high }
    ensures rest { IsAtRest latches.now pass.new }
    ensures scanned { OnOk result (under L.Law latches.now HasAll 1 low high out.old out.new
        pass.old pass.new) }
    ensures least { OnOk result (TookTwo pass.old pass.new) }
    ensures few { OnOk result (AreFewLooks 0 pass.old.view pass.new.view) }
    ensures halted { IfErr result (λ halt. under L.Law latches.now HasHalted 1 low high halt out.old
        out.new pass.old pass.new) }
{
    let mut mtr = Mtr::start(latches, pass);
    facts_of_trees(&mtr);
    match descend_nowait(&mut mtr, low) {
        Ok(path) => {
            let first = path.pages()[path.len() - 1];
            let ran = scan_from_nowait(&mut mtr, low, high, first, out);
            mtr.give_back();
            mtr.finish();
            ran
        }
        Err(fault) => {
            mtr.finish();
            Err(Halt::Refused { next: low, fault })
        }
    }
}

// The answer to a scan whose keys ascend.
fn scan_chunks_nowait<L: Trees, S: Sleep>(
    latches: &Latches<L, S>,
    pass: &mut Pass,
    low: Key,
    high: Key,
    out: &mut Chunks,
) -> Result<Record, Halt>
    requires may { MayScan latches.now out.old pass.old }
    requires root { 1 ≤ L.ROOTS }
    requires ascends { rank low ≤ rank high }
    ensures rest { IsAtRest latches.now pass.new }
    ensures scanned { IfOk result (λ answer. under L.Law latches.now HasScanned 1 low high answer
        out.old out.new pass.old pass.new) }
    ensures least { OnOk result (TookTwo pass.old pass.new) }
    ensures few { OnOk result (AreFewLooks 0 pass.old.view pass.new.view) }
    ensures halted { IfErr result (λ halt. under L.Law latches.now HasHalted 1 low high halt out.old
        out.new pass.old pass.new) }
{
    let before = out.room();
    match read_chunks_nowait(latches, pass, low, high, out) {
        Ok(()) => {
            let left = out.room();
            let chunks = (before.0 - left.0) as u32;
            let pairs = (before.1 - left.1) as u32;
            Ok(answer(low, high, chunks, pairs, pass.place()))
        }
        Err(halt) => Err(halt),
    }
}

/// Scans the first tree, that of page 1, from `low` to `high` as `scan` does, with its answer, but without
/// waiting, for every `Sleep`: each latch is tried (`rw_lock_s_lock_nowait`). The record of an `Ok` fits what is
/// seen, by the map too. What is there is appended chunk by chunk, each exactly as the tree has it at the chunk's own
/// place; the next leaf is tried and loaded before an earlier one is given up.
///
/// `NoRoom` exactly where `scan` answers `More`. `Refused` where a latch was refused: the index or a page of the
/// path of `low`, with nothing appended, or a leaf to which the scan had come for the chunk that begins at `next`,
/// with a chunk place spare. The chunks before `next` were appended, and all that is said of the chunks of a scan
/// holds of them. The log's end is looked at, and then all is given up. `Busy` and `Raced` tell the latch and the
/// words of the last looks, both of this call. There are two looks at most for each latch that was had, and for
/// `Busy` one more, for `Raced` two; where the way to the first leaf was refused, so two at most for each latch of
/// the longest path that a tree can have. The session holds nothing before and after.
///
/// ```
/// if pass.may_scan(chunks.room().0) {
///     match scan_nowait(index.latches(), &mut pass, low, high, &mut chunks) {
///         Ok(answer) => tell(answer.reply, chunks.pairs()),
///         Err(Halt::NoRoom { next }) => make_room(next),
///         Err(Halt::Refused { next, .. }) => later(next),
///     }
/// }
/// ```
pub fn scan_nowait<L: Trees, S: Sleep>(
    latches: &Latches<L, S>,
    pass: &mut Pass,
    low: Key,
    high: Key,
    out: &mut Chunks,
) -> Result<Record, Halt>
    requires may { MayScan latches.now out.old pass.old }
    requires root { 1 ≤ L.ROOTS }
    ensures rest { IsAtRest latches.now pass.new }
    ensures scanned { rank low ≤ rank high → IfOk result (λ answer. under L.Law latches.now
        HasScanned 1 low high answer out.old out.new pass.old pass.new) }
    ensures fits { rank low ≤ rank high → IfOk result (λ answer. (h : under L.Law latches.now
        HasScanned 1 low high answer out.old out.new pass.old pass.new) → FitsSeen latches.now.sizes
        (by_place L.opening latches.now.sizes.pages) answer h.gone.spans pass.old pass.new) }
    ensures least { rank low ≤ rank high → OnOk result (pass.old.view.grants.s + 2
        ≤ pass.new.view.grants.s) }
    ensures few { OnOk result (AreFewLooks 0 pass.old.view pass.new.view) }
    ensures halted { IfErr result (λ halt. under L.Law latches.now HasHalted 1 low high halt out.old
        out.new pass.old pass.new) }
    ensures none { rank high < rank low → result ≡ Ok
        (scan_answer low high 0 0 (length pass.old.view.memory.seen)) }
    ensures fits_none { rank high < rank low → IfOk result (λ answer. FitsSeen latches.now.sizes
        (by_place L.opening latches.now.sizes.pages) answer [] pass.old pass.new) }
    ensures same { rank high < rank low → pass.new ≡ pass.old }
    ensures same_out { rank high < rank low → out.new ≡ out.old }
{
    // For the proof: the laws of trees, at the number of pages that the space has.
    L::trees_law();
    let _ = latches.space().geometry().pages();
    if is_below(high, low) {
        return Ok(answer(low, high, 0, 0, pass.place()));
    }
    scan_chunks_nowait(latches, pass, low, high, out)
}
