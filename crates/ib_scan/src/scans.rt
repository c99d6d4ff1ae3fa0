//! Scans.

ghost use Rattle.std.specs.Prelude.{◌≡◌, ◌≤◌, ◌<◌, ◌+◌, [], length, Ok, IfErr, IfOk, MatchOption};
ghost use Rattle.ib_map.specs.Keys.{rank};
ghost use Rattle.ib_logrec.specs.Log.{by_place};
ghost use Rattle.ib_rule.specs.Pass.{IsAtRest};
ghost use Rattle.ib_rule.specs.Under.{under};
ghost use Rattle.ib_cursor.specs.OnPath.{IsRoot, IsSought};
ghost use Rattle.ib_scan.specs.Scanning.{HasScanned, HasStopped};
ghost use Rattle.ib_scan.specs.Scans.{FitsSeen, HasAll, MayScan, scan_answer};
ghost use Rattle.ib_scan.specs.Steps.{TookTwo};

use crate::more::More;
use crate::walk::{Sought, Stop, facts_of_trees, scan_from};
use ib_cursor::{Search, descend_at};
use ib_latch::{Latches, Parkers};
use ib_map::{Call, Chunks, Key, Record, Reply, is_below};
use ib_mtr::Mtr;
use ib_rule::Pass;
use ib_tree::Trees;
use std::sync::Wait;

// All chunks, or as many as found room.
fn read_chunks<L: Trees, R: Wait>(
    rt: &R,
    latches: &Latches<L, Parkers>,
    pass: &mut Pass,
    sought: Sought,
    out: &mut Chunks,
) -> Option<Stop>
    requires may { MayScan latches.now out.old pass.old }
    requires sought { IsSought L.ROOTS sought.root sought.low }
    requires ascends { rank sought.low ≤ rank sought.high }
    ensures rest { IsAtRest latches.now pass.new }
    ensures scanned { MatchOption result
        (under L.Law latches.now HasAll sought.root sought.low sought.high
        out.old out.new pass.old pass.new)
        (λ stop. under L.Law latches.now HasStopped sought.root sought.low sought.high stop.next
        out.old out.new pass.old pass.new) }
    ensures least { TookTwo pass.old pass.new }
{
    let mut mtr = Mtr::start(latches, pass);
    facts_of_trees(&mtr);
    let path = descend_at(rt, &mut mtr, sought.root, Search::Find, sought.low);
    let first = path.pages()[path.len() - 1];
    let stop = scan_from(rt, &mut mtr, sought, first, out);
    mtr.release_at(0);
    mtr.finish();
    stop
}

/// Scans the keys from `low` to `high` of the tree of a root, with none where `low` is above `high`. What is
/// there is appended chunk by chunk: a chunk ends at its leaf's last key, or at `high`, and is exactly what
/// the tree has between its ends at its own place, the number of entries seen after its leaf was loaded
/// (row0sel, `row_search_mvcc`). The next leaf is latched and loaded before an earlier one is given up,
/// and the leaves that give no chunk are held until the next chunk's place is read (btr0pcur,
/// `btr_pcur_move_to_next_page`). The record's place is the last chunk's.
///
/// `More` exactly where the next chunk finds no chunk place spare, or fewer pair places than it has pairs:
/// the chunks before it were appended. Where no chunk place is spare no further leaf is taken. Either way nothing is
/// held at the end.
///
/// ```
/// if pass.may_scan(chunks.room().0) {
///     match scan_at(rt, &latches, 1, &mut pass, low, high, &mut chunks) {
///         Ok(answer) => tell(answer.reply, chunks.pairs()),
///         Err(More { next }) => go_on(next),
///     }
/// }
/// ```
pub fn scan_at<L: Trees, R: Wait>(
    rt: &R,
    latches: &Latches<L, Parkers>,
    root: u32,
    pass: &mut Pass,
    low: Key,
    high: Key,
    out: &mut Chunks,
) -> Result<Record, More>
    requires may { MayScan latches.now out.old pass.old }
    requires root { IsRoot L.ROOTS root }
    ensures rest { IsAtRest latches.now pass.new }
    ensures scanned { rank low ≤ rank high → IfOk result (λ answer. under L.Law latches.now
        HasScanned root low high answer out.old out.new pass.old pass.new) }
    ensures stopped { rank low ≤ rank high → IfErr result (λ more. under L.Law latches.now
        HasStopped root low high more.next out.old out.new pass.old pass.new) }
    ensures least { rank low ≤ rank high → pass.old.view.grants.s + 2 ≤ pass.new.view.grants.s }
    ensures none { rank high < rank low → result ≡ Ok
        (scan_answer low high 0 0 (length pass.old.view.memory.seen)) }
    ensures same { rank high < rank low → pass.new ≡ pass.old }
    ensures same_out { rank high < rank low → out.new ≡ out.old }
{
    if is_below(high, low) {
        return Ok(answer(low, high, 0, 0, pass.place()));
    }
    let before = out.room();
    let sought = Sought { root, low, high };
    match read_chunks(rt, latches, pass, sought, out) {
        Some(stop) => Err(More { next: stop.next }),
        None => {
            let left = out.room();
            let chunks = (before.0 - left.0) as u32;
            let pairs = (before.1 - left.1) as u32;
            Ok(answer(low, high, chunks, pairs, pass.place()))
        }
    }
}

/// Scans the first tree, that of page 1. The record of an `Ok` fits what is seen, by the map too.
///
/// ```
/// let mut chunks = Chunks::with_room(alloc, 8, 280)?;
/// if pass.may_scan(chunks.room().0) {
///     let (low, high) = (Key::least(), Key::greatest());
///     let scanned = scan(rt, index.latches(), &mut pass, low, high, &mut chunks);
/// }
/// ```
pub fn scan<L: Trees, R: Wait>(
    rt: &R,
    latches: &Latches<L, Parkers>,
    pass: &mut Pass,
    low: Key,
    high: Key,
    out: &mut Chunks,
) -> Result<Record, More>
    requires may { MayScan latches.now out.old pass.old }
    requires root { 1 ≤ L.ROOTS }
    ensures rest { IsAtRest latches.now pass.new }
    ensures scanned { rank low ≤ rank high → IfOk result (λ answer. under L.Law latches.now
        HasScanned 1 low high answer out.old out.new pass.old pass.new) }
    ensures fits { rank low ≤ rank high → IfOk result (λ answer. (h : under L.Law latches.now
        HasScanned 1 low high answer out.old out.new pass.old pass.new) → FitsSeen latches.now.sizes
        (by_place L.opening latches.now.sizes.pages) answer h.gone.spans pass.old pass.new) }
    ensures stopped { rank low ≤ rank high → IfErr result (λ more. under L.Law latches.now
        HasStopped 1 low high more.next out.old out.new pass.old pass.new) }
    ensures least { rank low ≤ rank high → pass.old.view.grants.s + 2 ≤ pass.new.view.grants.s }
    ensures none { rank high < rank low → result ≡ Ok
        (scan_answer low high 0 0 (length pass.old.view.memory.seen)) }
    ensures fits_none { rank high < rank low → IfOk result (λ answer. FitsSeen latches.now.sizes
        (by_place L.opening latches.now.sizes.pages) answer [] pass.old pass.new) }
    ensures same { rank high < rank low → pass.new ≡ pass.old }
    ensures same_out { rank high < rank low → out.new ≡ out.old }
{
    // For the proof: the laws of trees, at the number of pages that the space has.
    L::trees_law();
    let _ = latches.space().geometry().pages();
    scan_at(rt, latches, 1, pass, low, high, out)
}

/// The record of a scan from `low` to `high` that appended so many chunks and pairs, at a place of the log.
pub fn answer(low: Key, high: Key, chunks: u32, pairs: u32, place: u32) -> Record
    ensures { result ≡ scan_answer low high chunks pairs place }
{
    Record {
        call: Call::Scan { low, high },
        reply: Reply::Scanned { chunks, pairs },
        place,
    }
}
