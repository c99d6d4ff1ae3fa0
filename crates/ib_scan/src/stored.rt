//! Scans that keep their position from call to call.

ghost use Rattle.std.specs.Prelude.{◌≡◌, ◌≤◌, ◌<◌, ◌+◌, ◌∷◌, ◌++◌, ℕ, List, [], true, false, length, Ok, None, Some, IfErr, IfOk, OnOk, OnErr, MatchOption};
ghost use Rattle.ib_map.specs.Keys.{rank};
ghost use Rattle.ib_logrec.specs.Log.{by_place};
ghost use Rattle.ib_rule.specs.Conditions.{HasGrantsLeft};
ghost use Rattle.ib_rule.specs.Pass.{IsAtRest};
ghost use Rattle.ib_rule.specs.Under.{under};
ghost use Rattle.ib_mtr.specs.Mtr.{IsMtr, IsStillMtr};
ghost use Rattle.ib_cursor.specs.Descent.{MayDescend};
ghost use Rattle.ib_scan.specs.Scanning.{HasScanned};
ghost use Rattle.ib_scan.specs.Scans.{FitsSeen, MayScan, scan_answer};
ghost use Rattle.ib_scan.specs.Steps.{HasBegun, TookTwo};
ghost use Rattle.ib_scan.specs.Stored.{HasAllOn, HasScannedOn, HasStoppedOn, IsBegunOn, IsLeftAt, IsUnwritten, KeepsPosition, MayGoOn};

use crate::more::More;
use crate::scans::answer;
use crate::walk::{Sought, Stop, facts_of_trees, scan_from};
use ib_cursor::{Position, Restored, Search, descend, restore};
use ib_latch::{Latches, Parkers};
use ib_map::{Chunks, Key, Record, is_below};
use ib_mtr::Mtr;
use ib_page::Path;
use ib_rule::Pass;
use ib_tree::Clocks;
use std::sync::Wait;

/// A scan of the first tree that is made call by call (btr0pcur, `btr_pcur_t`): the key at which it goes on, the key
/// up to which it goes, and the leaf from which it goes on, by its position.
#[derive(Clone, Copy, PartialEq, Eq, Debug)]
pub struct Stored {
    next: Key,
    high: Key,
    position: Option<Position>,
    finished: bool,
}

impl Stored {
    /// A scan of the keys from `low` to `high`, before its first call: it keeps no position.
    pub fn new(low: Key, high: Key) -> Stored
        ensures { result ≡ record {
          next = low;
          high = high;
          position = None;
          finished = false;
        } }
    {
        Stored {
            next: low,
            high,
            position: None,
            finished: false,
        }
    }

    /// The key at which it goes on.
    pub fn next(&self) -> Key
        ensures { result ≡ self.now.next }
    {
        self.next
    }

    /// Whether all was scanned.
    pub fn finished(&self) -> bool
        ensures { result ≡ self.now.finished }
    {
        self.finished
    }
}

// The last page of a path.
fn last_page(path: &Path) -> u32
    requires { (front : List ℕ) × (leaf : ℕ) × (path.now ≡ front ++ leaf ∷ []) }
    ensures { (front : List ℕ) (leaf : ℕ) → path.now ≡ front ++ leaf ∷ [] → result ≡ leaf }
{
    path.pages()[path.len() - 1]
}

// Takes the leaf on which a call begins: the one that is kept, where it was not written since, else the key's.
fn begin<L: Clocks, R: Wait>(rt: &R, mtr: &mut Mtr<'_, L, Parkers>, stored: Stored) -> u32
    requires may { MayDescend mtr.old.latches.now mtr.old.pass.now }
    requires room { HasGrantsLeft 65 mtr.old.pass.now.view }
    requires root { 1 ≤ L.ROOTS }
    requires goes_on { under L.Law mtr.old.latches.now MayGoOn L.ROOTS stored mtr.old.pass.now }
    ensures still { IsStillMtr mtr.old mtr.new }
    ensures begun { under L.Law mtr.old.latches.now HasBegun L.ROOTS 1 stored.next result
        mtr.old.pass.now mtr.new.pass.now }
    ensures on { IsBegunOn (by_place L.opening mtr.old.latches.now.sizes.pages)
        mtr.new.pass.now.view.memory.seen stored.next stored.position result }
    ensures least { stored.position ≡ None
        → mtr.old.pass.now.view.grants.s + 2 ≤ mtr.new.pass.now.view.grants.s }
    ensures once { (at : Position) → stored.position ≡ Some at
        → IsUnwritten at mtr.new.pass.now.view.memory.seen → (result ≡ at.page)
        × (mtr.new.pass.now.view.grants.s ≡ mtr.old.pass.now.view.grants.s + 1) }
{
    facts_of_trees(mtr);
    match stored.position {
        None => {
            let path = descend(rt, mtr, Search::Find, stored.next);
            last_page(&path)
        }
        Some(at) => match restore(rt, mtr, &at, stored.next) {
            Restored::Same => at.page,
            Restored::Moved { path } => last_page(&path),
        },
    }
}

// All chunks from where the scan goes on, or as many as found room.
fn read_on<L: Clocks, R: Wait>(
    rt: &R,
    latches: &Latches<L, Parkers>,
    pass: &mut Pass,
    stored: Stored,
    out: &mut Chunks,
) -> Option<Stop>
    requires may { MayScan latches.now out.old pass.old }
    requires root { 1 ≤ L.ROOTS }
    requires goes_on { under L.Law latches.now MayGoOn L.ROOTS stored pass.old }
    requires ascends { rank stored.next ≤ rank stored.high }
    ensures rest { IsAtRest latches.now pass.new }
    ensures scanned { MatchOption result
        (under L.Law latches.now HasAllOn stored out.old out.new pass.old pass.new)
        (λ stop. under L.Law latches.now HasStoppedOn L.ROOTS stored stop.next stop.kept
        out.old out.new pass.old pass.new) }
    ensures least { stored.position ≡ None → TookTwo pass.old pass.new }
{
    let mut mtr = Mtr::start(latches, pass);
    facts_of_trees(&mtr);
    let first = begin(rt, &mut mtr, stored);
    let sought = Sought {
        root: 1,
        low: stored.next,
        high: stored.high,
    };
    let stop = scan_from(rt, &mut mtr, sought, first, out);
    mtr.release_at(0);
    mtr.finish();
    stop
}

/// Goes on with a scan of the first tree (`btr_pcur_restore_position`, then row0sel, `row_search_mvcc`): from the leaf
/// that is kept, by one latch, where no entry wrote that since, else from the leaf of the key at which it goes on. All
/// that `scan` says holds of the keys from there on.
///
/// After an `Ok` the scan is finished. After `More` it goes on at More's key, from the leaf that gave the last chunk, or
/// where the call appended none from the leaf on which it began. Where the kept leaf was not written, a call takes one
/// grant of S of it and one of each leaf behind it, up to the last chunk's where no chunk place is spare, else up to
/// that of the chunk with too many pairs, and no other.
///
/// ```
/// let mut stored = Stored::new(low, high);
/// while !stored.finished() {
///     chunks.reserve(64, 4096)?;
///     let _ = scan_on(rt, index.latches(), &mut pass, &mut stored, &mut chunks);
/// }
/// ```
pub fn scan_on<L: Clocks, R: Wait>(
    rt: &R,
    latches: &Latches<L, Parkers>,
    pass: &mut Pass,
    stored: &mut Stored,
    out: &mut Chunks,
) -> Result<Record, More>
    requires may { MayScan latches.now out.old pass.old }
    requires root { 1 ≤ L.ROOTS }
    requires goes_on { under L.Law latches.now MayGoOn L.ROOTS stored.old pass.old }
    ensures rest { IsAtRest latches.now pass.new }
    ensures scanned { rank stored.old.next ≤ rank stored.old.high → IfOk result (λ answer.
        under L.Law latches.now HasScannedOn stored.old answer out.old out.new pass.old pass.new) }
    ensures fits { rank stored.old.next ≤ rank stored.old.high → IfOk result (λ answer. (h : under
        L.Law latches.now HasScanned 1 stored.old.next stored.old.high answer out.old out.new
        pass.old pass.new) → FitsSeen latches.now.sizes
        (by_place L.opening latches.now.sizes.pages) answer h.gone.spans pass.old pass.new) }
    ensures finished { OnOk result (stored.new ≡ record stored.old { finished = true }) }
    ensures stopped { rank stored.old.next ≤ rank stored.old.high → IfErr result (λ more.
        under L.Law latches.now IsLeftAt L.ROOTS stored.old stored.new more.next
        out.old out.new pass.old pass.new) }
    ensures unfinished { OnErr result (stored.new.finished ≡ false) }
    ensures keeps { under L.Law latches.now KeepsPosition L.ROOTS stored.new pass.new }
    ensures least { rank stored.old.next ≤ rank stored.old.high → stored.old.position ≡ None
        → pass.old.view.grants.s + 2 ≤ pass.new.view.grants.s }
    ensures none { rank stored.old.high < rank stored.old.next → result ≡ Ok
        (scan_answer stored.old.next stored.old.high 0 0 (length pass.old.view.memory.seen)) }
    ensures fits_none { rank stored.old.high < rank stored.old.next → IfOk result (λ answer. FitsSeen
        latches.now.sizes (by_place L.opening latches.now.sizes.pages) answer [] pass.old pass.new) }
    ensures same { rank stored.old.high < rank stored.old.next → pass.new ≡ pass.old }
    ensures same_out { rank stored.old.high < rank stored.old.next → out.new ≡ out.old }
{
    // For the proof: the laws of trees, at the number of pages that the space has.
    L::trees_law();
    let _ = latches.space().geometry().pages();
    let low = stored.next;
    let high = stored.high;
    if is_below(high, low) {
        stored.finished = true;
        return Ok(answer(low, high, 0, 0, pass.place()));
    }
    let before = out.room();
    match read_on(rt, latches, pass, *stored, out) {
        Some(stop) => {
            stored.next = stop.next;
            stored.position = Some(stop.kept);
            Err(More { next: stop.next })
        }
        None => {
            stored.finished = true;
            let left = out.room();
            let chunks = (before.0 - left.0) as u32;
            let pairs = (before.1 - left.1) as u32;
            Ok(answer(low, high, chunks, pairs, pass.place()))
        }
    }
}
