//! What the sessions of a script share.

use ib_layout::Geometry;
use ib_map::{Chunks, Key, OutOfMemory, Record};
use ib_rule::{ConnectFault, Pass, SpaceWords};
use ib_scan::More;
use std::alloc::Global;
use std::sync::Wait;

/// What the sessions of a script share: one tree, as an index, or more trees in one space, of which one is scanned. It is opened
/// for a run; sessions come to it and go; and where nobody is connected any more it is closed, or given up. Contracts see it as
/// its space.
///
/// Lookups and changes are no part of it: how a session's calls reach their leaf is for `Access` to say.
pub trait Shared {
    ghost use Rattle.std.specs.Prelude.{◌≡◌, ℕ, ◌+◌, ◌≤◌, true, IfOk, OnErr};
    ghost use Rattle.ib_map.specs.Keys.{MapKey, rank};
    ghost use Rattle.ib_map.specs.Space.{has_pages};
    ghost use Rattle.ib_map.specs.declared.call.Call.{Call};
    ghost use Rattle.ib_layout.specs.Geometry.{Sizes};
    ghost use Rattle.ib_rule.specs.Closed.{HasClosed};
    ghost use Rattle.ib_rule.specs.Connects.{HasConnected, HasDisconnected, IsDeserted, IsNew};
    ghost use Rattle.ib_rule.specs.Pass.{IsAtRest, PassState};
    ghost use Rattle.ib_rule.specs.Space.{SpaceState};
    ghost use Rattle.ib_scan.specs.Scanning.{HasScanned, HasStopped};
    ghost use Rattle.ib_scan.specs.Scans.{MayScan};
    ghost use Rattle.ib_runs.specs.Shared.{FitLaws, IsFreeOfLength, LogLaws, calls_under};
    ghost use Rattle.ib_shared.specs.SharedLaw.{SharedLaw, under_law};

    /// A scan that is made call by call: the key at which it goes on, the one up to which it goes, and what it keeps to go
    /// on from there.
    type Scan: Copy + Send + Sync;

    /// How many words of the log a change mostly takes, with its share of what splits and merges take.
    const CHANGE_WORDS: usize;

    // which logs are lawful, the words of the pages at the start, and when a record fits a log
    ghost law: { SharedLaw };

    // which calls it takes
    ghost takes: { Call → Type 0 };

    // the root of the tree over which scans go
    ghost root: { ℕ };

    // its space
    ghost space: { Self → SpaceState };

    // the key at which a scan goes on
    ghost next: { Self.Scan → MapKey };

    // the key up to which it goes
    ghost last: { Self.Scan → MapKey };

    // no call of it was made yet
    ghost begun: { Self.Scan → Type 0 };

    // a session may go on with it in a space of these sizes
    ghost goes_on: { Sizes → Self.Scan → PassState → Type 0 };

    /// Newly opened, as by `SharedSpace`. Refused where memory lacks.
    fn open(alloc: Global, geometry: Geometry) -> Result<Self, OutOfMemory>
        ensures { IfOk result (λ s. IsNew geometry (space s)) };

    /// The sizes of its space.
    fn geometry(&self) -> Geometry
        ensures { result ≡ (space self.now).sizes };

    /// What lawful logs say, and records that fit, in spaces of any sizes.
    fn laws()
        ensures logs { (sizes : Sizes) → has_pages sizes.pages ≡ true → LogLaws (calls_under law sizes) root sizes.pages }
        ensures records { (sizes : Sizes) → FitLaws (calls_under law sizes) }
        ensures wider { IsFreeOfLength law };

    /// One session more. Refused where too many came before, or memory lacks.
    fn connect(&mut self, alloc: Global) -> Result<Pass, ConnectFault>
        ensures { HasConnected (space self.old) (space self.new) result };

    /// One session ends.
    fn disconnect(&mut self, pass: Pass)
        requires { IsAtRest (space self.old) pass }
        ensures { HasDisconnected (space self.old) pass (space self.new) };

    /// A scan of the keys from `low` to `high`, before its first call.
    fn begin(low: Key, high: Key) -> Self::Scan
        ensures next { next result ≡ low }
        ensures up_to { last result ≡ high }
        ensures begun { begun result }
        ensures goes_on { (sizes : Sizes) (p : PassState) → goes_on sizes result p };

    /// One call of a scan, which goes on where the last one stopped (row0sel, `row_search_mvcc`). What is there is appended
    /// chunk by chunk, each exactly what the tree has between its ends at its own place. `More` where the next chunk finds no
    /// room; then the scan goes on there. Either way nothing is held at the end.
    fn scan<R: Wait>(
        &self,
        rt: &R,
        pass: &mut Pass,
        scan: &mut Self::Scan,
        out: &mut Chunks,
    ) -> Result<Record, More>
        requires may { MayScan (space self.now) out.old pass.old }
        requires goes_on { goes_on (space self.now).sizes scan.old pass.old }
        requires ascends { rank (next scan.old) ≤ rank (last scan.old) }
        ensures rest { IsAtRest (space self.now) pass.new }
        ensures scanned { IfOk result (λ answer. under_law law (space self.now) HasScanned root (next scan.old) (last scan.old) answer
            out.old out.new pass.old pass.new) }
        ensures stopped { OnErr result (under_law law (space self.now) HasStopped root (next scan.old) (last scan.old) (next scan.new)
            out.old out.new pass.old pass.new) }
        ensures up_to { OnErr result (last scan.new ≡ last scan.old) }
        ensures goes_on { OnErr result (goes_on (space self.now).sizes scan.new pass.new) }
        ensures least { begun scan.old → pass.old.view.grants.s + 2 ≤ pass.new.view.grants.s };

    /// What is left where nobody is connected: the words of one lawful log, and of the pages after it, where they lie.
    fn into_words(self) -> SpaceWords
        requires { IsDeserted (space self) }
        ensures { HasClosed law.lawful law.opening (space self) result };

    /// Given up instead.
    fn discard(self)
        requires { IsDeserted (space self) };
}
