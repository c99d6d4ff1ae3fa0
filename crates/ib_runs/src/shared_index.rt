//! The index, as what the sessions of a script share.

ghost use Rattle.std.specs.Prelude.{◌≡◌, None};
ghost use Rattle.ib_logrec.specs.Log.{by_place};
ghost use Rattle.ib_planned_log.specs.Kept.{IsKeptLog};
ghost use Rattle.ib_scan.specs.Stored.{MayGoOn};
ghost use Rattle.ib_tree.specs.TreeLog.{opening};
ghost use Rattle.ib_index.specs.IndexLaw.{index_law};

use crate::shared::Shared;
use ib_index::Index;
use ib_layout::Geometry;
use ib_map::{Chunks, Key, OutOfMemory, Record};
use ib_planned_log::KeptLaw;
use ib_rule::{ConnectFault, Pass, SpaceWords};
use ib_scan::{More, Stored, scan_on};
use ib_shared::SharedSpace;
use ib_tree::Trees;
use std::alloc::Global;
use std::sync::Wait;

/// An index takes every call. A scan of it keeps the leaf from which it goes on (`btr_pcur_restore_position`).
impl Shared for Index {
    type Scan = Stored;

    // An entry of a change of one leaf has 19 to 25 words, and splits and merges add up to as many: keys in order, which
    // split most, come to 44 to 50 words a change.
    const CHANGE_WORDS: usize = 52;

    ghost law = { index_law };

    ghost takes = { λ _. Unit {0} };

    ghost root = { 1 };

    ghost space = { λ index. index };

    ghost next = { λ stored. stored.next };

    ghost last = { λ stored. stored.high };

    ghost begun = { λ stored. stored.position ≡ None };

    ghost goes_on = { λ sizes stored p. MayGoOn sizes (IsKeptLog sizes.pages) (by_place opening sizes.pages) 1 stored p };

    fn open(alloc: Global, geometry: Geometry) -> Result<Self, OutOfMemory> {
        SharedSpace::open(alloc, geometry)
    }

    fn geometry(&self) -> Geometry {
        self.latches().space().geometry()
    }

    fn laws() {
        // For the proof: the law of kept logs.
        KeptLaw::trees_law();
    }

    fn connect(&mut self, alloc: Global) -> Result<Pass, ConnectFault> {
        SharedSpace::connect(self, alloc)
    }

    fn disconnect(&mut self, pass: Pass) {
        SharedSpace::disconnect(self, pass);
    }

    fn begin(low: Key, high: Key) -> Self::Scan {
        Stored::new(low, high)
    }

    fn scan<R: Wait>(
        &self,
        rt: &R,
        pass: &mut Pass,
        scan: &mut Self::Scan,
        out: &mut Chunks,
    ) -> Result<Record, More> {
        scan_on(rt, self.latches(), pass, scan, out)
    }

    fn into_words(self) -> SpaceWords {
        SharedSpace::into_words(self)
    }

    fn discard(self) {
        SharedSpace::discard(self);
    }
}
