//! A pair of trees, as what the sessions of a script share.

ghost use Rattle.std.specs.Prelude.{◌≡◌};
ghost use Rattle.ib_pair_form.specs.PairCalls.{IsPairCall};
ghost use Rattle.ib_second.specs.PairShared.{pair_law};

use ib_layout::Geometry;
use ib_map::{Chunks, Key, OutOfMemory, Record};
use ib_pair_law::pair_law;
use ib_rule::{ConnectFault, Pass, SpaceWords};
use ib_runs::Shared;
use ib_scan::{More, scan_at};
use ib_second::Pair;
use ib_second_key::second_map_law;
use ib_shared::SharedSpace;
use std::alloc::Global;
use std::sync::Wait;

/// The root of the second tree, over which scans go.
pub(crate) const SECOND_ROOT: u32 = 2;

/// A pair of trees in one space. It is not dropped, but closed or discarded.
pub struct SharedPair {
    pub(crate) pair: Pair,
}

/// A scan of the second tree: the key at which it goes on, and the one up to which it goes.
#[derive(Clone, Copy, Debug)]
pub struct SecondScan {
    next: Key,
    last: Key,
}

/// A pair takes calls of keys that have second keys, and scans of its second tree. A scan keeps no position: each call
/// goes down to the leaf of its key again.
impl Shared for SharedPair {
    type Scan = SecondScan;

    // An entry writes a leaf of each tree, and splits and merges add up to as many words.
    const CHANGE_WORDS: usize = 104;

    ghost law = { pair_law };

    ghost takes = { IsPairCall };

    ghost root = { 2 };

    ghost space = { λ shared. shared.pair };

    ghost next = { λ scan. scan.next };

    ghost last = { λ scan. scan.last };

    ghost begun = { λ _. Unit {0} };

    ghost goes_on = { λ _ _ _. Unit {0} };

    fn open(alloc: Global, geometry: Geometry) -> Result<Self, OutOfMemory> {
        let pair = Pair::open(alloc, geometry)?;
        Ok(SharedPair { pair })
    }

    fn geometry(&self) -> Geometry {
        self.pair.latches().space().geometry()
    }

    fn laws() {
        // For the proof: the laws of a pair's logs, and of its second map.
        pair_law();
        second_map_law();
    }

    fn connect(&mut self, alloc: Global) -> Result<Pass, ConnectFault> {
        self.pair.connect(alloc)
    }

    fn disconnect(&mut self, pass: Pass) {
        self.pair.disconnect(pass);
    }

    fn begin(low: Key, high: Key) -> Self::Scan {
        SecondScan {
            next: low,
            last: high,
        }
    }

    fn scan<R: Wait>(
        &self,
        rt: &R,
        pass: &mut Pass,
        scan: &mut Self::Scan,
        out: &mut Chunks,
    ) -> Result<Record, More> {
        match scan_at(
            rt,
            self.pair.latches(),
            SECOND_ROOT,
            pass,
            scan.next,
            scan.last,
            out,
        ) {
            Ok(answer) => Ok(answer),
            Err(More { next }) => {
                scan.next = next;
                Err(More { next })
            }
        }
    }

    fn into_words(self) -> SpaceWords {
        let SharedPair { pair } = self;
        pair.into_words()
    }

    fn discard(self) {
        let SharedPair { pair } = self;
        pair.discard();
    }
}
