//! A pair of trees that sessions share: how it is opened and closed, and how sessions look keys up and change them.

ghost use Rattle.std.specs.Prelude.{◌≡◌};
ghost use Rattle.ib_map.specs.declared.call.Call.TheVariants.{Delete, Insert};
ghost use Rattle.ib_second_key.specs.SecondKeys.{IsPrimary};
ghost use Rattle.ib_rule.specs.Pass.{IsAtRest};
ghost use Rattle.ib_leaf.specs.Calls.{MayCall};
ghost use Rattle.ib_second.specs.Calls.{HasCalledPair, HasLookedUpPair, TakesForChange};
ghost use Rattle.ib_second.specs.PairShared.{pair_law};

use crate::{delete, insert, lookup};
use ib_latch::{Latches, LatchesCloseRefused, Parkers};
use ib_layout::Geometry;
use ib_map::{Key, Record};
use ib_pair_law::PairLaw;
use ib_rule::{Closed, ConnectFault, OutOfMemory, Pass, SpaceWords};
use ib_shared::SharedSpace;
use std::alloc::Global;
use std::marker::Model;
use std::sync::Wait;

/// Two trees that sessions share, with the roots 1 and 2 (a `dict_table_t` with its clustered index and one secondary
/// index): the first has the map, and the second has a key for each pair of it, the value's eight bytes and the key's.
/// Contracts see them as their space. It is not dropped, but closed or discarded. How it is opened and closed, and how sessions
/// come and go, is said by `SharedSpace`.
///
/// ```
/// let mut pair = Pair::open(alloc, Geometry::new(64, 100_000)?)?;
/// let mut pass = pair.connect(alloc)?;
/// pair.insert(rt, &mut pass, Key::of_number(7), 70);
/// pair.disconnect(pass);
/// ```
pub struct Pair {
    latches: Latches<PairLaw, Parkers>,
}

impl Model for Pair {
    ghost use Rattle.ib_rule.specs.Space.{SpaceState};

    ghost Value = { SpaceState };

    ghost view = { λ p. p.latches };
}

/// There was no memory to copy the words. The pair comes back as it was.
pub struct PairRefused {
    pub pair: Pair,
}

impl SharedSpace for Pair {
    type Refused = PairRefused;

    ghost law = { pair_law };

    ghost space = { λ pair. pair };

    ghost back = { λ refused. refused.pair };

    fn open(alloc: Global, geometry: Geometry) -> Result<Pair, OutOfMemory> {
        let latches = Latches::open(alloc, geometry)?;
        Ok(Pair { latches })
    }

    fn connected(&self) -> u32 {
        self.latches.connected()
    }

    fn connect(&mut self, alloc: Global) -> Result<Pass, ConnectFault> {
        self.latches.connect(alloc)
    }

    fn disconnect(&mut self, pass: Pass) {
        self.latches.disconnect(pass);
    }

    fn meet(&self, to: &mut Pass, from: &mut Pass) {
        self.latches.meet(to, from);
    }

    fn close(self, alloc: Global) -> Result<Closed, PairRefused> {
        let Pair { latches } = self;
        match latches.close(alloc) {
            Ok(closed) => Ok(closed),
            Err(refused) => {
                let LatchesCloseRefused { latches } = refused;
                Err(PairRefused {
                    pair: Pair { latches },
                })
            }
        }
    }

    fn returned(refused: PairRefused) -> Pair {
        let PairRefused { pair } = refused;
        pair
    }

    fn into_words(self) -> SpaceWords {
        let Pair { latches } = self;
        latches.into_words()
    }

    fn discard(self) {
        let Pair { latches } = self;
        latches.discard();
    }
}

impl Pair {
    /// Its latches, for scans and for steps on a latch.
    ///
    /// ```
    /// let (low, high) = keys_of_value(5);
    /// let scanned = scan_at(rt, pair.latches(), 2, &mut pass, low, high, &mut chunks);
    /// ```
    pub fn latches(&self) -> &Latches<PairLaw, Parkers>
        ensures { result.now ≡ self.now }
    {
        &self.latches
    }

    /// Looks a key up in the first tree (`row_search_mvcc` by a key of the clustered index, without versions): `Found` with its
    /// value or `NotFound`, at the place of the log after all that is seen then. Latches are taken in S alone and waited for: the
    /// index, and each page of the key's path, from two to five. The session holds nothing before and after.
    ///
    /// ```
    /// if pass.may_call() {
    ///     let answer = pair.get(rt, &mut pass, key);
    ///     found = answer.reply == Reply::Found { value: 5 };
    /// }
    /// ```
    pub fn get<R: Wait>(&self, rt: &R, pass: &mut Pass, key: Key) -> Record
        requires may { MayCall self.now pass.old }
        requires primary { IsPrimary key }
        ensures rest { IsAtRest self.now pass.new }
        ensures looked_up { HasLookedUpPair self.now.sizes key result pass.old pass.new }
    {
        lookup::get(rt, &self.latches, pass, key)
    }

    /// Puts a pair into both trees (`row_ins_clust_index_entry`, and then `row_ins_sec_index_entry`): `Inserted`, at the place
    /// of its one entry; `Duplicate` where the key is there; `TooHigh` where one of the trees would get a fifth level;
    /// `SpaceFull` where fewer pages are free than both need; `LogFull` where the log has no room. Each refusal is true at its
    /// place, and changes nothing. The index is claimed in SX and both paths are read; then the pages that may change are taken
    /// in X, those of the first tree, those of the second, page 0, and the new ones. The session holds nothing before and after.
    ///
    /// ```
    /// if pass.may_call() && is_primary(key) {
    ///     let answer = pair.insert(rt, &mut pass, key, 5);
    ///     is_new = answer.reply == Reply::Inserted;
    /// }
    /// ```
    pub fn insert<R: Wait>(&self, rt: &R, pass: &mut Pass, key: Key, value: u64) -> Record
        requires may { MayCall self.now pass.old }
        requires primary { IsPrimary key }
        ensures rest { IsAtRest self.now pass.new }
        ensures called { HasCalledPair self.now.sizes (Insert key value) result pass.old pass.new }
        ensures grants { TakesForChange 31 pass.old pass.new }
    {
        insert::insert(rt, &self.latches, pass, key, value)
    }

    /// Takes a key out of the first tree and its pair out of the second (`row_upd_clust_step` and `row_upd_sec_step` with the
    /// records' delete marks, and the purge after them, at once): `Deleted` with its value, at the place of its one entry;
    /// `Missing` where the key is not there; `LogFull` where the log has no room. Each refusal is true at its place, and changes
    /// nothing. Latches are taken as an insert takes them, and no new pages. The session holds nothing before and after.
    ///
    /// ```
    /// if pass.may_call() && is_primary(key) {
    ///     let answer = pair.delete(rt, &mut pass, key);
    ///     was_there = matches!(answer.reply, Reply::Deleted { .. });
    /// }
    /// ```
    pub fn delete<R: Wait>(&self, rt: &R, pass: &mut Pass, key: Key) -> Record
        requires may { MayCall self.now pass.old }
        requires primary { IsPrimary key }
        ensures rest { IsAtRest self.now pass.new }
        ensures called { HasCalledPair self.now.sizes (Delete key) result pass.old pass.new }
        ensures grants { TakesForChange 39 pass.old pass.new }
    {
        delete::delete(rt, &self.latches, pass, key)
    }
}
