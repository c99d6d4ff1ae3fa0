//! One tree that sessions share: how it is opened and closed, and how sessions look keys up and change it.

ghost use Rattle.std.specs.Prelude.{◌≡◌, ◌+◌, ◌*◌, ◌≤◌, IfOk, IfErr, OnOk};
ghost use Rattle.ib_heap.specs.declared.TheConstants.{MOST_LEVEL};
ghost use Rattle.ib_rule.specs.Pass.{IsAtRest};
ghost use Rattle.ib_cursor.specs.Contention.{IsContended};
ghost use Rattle.ib_cursor.specs.Refusals.{AreFewLooks, looks_of};
ghost use Rattle.ib_map.specs.declared.call.Call.TheVariants.{Delete, Insert};
ghost use Rattle.ib_leaf.specs.Calls.{HasCalled, MayCall};
ghost use Rattle.ib_index.specs.Changes.{TakesFewUnless};
ghost use Rattle.ib_index.specs.IndexLaw.{index_law};
ghost use Rattle.ib_leaf.specs.Leaf.{IsFullFor, IsShortFor};
ghost use Rattle.ib_index.specs.Lookups.{HasLookedUp};
ghost use Rattle.ib_index.specs.Refusals.{IsDeleteContended, IsInsertContended};
ghost use Rattle.ib_leaf.specs.Under.{under_plans};

use crate::{change, lookup, nowait, nowait_change};
use ib_cursor::NowaitFault;
use ib_latch::{Latches, LatchesCloseRefused, Parkers, Sleep};
use ib_layout::Geometry;
use ib_map::{Key, Record};
use ib_planned_log::KeptLaw;
use ib_rule::{Closed, ConnectFault, OutOfMemory, Pass, SpaceWords};
use ib_shared::SharedSpace;
use std::alloc::Global;
use std::marker::Model;
use std::sync::Wait;

/// A tree of records that sessions share (`dict_index_t` with its latches and pages). Contracts see it as
/// its space. It is not dropped, but closed or discarded. How it is opened and closed, and how sessions come
/// and go, is said by `SharedSpace`.
///
/// ```
/// let mut index: Index = Index::open(alloc, Geometry::new(64, 100_000)?)?;
/// let mut pass = index.connect(alloc)?;
/// index.insert(rt, &mut pass, Key::of_number(7), 70);
/// index.disconnect(pass);
/// ```
pub struct Index<S: Sleep = Parkers> {
    latches: Latches<KeptLaw, S>,
}

impl<S: Sleep> Model for Index<S> {
    ghost use Rattle.ib_rule.specs.Space.{SpaceState};

    ghost Value = { SpaceState };

    ghost view = { λ i. i.latches };
}

/// There was no memory to copy the words. The index comes back as it was.
pub struct IndexRefused<S: Sleep = Parkers> {
    pub index: Index<S>,
}

impl<S: Sleep> SharedSpace for Index<S> {
    type Refused = IndexRefused<S>;

    ghost law = { index_law };

    ghost space = { λ index. index };

    ghost back = { λ refused. refused.index };

    fn open(alloc: Global, geometry: Geometry) -> Result<Index<S>, OutOfMemory> {
        let latches = Latches::open(alloc, geometry)?;
        Ok(Index { latches })
    }

    fn connected(&self) -> u32 {
        self.latches.connected()
    }

    fn connect(&mut self, alloc: Global) -> Result<Pass, ConnectFault> {
        self.latches.connect(alloc)
    }

    fn disconnect(&mut self, pass: Pass) {
        self.latches.disconnect(pass);
    }

    fn meet(&self, to: &mut Pass, from: &mut Pass) {
        self.latches.meet(to, from);
    }

    fn close(self, alloc: Global) -> Result<Closed, IndexRefused<S>> {
        let Index { latches } = self;
        match latches.close(alloc) {
            Ok(closed) => Ok(closed),
            Err(refused) => {
                let LatchesCloseRefused { latches } = refused;
                Err(IndexRefused {
                    index: Index { latches },
                })
            }
        }
    }

    fn returned(refused: IndexRefused<S>) -> Index<S> {
        let IndexRefused { index } = refused;
        index
    }

    fn into_words(self) -> SpaceWords {
        let Index { latches } = self;
        latches.into_words()
    }

    fn discard(self) {
        let Index { latches } = self;
        latches.discard();
    }
}

impl<S: Sleep> Index<S> {
    /// Its latches, for scans and for steps on a latch.
    ///
    /// ```
    /// let scanned = scan(rt, index.latches(), &mut pass, low, high, &mut chunks);
    /// ```
    pub fn latches(&self) -> &Latches<KeptLaw, S>
        ensures { result.now ≡ self.now }
    {
        &self.latches
    }

    /// Looks a key up without waiting: each latch is tried (`rw_lock_s_lock_nowait`). Where one is refused,
    /// the log's end is looked at and then all latches are given up; `Busy` and `Raced` tell the latch that
    /// was not had, the index or a page of the key's path, and the words of the last looks, both of this
    /// call; there are two looks at most for each latch that was had then, and for `Busy` one more, for `Raced`
    /// two. In every case there are two looks at most for each latch of the longest path that a tree can have.
    /// The session holds nothing before and after.
    ///
    /// ```
    /// if pass.may_call() {
    ///     match index.get_nowait(&mut pass, key) {
    ///         Ok(answer) => tell(answer.reply),
    ///         Err(NowaitFault::Busy { latch, word }) => later(latch),
    ///         Err(NowaitFault::Raced { latch, .. }) => later(latch),
    ///     }
    /// }
    /// ```
    pub fn get_nowait(&self, pass: &mut Pass, key: Key) -> Result<Record, NowaitFault>
        requires may { MayCall self.now pass.old }
        ensures rest { IsAtRest self.now pass.new }
        ensures looked_up { IfOk result (λ answer. under_plans self.now HasLookedUp key answer
            pass.old pass.new) }
        ensures twice { OnOk result (AreFewLooks 0 pass.old.view pass.new.view) }
        ensures contended { IfErr result (λ fault. under_plans self.now IsContended 1 key fault
            pass.old pass.new) }
        ensures vain { IfErr result (λ fault. AreFewLooks (looks_of fault) pass.old.view
            pass.new.view) }
        ensures looks { pass.new.view.looks.count
            ≤ pass.old.view.looks.count + 2 * (MOST_LEVEL + 2) }
    {
        nowait::get_nowait(&self.latches, pass, key)
    }

    /// Puts a pair in as `insert` does, with its answers, but without waiting: each latch is tried
    /// (`rw_lock_s_lock_nowait`, `rw_lock_sx_lock_nowait`, `rw_lock_x_lock_func_nowait`), the log's too
    /// (`mutex_enter_nowait`). Where one is refused, the log's end is looked at and then all is given up, with
    /// nothing changed; `Busy` and `Raced` tell the latch that was not had and the words of the last looks,
    /// both of this call. It is the index or a page of the key's path, in S; the key's leaf or the log's
    /// latch, in X; or where the key's leaf is full, the index in SX, or in X a page of the key's path, a leaf
    /// beside its last page, page 0, or one of the fresh pages. There are two looks at most for each latch that
    /// was had, and for `Busy` one more, for `Raced` two. The session holds nothing before and after.
    ///
    /// ```
    /// if pass.may_call() {
    ///     match index.insert_nowait(&mut pass, key, 70) {
    ///         Ok(answer) => tell(answer.reply),
    ///         Err(NowaitFault::Busy { latch, word }) => later(latch),
    ///         Err(NowaitFault::Raced { latch, .. }) => later(latch),
    ///     }
    /// }
    /// ```
    pub fn insert_nowait(
        &self,
        pass: &mut Pass,
        key: Key,
        value: u64,
    ) -> Result<Record, NowaitFault>
        requires may { MayCall self.now pass.old }
        ensures rest { IsAtRest self.now pass.new }
        ensures called { IfOk result (λ answer. under_plans self.now HasCalled (Insert key value) answer pass.old pass.new) }
        ensures grants { IfOk result (λ answer. TakesFewUnless self.now.sizes (IsFullFor key) key answer.reply pass.old pass.new) }
        ensures twice { OnOk result (AreFewLooks 0 pass.old.view pass.new.view) }
        ensures contended { IfErr result (λ fault. IsInsertContended self.now.sizes key fault pass.old pass.new) }
    {
        nowait_change::insert_nowait(&self.latches, pass, key, value)
    }

    /// Takes a key out as `delete` does, with its answers, but without waiting, as `insert_nowait`. The latch
    /// that was not had is the index or a page of the key's path, in S; the key's leaf or the log's latch, in X;
    /// or where the key's leaf is not the root and has 17 records or fewer, the index in SX, or in X a page of
    /// the key's path, a page beside one of these, or page 0.
    ///
    /// ```
    /// if pass.may_call() {
    ///     match index.delete_nowait(&mut pass, key) {
    ///         Ok(answer) => tell(answer.reply),
    ///         Err(NowaitFault::Busy { latch, word }) => later(latch),
    ///         Err(NowaitFault::Raced { latch, .. }) => later(latch),
    ///     }
    /// }
    /// ```
    pub fn delete_nowait(&self, pass: &mut Pass, key: Key) -> Result<Record, NowaitFault>
        requires may { MayCall self.now pass.old }
        ensures rest { IsAtRest self.now pass.new }
        ensures called { IfOk result (λ answer. under_plans self.now HasCalled (Delete key) answer pass.old pass.new) }
        ensures grants { IfOk result (λ answer. TakesFewUnless self.now.sizes (IsShortFor key) key answer.reply pass.old pass.new) }
        ensures twice { OnOk result (AreFewLooks 0 pass.old.view pass.new.view) }
        ensures contended { IfErr result (λ fault. IsDeleteContended self.now.sizes key fault pass.old pass.new) }
    {
        nowait_change::delete_nowait(&self.latches, pass, key)
    }
}

impl Index<Parkers> {
    /// Looks a key up (`row_search_mvcc` by a key of the clustered index, without versions): `Found` with
    /// its value or `NotFound`, at the place of the log after all that is seen then. Latches are taken in S
    /// alone and waited for: the index, and each page of the key's path, from two to nine. The session holds
    /// nothing before and after.
    ///
    /// ```
    /// if pass.may_call() {
    ///     let answer = index.get(rt, &mut pass, Key::of_number(7));
    ///     found = answer.reply == Reply::Found { value: 70 };
    /// }
    /// ```
    pub fn get<R: Wait>(&self, rt: &R, pass: &mut Pass, key: Key) -> Record
        requires may { MayCall self.now pass.old }
        ensures rest { IsAtRest self.now pass.new }
        ensures looked_up { under_plans self.now HasLookedUp key result pass.old pass.new }
    {
        lookup::get(rt, &self.latches, pass, key)
    }

    /// Puts a pair in (`row_ins_clust_index_entry`): `Inserted`, at the place of its entry; `Duplicate`
    /// where the key is there; `TooHigh` where the tree would get a ninth level; `SpaceFull` where fewer
    /// pages are free than it needs; `LogFull` where the log has no room. Each refusal is true at its place,
    /// and changes nothing. First the key's leaf is taken in X, the index and the pages above it in S
    /// (`btr_cur_optimistic_insert`). Where that leaf is full, all is given up and done again with the index in
    /// SX and the pages that may change in X (`btr_cur_pessimistic_insert`). The session holds nothing
    /// before and after.
    ///
    /// ```
    /// if pass.may_call() {
    ///     let answer = index.insert(rt, &mut pass, Key::of_number(7), 70);
    ///     is_new = answer.reply == Reply::Inserted;
    /// }
    /// ```
    pub fn insert<R: Wait>(&self, rt: &R, pass: &mut Pass, key: Key, value: u64) -> Record
        requires may { MayCall self.now pass.old }
        ensures rest { IsAtRest self.now pass.new }
        ensures called { under_plans self.now HasCalled (Insert key value) result pass.old pass.new }
        ensures grants { TakesFewUnless self.now.sizes (IsFullFor key) key result.reply pass.old pass.new }
    {
        change::insert(rt, &self.latches, pass, key, value)
    }

    /// Takes a key out (`row_upd_clust_step` with the record's delete mark, and the purge after it, at once):
    /// `Deleted` with its value, at the place of its entry; `Missing` where the key is not there; `LogFull`
    /// where the log has no room. Each refusal is true at its place, and changes nothing. First the key's leaf
    /// is taken in X, the index and the pages above it in S (`btr_cur_optimistic_delete`). Where that leaf is not
    /// the root and has 17 records or fewer, all is given up and done again with the index in SX and the
    /// pages that may change in X (`btr_cur_pessimistic_delete`). The session holds nothing before and after.
    ///
    /// ```
    /// if pass.may_call() {
    ///     let answer = index.delete(rt, &mut pass, Key::of_number(7));
    ///     was_there = matches!(answer.reply, Reply::Deleted { .. });
    /// }
    /// ```
    pub fn delete<R: Wait>(&self, rt: &R, pass: &mut Pass, key: Key) -> Record
        requires may { MayCall self.now pass.old }
        ensures rest { IsAtRest self.now pass.new }
        ensures called { under_plans self.now HasCalled (Delete key) result pass.old pass.new }
        ensures grants { TakesFewUnless self.now.sizes (IsShortFor key) key result.reply pass.old pass.new }
    {
        change::delete(rt, &self.latches, pass, key)
    }
}
