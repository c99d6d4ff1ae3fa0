//! The key's leaf that a session holds: what it has, and a pair that is put in or taken out.

ghost use Rattle.std.specs.Prelude.{◌≡◌, ◌⊎◌, ◌<◌, ◌≤◌, List, None, length, IsSome};
ghost use Rattle.ib_map.specs.Pairs.{value_at};
ghost use Rattle.ib_map.specs.declared.call.Change.TheVariants.{Insert, Delete};
ghost use Rattle.ib_heap.specs.declared.TheConstants.{MOST_RECORDS};
ghost use Rattle.ib_page.specs.Work.{WorkPage};
ghost use Rattle.ib_plans.specs.declared.TheConstants.{FEWEST_RECORDS};
ghost use Rattle.ib_planned_log.specs.Kept.{IsKeptLog};
ghost use Rattle.ib_rule.specs.Conditions.{HasGrantLeft};
ghost use Rattle.ib_mtr.specs.Commits.{MayCommit};
ghost use Rattle.ib_mtr.specs.Mtr.{IsStillMtr, with_work};
ghost use Rattle.ib_leaf.specs.Leaf.{WorksOnLeaf, leaf_page};

use ib_latch::{Parkers, Sleep};
use ib_map::Key;
use ib_mtr::Mtr;
use ib_page::MOST_RECORDS;
use ib_planned_change::{put_pair, take_pair};
use ib_planned_log::KeptLaw;
use ib_plans::FEWEST_RECORDS;

/// A mini-transaction on the pages of kept logs, whose waiters park.
pub type Work<'a> = Mtr<'a, KeptLaw, Parkers>;

/// The page of the first tree's root (`dict_index_t::page`). It may have as few records as it likes.
pub const ROOT: u32 = 1;

/// What a leaf has: the value of the key that is sought, and how many records.
#[derive(Clone, Copy)]
pub struct Looked {
    /// The value of the key, or none where the leaf does not have it.
    pub value: Option<u64>,
    /// How many records the leaf has, of 35 at most.
    pub count: usize,
}

/// What the key's leaf has, which is held in X and loaded: the search of the page (`page_cur_search`), and its
/// number of records (`page_get_n_recs`).
///
/// ```
/// let looked = look_in(&mtr, leaf, key);
/// is_new = looked.value.is_none();
/// ```
pub fn look_in<S: Sleep>(mtr: &Mtr<'_, KeptLaw, S>, leaf: u32, key: Key) -> Looked
    requires on { WorksOnLeaf mtr.now.latches.now key leaf mtr.now.pass.now }
    ensures value { result.value
        ≡ value_at key (leaf_page mtr.now.latches.now.sizes key mtr.now.pass.now).records }
    ensures count { result.count
        ≡ length (leaf_page mtr.now.latches.now.sizes key mtr.now.pass.now).records }
    ensures few { result.count ≤ MOST_RECORDS }
{
    let image = mtr.image(leaf).unwrap();
    Looked {
        value: image.get(key),
        count: image.len(),
    }
}

/// Puts the pair into the leaf that is held, which has room and does not have the key (`page_cur_tuple_insert` of
/// `btr_cur_optimistic_insert`). The insert may be committed then.
///
/// ```
/// put_in(&mut mtr, leaf, key, value);
/// let committed = mtr.commit(rt, Change::Insert { key, value });
/// ```
pub fn put_in<S: Sleep>(mtr: &mut Mtr<'_, KeptLaw, S>, leaf: u32, key: Key, value: u64)
    requires on { WorksOnLeaf mtr.old.latches.now key leaf mtr.old.pass.now }
    requires grows { HasGrantLeft mtr.old.pass.now.view }
    requires missing { value_at key (leaf_page mtr.old.latches.now.sizes key mtr.old.pass.now).records ≡ None }
    requires room { length (leaf_page mtr.old.latches.now.sizes key mtr.old.pass.now).records < MOST_RECORDS }
    ensures still { IsStillMtr mtr.old mtr.new }
    ensures put { (work : List WorkPage) × (mtr.new.pass.now ≡ with_work work mtr.old.pass.now)
        × MayCommit (IsKeptLog mtr.old.latches.now.sizes.pages) mtr.new.pass.now (Insert key value) }
{
    put_pair(mtr.edit(leaf), key, value);
}

/// Takes the pair of the key out of the leaf that is held, which has it, and is the root or keeps 17 records or more
/// (`page_cur_delete_rec` of `btr_cur_optimistic_delete`). The delete may be committed then.
///
/// ```
/// take_out(&mut mtr, leaf, key);
/// let committed = mtr.commit(rt, Change::Delete { key });
/// ```
pub fn take_out<S: Sleep>(mtr: &mut Mtr<'_, KeptLaw, S>, leaf: u32, key: Key)
    requires on { WorksOnLeaf mtr.old.latches.now key leaf mtr.old.pass.now }
    requires grows { HasGrantLeft mtr.old.pass.now.view }
    requires there { IsSome (value_at key (leaf_page mtr.old.latches.now.sizes key mtr.old.pass.now).records) }
    requires enough { (leaf ≡ 1) ⊎ (FEWEST_RECORDS < length (leaf_page mtr.old.latches.now.sizes key mtr.old.pass.now).records) }
    ensures still { IsStillMtr mtr.old mtr.new }
    ensures taken { (work : List WorkPage) × (mtr.new.pass.now ≡ with_work work mtr.old.pass.now)
        × MayCommit (IsKeptLog mtr.old.latches.now.sizes.pages) mtr.new.pass.now (Delete key) }
{
    take_pair(mtr.edit(leaf), key);
}
