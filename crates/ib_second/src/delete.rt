//! The delete of a pair from both trees.

ghost use Rattle.ib_map.specs.declared.call.Call.TheVariants.{Delete as DeleteCall};
ghost use Rattle.ib_second_key.specs.SecondKeys.{IsPrimary, second_key_of};
ghost use Rattle.ib_rule.specs.Pass.{IsAtRest};
ghost use Rattle.std.specs.Prelude.{◌≡◌, ℕ, List, [], Some};
ghost use Rattle.ib_map.specs.Pairs.{value_at};
ghost use Rattle.ib_rule.specs.Conditions.{HasGrantsLeft};
ghost use Rattle.ib_mtr.specs.Mtr.{IsMtr, IsStillMtr};
ghost use Rattle.ib_logrec.specs.Log.{by_place};
ghost use Rattle.ib_plans.specs.Agreement.{path_of};
ghost use Rattle.ib_cursor.specs.OnPath.{IsOnPath, IsSought};
ghost use Rattle.ib_cursor.specs.Rows.{MayTakeRows};
ghost use Rattle.ib_cursor.specs.Shapes.{HasIndex};
ghost use Rattle.ib_pair_law.specs.Opening.{pair_opening};
ghost use Rattle.ib_second.specs.PairComes.{HasTakenRowsOfBoth, HasTakenTree};
ghost use Rattle.ib_second.specs.PairFinds.{HasFoundPair};
ghost use Rattle.ib_pair_law.specs.PairKept.{IsPairLog};
ghost use Rattle.ib_second.specs.PairReady.{pages_seen};
ghost use Rattle.ib_leaf.specs.Calls.{MayCall};
ghost use Rattle.ib_second.specs.Calls.{HasCalledPair, TakesForChange};

use crate::pages::{FIRST_ROOT, PairWork, SECOND_ROOT, take_space};
use crate::planned::plan_delete_in;
use ib_cursor::{FoundPath, Sought, claim_index, read_path, read_value, take_behind, take_rows};
use ib_latch::{Latches, Parkers};
use ib_leaf::{changed, facts_of_session};
use ib_map::{Call, Change, Key, Record, Reply};
use ib_mtr::Mtr;
use ib_pair_change::PairPaths;
use ib_pair_law::PairLaw;
use ib_rule::Pass;
use ib_second_key::second_key;
use std::sync::Wait;

// What a delete comes to after the claim of the index: the path of the key, and the value that its leaf has of it.
#[derive(Drop)]
struct FoundPair {
    path: FoundPath,
    value: Option<u64>,
}

// Claims the index, and reads the path of the key in the first tree, and its value.
fn find_pair<R: Wait>(rt: &R, mtr: &mut PairWork<'_>, key: Key) -> FoundPair
    requires mtr { IsMtr mtr.old.latches.now mtr.old.pass.now }
    requires memo { mtr.old.pass.now.memo ≡ [] }
    requires none { mtr.old.pass.now.work ≡ [] }
    requires unwatched { mtr.old.pass.now.view.memory.since ≡ [] }
    requires room { HasGrantsLeft 128 mtr.old.pass.now.view }
    ensures still { IsStillMtr mtr.old mtr.new }
    ensures found { HasFoundPair mtr.old.latches.now.sizes key result.path.path result.path.leaf result.value mtr.old.pass.now mtr.new.pass.now }
{
    // For the proof: a space has a number of pages of which the laws speak.
    let _ = mtr.geometry().pages();
    claim_index(rt, mtr);
    let sought = Sought {
        root: FIRST_ROOT,
        key,
    };
    let path = read_path(rt, mtr, sought);
    let value = read_value(rt, mtr, sought, path.leaf);
    FoundPair { path, value }
}

// Takes in X what a delete from one tree may change: the pages of the path, level by level those beside them under the same
// parent, and the leaf behind the last of these.
fn take_tree<R: Wait>(rt: &R, mtr: &mut PairWork<'_>, path: &FoundPath, sought: Sought)
    requires mtr { IsMtr mtr.old.latches.now mtr.old.pass.now }
    requires ready { (held : List ℕ) × MayTakeRows mtr.old.latches.now.sizes (IsPairLog mtr.old.latches.now.sizes.pages)
        (by_place pair_opening mtr.old.latches.now.sizes.pages) sought.root path.now.path held mtr.old.pass.now }
    requires on_path { path.now.path ≡ path_of (pages_seen mtr.old.latches.now.sizes mtr.old.pass.now) sought.key sought.root }
    requires room { HasGrantsLeft 48 mtr.old.pass.now.view }
    requires sought { IsSought 2 sought.root sought.key }
    ensures still { IsStillMtr mtr.old mtr.new }
    ensures taken { (held : List ℕ) → MayTakeRows mtr.old.latches.now.sizes (IsPairLog mtr.old.latches.now.sizes.pages)
        (by_place pair_opening mtr.old.latches.now.sizes.pages) sought.root path.now.path held mtr.old.pass.now
        → HasTakenTree mtr.old.latches.now.sizes held sought.root sought.key path.now.path mtr.old.pass.now mtr.new.pass.now }
{
    // For the proof: a space has a number of pages of which the laws speak.
    let _ = mtr.geometry().pages();
    let last = take_rows(rt, mtr, &path.path, sought);
    take_behind(rt, mtr, last);
}

// Reads the path of the pair's second key, and takes all pages of both trees that the two deletes may change, those of the first
// tree first, and page 0 behind them.
fn claim_pages<R: Wait>(
    rt: &R,
    mtr: &mut PairWork<'_>,
    first: FoundPath,
    key: Key,
    second: Key,
) -> PairPaths
    requires mtr { IsMtr mtr.old.latches.now mtr.old.pass.now }
    requires index { HasIndex mtr.old.latches.now.sizes (IsPairLog mtr.old.latches.now.sizes.pages) mtr.old.pass.now }
    requires on_path { first.path ≡ path_of (pages_seen mtr.old.latches.now.sizes mtr.old.pass.now) key 1 }
    requires leaf { IsOnPath (pages_seen mtr.old.latches.now.sizes mtr.old.pass.now) 1 key first.leaf 0 }
    requires room { HasGrantsLeft 112 mtr.old.pass.now.view }
    ensures still { IsStillMtr mtr.old mtr.new }
    ensures taken { (value : ℕ) → second ≡ second_key_of key value
        → value_at key (pages_seen mtr.old.latches.now.sizes mtr.old.pass.now first.leaf).records ≡ Some value
        → HasTakenRowsOfBoth mtr.old.latches.now.sizes key value result.first result.second mtr.old.pass.now mtr.new.pass.now }
{
    // For the proof: a space has a number of pages of which the laws speak.
    let _ = mtr.geometry().pages();
    let sought = Sought {
        root: SECOND_ROOT,
        key: second,
    };
    let other = read_path(rt, mtr, sought);
    take_tree(
        rt,
        mtr,
        &first,
        Sought {
            root: FIRST_ROOT,
            key,
        },
    );
    take_tree(rt, mtr, &other, sought);
    take_space(rt, mtr);
    PairPaths {
        first: first.path,
        second: other.path,
    }
}

/// The delete of a pair (row0upd, `row_upd_del_mark_clust_rec` and `row_upd_sec_index_entry`; btr0cur,
/// `btr_cur_pessimistic_delete` for both trees): one mini-transaction, one entry.
pub(crate) fn delete<R: Wait>(
    rt: &R,
    latches: &Latches<PairLaw, Parkers>,
    pass: &mut Pass,
    key: Key,
) -> Record
    requires may { MayCall latches.now pass.old }
    requires primary { IsPrimary key }
    ensures rest { IsAtRest latches.now pass.new }
    ensures called { HasCalledPair latches.now.sizes (DeleteCall key) result pass.old pass.new }
    ensures grants { TakesForChange 39 pass.old pass.new }
{
    let call = Call::Delete { key };
    // For the proof: a session that holds nothing watches no latch.
    let _ = pass.is_idle();
    let mut mtr = Mtr::start(latches, pass);
    let found = find_pair(rt, &mut mtr, key);
    facts_of_session(&mtr);
    let Some(value) = found.value else {
        let place = mtr.commit_read();
        return Record {
            call,
            reply: Reply::Missing,
            place,
        };
    };
    let paths = claim_pages(rt, &mut mtr, found.path, key, second_key(key, value));
    facts_of_session(&mtr);
    plan_delete_in(&mut mtr, &paths, key, value);
    let committed = mtr.commit(rt, Change::Delete { key });
    changed(call, Reply::Deleted { value }, committed, pass.place())
}
