//! The plans of a change of both trees on what a session holds: then it may be committed.

ghost use Rattle.std.specs.Prelude.{◌≡◌, List};
ghost use Rattle.ib_map.specs.declared.call.Change.TheVariants.{Delete, Insert};
ghost use Rattle.ib_second_key.specs.SecondKeys.{IsPrimary};
ghost use Rattle.ib_page.specs.Work.{WorkPage};
ghost use Rattle.ib_rule.specs.Conditions.{HasGrantLeft};
ghost use Rattle.ib_rule.specs.Pass.{PassState};
ghost use Rattle.ib_mtr.specs.Commits.{MayCommit};
ghost use Rattle.ib_mtr.specs.Mtr.{IsMtr, IsStillMtr, with_work};
ghost use Rattle.ib_pair_law.specs.PairKept.{IsPairLog};
ghost use Rattle.ib_second.specs.PairComes.{HasTakenFresh, HasTakenRowsOfBoth};
ghost use Rattle.ib_leaf.specs.Leaf.{IsSeated};

use crate::pages::PairWork;
use ib_map::Key;
use ib_pair_change::{FreshPages, PairPaths, plan_pair_delete, plan_pair_insert};

// Plans both inserts on the images of the work set.
pub(crate) fn plan_insert_in(
    mtr: &mut PairWork<'_>,
    paths: &PairPaths,
    fresh: &FreshPages,
    key: Key,
    value: u64,
)
    requires mtr { IsMtr mtr.old.latches.now mtr.old.pass.now }
    requires seated { IsSeated mtr.old.latches.now.sizes mtr.old.pass.now }
    requires primary { IsPrimary key }
    requires room { HasGrantLeft mtr.old.pass.now.view }
    requires ready { (before : PassState) × HasTakenFresh mtr.old.latches.now.sizes key value paths.now.first paths.now.second fresh.now.first fresh.now.second before mtr.old.pass.now }
    ensures still { IsStillMtr mtr.old mtr.new }
    ensures planned { (work : List WorkPage) × (mtr.new.pass.now ≡ with_work work mtr.old.pass.now) }
    ensures may { MayCommit (IsPairLog mtr.old.latches.now.sizes.pages) mtr.new.pass.now (Insert key value) }
{
    let work = mtr.work();
    plan_pair_insert(work, paths, fresh, key, value);
    // For the proof: the pages of a work set ascend.
    let _ = work.len();
}

// Plans both deletes on the images of the work set.
pub(crate) fn plan_delete_in(mtr: &mut PairWork<'_>, paths: &PairPaths, key: Key, value: u64)
    requires mtr { IsMtr mtr.old.latches.now mtr.old.pass.now }
    requires seated { IsSeated mtr.old.latches.now.sizes mtr.old.pass.now }
    requires primary { IsPrimary key }
    requires room { HasGrantLeft mtr.old.pass.now.view }
    requires ready { (before : PassState) × HasTakenRowsOfBoth mtr.old.latches.now.sizes key value paths.now.first paths.now.second before mtr.old.pass.now }
    ensures still { IsStillMtr mtr.old mtr.new }
    ensures planned { (work : List WorkPage) × (mtr.new.pass.now ≡ with_work work mtr.old.pass.now) }
    ensures may { MayCommit (IsPairLog mtr.old.latches.now.sizes.pages) mtr.new.pass.now (Delete key) }
{
    let work = mtr.work();
    plan_pair_delete(work, paths, key, value);
    // For the proof: the pages of a work set ascend.
    let _ = work.len();
}
