//! The delete that changes the tree's structure.

ghost use Rattle.std.specs.Prelude.{◌≡◌, List, [], IsSome};
ghost use Rattle.ib_map.specs.Pairs.{value_at};
ghost use Rattle.ib_map.specs.declared.call.Call.TheVariants.{Delete as DeleteCall};
ghost use Rattle.ib_page.specs.Work.{WorkPage, IsWork};
ghost use Rattle.ib_plans.specs.Agreement.{last_of, memory_in, reads_of};
ghost use Rattle.ib_merge.specs.Deletes.{CanDelete, IsPlannedDeleteForAll};
ghost use Rattle.ib_rule.specs.Pass.{IsAtRest};
ghost use Rattle.ib_mtr.specs.Mtr.{IsMtr, IsStillMtr, with_work};
ghost use Rattle.ib_cursor.specs.Descent.{MayDescend};
ghost use Rattle.ib_index.specs.Grows.{HasChangedTree, MayChangeTree};
ghost use Rattle.ib_index.specs.Shrinks.{HasClaimedSiblings};

use crate::pessimistic_insert::take_space;
use ib_cursor::descend_to_delete;
use ib_latch::{Latches, Parkers, Sleep};
use ib_leaf::{ROOT, Work, changed, facts_of_session, value_in};
use ib_map::{Call, Change, Key, Record, Reply};
use ib_merge::plan_delete;
use ib_mtr::Mtr;
use ib_page::Path;
use ib_planned_log::KeptLaw;
use ib_rule::Pass;
use std::sync::Wait;

// Claims the key's path: the index is claimed, and held in X and loaded are the pages of the path, those
// beside them under the same parents, and the leaf behind the last of these.
fn claim_siblings<R: Wait>(rt: &R, mtr: &mut Work<'_>, key: Key) -> Path
    requires may { MayDescend mtr.old.latches.now mtr.old.pass.now }
    requires unwatched { mtr.old.pass.now.view.memory.since ≡ [] }
    ensures still { IsStillMtr mtr.old mtr.new }
    ensures reached { HasClaimedSiblings mtr.old.latches.now.sizes key result mtr.old.pass.now mtr.new.pass.now }
{
    // For the proof: a space has a number of pages of which the laws speak.
    let _ = mtr.geometry().pages();
    descend_to_delete(rt, mtr, ROOT, key)
}

// Plans the delete on the images of the work set, where the key is there.
pub(crate) fn plan_in<S: Sleep>(mtr: &mut Mtr<'_, KeptLaw, S>, path: &Path, key: Key)
    requires mtr { IsMtr mtr.old.latches.now mtr.old.pass.now }
    requires can { CanDelete path.now key mtr.old.pass.now.work }
    requires there { IsSome (value_at key (memory_in mtr.old.pass.now.work (last_of path.now)).records) }
    ensures still { IsStillMtr mtr.old mtr.new }
    ensures planned { (work : List WorkPage) × (mtr.new.pass.now ≡ with_work work mtr.old.pass.now)
        × IsPlannedDeleteForAll path.now key mtr.old.pass.now.work work
        × (reads_of work ≡ reads_of mtr.old.pass.now.work) × IsWork work }
{
    let work = mtr.work();
    let _ = plan_delete(work, path, key);
    // For the proof: the pages of a work set ascend.
    let _ = work.len();
}

/// The delete that may change the tree's structure (btr0cur, `btr_cur_pessimistic_delete`): with the index in SX, all
/// pages that it may merge are held in X, and page 0 with them, whose bits a merge clears.
pub(crate) fn pessimistic_delete<R: Wait>(
    rt: &R,
    latches: &Latches<KeptLaw, Parkers>,
    pass: &mut Pass,
    key: Key,
) -> Record
    requires may { MayChangeTree latches.now pass.old }
    ensures rest { IsAtRest latches.now pass.new }
    ensures changed { HasChangedTree latches.now.sizes (DeleteCall key) result pass.old pass.new }
{
    let call = Call::Delete { key };
    let mut mtr = Mtr::start(latches, pass);
    let path = claim_siblings(rt, &mut mtr, key);
    facts_of_session(&mtr);
    let Some(value) = value_in(&mtr, &path, key) else {
        let place = mtr.commit_read();
        return Record {
            call,
            reply: Reply::Missing,
            place,
        };
    };
    take_space(rt, &mut mtr);
    facts_of_session(&mtr);
    plan_in(&mut mtr, &path, key);
    let committed = mtr.commit(rt, Change::Delete { key });
    changed(call, Reply::Deleted { value }, committed, pass.place())
}
