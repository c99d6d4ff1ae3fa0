//! The delete that changes the tree's structure, without waiting.

ghost use Rattle.std.specs.Prelude.{◌≡◌, [], IfOk, IfErr, OnOk};
ghost use Rattle.ib_map.specs.declared.call.Call.TheVariants.{Delete as DeleteCall};
ghost use Rattle.ib_rule.specs.Pass.{IsAtRest};
ghost use Rattle.ib_mtr.specs.Mtr.{IsStillMtr};
ghost use Rattle.ib_cursor.specs.Descent.{MayDescend};
ghost use Rattle.ib_cursor.specs.Refusals.{AreFewGrants, AreFewLooks, IsDeleteRefused};
ghost use Rattle.ib_leaf.specs.Under.{under_plans};
ghost use Rattle.ib_index.specs.Grows.{HasChangedTree, MayChangeTree};
ghost use Rattle.ib_index.specs.Refusals.{IsContended, TakesToDelete, most_to_delete};
ghost use Rattle.ib_index.specs.Shrinks.{HasClaimedSiblings};

use crate::log_end::at_log;
use crate::nowait_insert::try_space;
use crate::pessimistic_delete::plan_in;
use ib_cursor::{NowaitFault, descend_to_delete_nowait};
use ib_latch::{Latches, Sleep};
use ib_leaf::{ROOT, changed, facts_of_session, value_in};
use ib_map::{Call, Change, Key, Record, Reply};
use ib_mtr::Mtr;
use ib_page::Path;
use ib_planned_log::KeptLaw;
use ib_rule::Pass;

// Claims the key's path by tries: the index is claimed, and held in X and loaded are the pages of the path,
// those beside them under the same parents, and the leaf behind the last of these. Where a latch is refused,
// nothing is held.
fn try_siblings<S: Sleep>(mtr: &mut Mtr<'_, KeptLaw, S>, key: Key) -> Result<Path, NowaitFault>
    requires may { MayDescend mtr.old.latches.now mtr.old.pass.now }
    requires unwatched { mtr.old.pass.now.view.memory.since ≡ [] }
    ensures still { IsStillMtr mtr.old mtr.new }
    ensures reached { IfOk result (λ path. HasClaimedSiblings mtr.old.latches.now.sizes key path mtr.old.pass.now mtr.new.pass.now) }
    ensures grants { OnOk result (AreFewGrants (record { s = 8; sx = 1; x = 23 }) mtr.old.pass.now.view mtr.new.pass.now.view) }
    ensures twice { OnOk result (AreFewLooks 0 mtr.old.pass.now.view mtr.new.pass.now.view) }
    ensures refused { IfErr result (λ fault. under_plans mtr.old.latches.now IsDeleteRefused 1 key fault mtr.old.pass.now mtr.new.pass.now) }
{
    // For the proof: a space has a number of pages of which the laws speak.
    let _ = mtr.geometry().pages();
    match descend_to_delete_nowait(mtr, ROOT, key) {
        Ok(path) => Ok(path),
        Err(fault) => Err(fault),
    }
}

/// The delete that may change the tree's structure, as `pessimistic_delete`, by tries.
pub(crate) fn pessimistic_delete_nowait<S: Sleep>(
    latches: &Latches<KeptLaw, S>,
    pass: &mut Pass,
    key: Key,
) -> Result<Record, NowaitFault>
    requires may { MayChangeTree latches.now pass.old }
    ensures rest { IsAtRest latches.now pass.new }
    ensures changed { IfOk result (λ answer. HasChangedTree latches.now.sizes (DeleteCall key) answer pass.old pass.new) }
    ensures twice { OnOk result (AreFewLooks 0 pass.old.view pass.new.view) }
    ensures contended { IfErr result (λ fault. IsContended latches.now.sizes (TakesToDelete latches.now.sizes key) most_to_delete fault pass.old pass.new) }
{
    let call = Call::Delete { key };
    let mut mtr = Mtr::start(latches, pass);
    let path = match try_siblings(&mut mtr, key) {
        Ok(path) => path,
        Err(fault) => {
            mtr.finish();
            return Err(fault);
        }
    };
    facts_of_session(&mtr);
    let Some(value) = value_in(&mtr, &path, key) else {
        let place = mtr.commit_read();
        return Ok(Record {
            call,
            reply: Reply::Missing,
            place,
        });
    };
    match try_space(&mut mtr) {
        Ok(()) => {}
        Err(fault) => {
            mtr.give_back();
            mtr.finish();
            return Err(fault);
        }
    }
    facts_of_session(&mtr);
    plan_in(&mut mtr, &path, key);
    match at_log(mtr.commit_nowait(Change::Delete { key })) {
        Ok(committed) => Ok(changed(call, Reply::Deleted { value }, committed, pass.place())),
        Err(fault) => Err(fault),
    }
}
