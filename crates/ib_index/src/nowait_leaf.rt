//! The change that needs the key's leaf alone, without waiting.

ghost use Rattle.std.specs.Prelude.{IfOk, IfErr, OnOk};
ghost use Rattle.ib_map.specs.declared.call.Call.TheVariants.{Insert as InsertCall, Delete as DeleteCall};
ghost use Rattle.ib_rule.specs.Pass.{IsAtRest};
ghost use Rattle.ib_mtr.specs.Mtr.{IsStillMtr};
ghost use Rattle.ib_cursor.specs.Descent.{MayDescend};
ghost use Rattle.ib_cursor.specs.Refusals.{AreFewLooks, IsLeafRefused};
ghost use Rattle.ib_leaf.specs.Calls.{MayCall};
ghost use Rattle.ib_leaf.specs.Leaf.{IsFullFor, IsShortFor};
ghost use Rattle.ib_leaf.specs.Under.{under_plans};
ghost use Rattle.ib_index.specs.Leaf.{HasDescendedToLeaf};
ghost use Rattle.ib_index.specs.Refusals.{HasTriedLeafAtOnce, IsContended, TakesOnLeaf, most_on_leaf};

use crate::log_end::at_log;
use ib_cursor::{NowaitFault, descend_to_change_nowait};
use ib_latch::{Latches, Sleep};
use ib_leaf::{ROOT, changed, facts_of_session, look_in, put_in, take_out};
use ib_map::{Call, Change, Key, Record, Reply};
use ib_mtr::Mtr;
use ib_page::MOST_RECORDS;
use ib_planned_log::KeptLaw;
use ib_plans::FEWEST_RECORDS;
use ib_rule::Pass;

// Comes to the key's leaf by tries: it is held in X, and loaded. Where a latch is refused, nothing is held.
fn try_leaf<S: Sleep>(mtr: &mut Mtr<'_, KeptLaw, S>, key: Key) -> Result<u32, NowaitFault>
    requires may { MayDescend mtr.old.latches.now mtr.old.pass.now }
    ensures still { IsStillMtr mtr.old mtr.new }
    ensures reached { IfOk result (λ leaf. HasDescendedToLeaf mtr.old.latches.now.sizes key leaf mtr.old.pass.now mtr.new.pass.now) }
    ensures twice { OnOk result (AreFewLooks 0 mtr.old.pass.now.view mtr.new.pass.now.view) }
    ensures refused { IfErr result (λ fault. under_plans mtr.old.latches.now IsLeafRefused 1 key fault mtr.old.pass.now mtr.new.pass.now) }
{
    match descend_to_change_nowait(mtr, ROOT, key) {
        Ok(path) => {
            facts_of_session(mtr);
            Ok(path.last().unwrap())
        }
        Err(fault) => Err(fault),
    }
}

// The insert that changes the key's leaf alone, or none where it needs more.
pub(crate) fn optimistic_insert_nowait<S: Sleep>(
    latches: &Latches<KeptLaw, S>,
    pass: &mut Pass,
    key: Key,
    value: u64,
) -> Result<Option<Record>, NowaitFault>
    requires may { MayCall latches.now pass.old }
    ensures rest { IsAtRest latches.now pass.new }
    ensures tried { IfOk result (λ answer. HasTriedLeafAtOnce latches.now.sizes (IsFullFor key) key (InsertCall key value) answer pass.old pass.new) }
    ensures contended { IfErr result (λ fault. IsContended latches.now.sizes (TakesOnLeaf latches.now.sizes key) most_on_leaf fault pass.old pass.new) }
{
    let call = Call::Insert { key, value };
    let mut mtr = Mtr::start(latches, pass);
    let leaf = match try_leaf(&mut mtr, key) {
        Ok(leaf) => leaf,
        Err(fault) => {
            mtr.finish();
            return Err(fault);
        }
    };
    let looked = look_in(&mtr, leaf, key);
    if looked.value.is_some() {
        let place = mtr.commit_read();
        return Ok(Some(Record {
            call,
            reply: Reply::Duplicate,
            place,
        }));
    }
    if looked.count == MOST_RECORDS {
        let _ = mtr.commit_read();
        return Ok(None);
    }
    put_in(&mut mtr, leaf, key, value);
    match at_log(mtr.commit_nowait(Change::Insert { key, value })) {
        Ok(committed) => Ok(Some(changed(call, Reply::Inserted, committed, pass.place()))),
        Err(fault) => Err(fault),
    }
}

// The delete that changes the key's leaf alone, or none where it needs more.
pub(crate) fn optimistic_delete_nowait<S: Sleep>(
    latches: &Latches<KeptLaw, S>,
    pass: &mut Pass,
    key: Key,
) -> Result<Option<Record>, NowaitFault>
    requires may { MayCall latches.now pass.old }
    ensures rest { IsAtRest latches.now pass.new }
    ensures tried { IfOk result (λ answer. HasTriedLeafAtOnce latches.now.sizes (IsShortFor key) key (DeleteCall key) answer pass.old pass.new) }
    ensures contended { IfErr result (λ fault. IsContended latches.now.sizes (TakesOnLeaf latches.now.sizes key) most_on_leaf fault pass.old pass.new) }
{
    let call = Call::Delete { key };
    let mut mtr = Mtr::start(latches, pass);
    let leaf = match try_leaf(&mut mtr, key) {
        Ok(leaf) => leaf,
        Err(fault) => {
            mtr.finish();
            return Err(fault);
        }
    };
    let looked = look_in(&mtr, leaf, key);
    let Some(value) = looked.value else {
        let place = mtr.commit_read();
        return Ok(Some(Record {
            call,
            reply: Reply::Missing,
            place,
        }));
    };
    if leaf != ROOT && looked.count <= FEWEST_RECORDS {
        let _ = mtr.commit_read();
        return Ok(None);
    }
    take_out(&mut mtr, leaf, key);
    match at_log(mtr.commit_nowait(Change::Delete { key })) {
        Ok(committed) => Ok(Some(changed(call, Reply::Deleted { value }, committed, pass.place()))),
        Err(fault) => Err(fault),
    }
}
