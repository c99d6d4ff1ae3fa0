//! The change that needs the key's leaf alone: the descent to it, and how it ends there.

ghost use Rattle.ib_map.specs.declared.call.Call.TheVariants.{Insert as InsertCall, Delete as DeleteCall};
ghost use Rattle.ib_rule.specs.Pass.{IsAtRest};
ghost use Rattle.ib_mtr.specs.Mtr.{IsStillMtr};
ghost use Rattle.ib_cursor.specs.Descent.{MayDescend};
ghost use Rattle.ib_leaf.specs.Calls.{MayCall};
ghost use Rattle.ib_leaf.specs.Leaf.{IsFullFor, IsShortFor};
ghost use Rattle.ib_index.specs.Leaf.{HasDescendedToLeaf, HasTriedLeaf};

use ib_cursor::{Search, descend};
use ib_latch::{Latches, Parkers};
use ib_leaf::{ROOT, Work, changed, facts_of_session, look_in, put_in, take_out};
use ib_map::{Call, Change, Key, Record, Reply};
use ib_mtr::Mtr;
use ib_page::MOST_RECORDS;
use ib_planned_log::KeptLaw;
use ib_plans::FEWEST_RECORDS;
use ib_rule::Pass;
use std::sync::Wait;

// Claims the key's leaf: it is held in X, and loaded.
fn descend_to_leaf<R: Wait>(rt: &R, mtr: &mut Work<'_>, key: Key) -> u32
    requires may { MayDescend mtr.old.latches.now mtr.old.pass.now }
    ensures still { IsStillMtr mtr.old mtr.new }
    ensures reached { HasDescendedToLeaf mtr.old.latches.now.sizes key result mtr.old.pass.now mtr.new.pass.now }
{
    let path = descend(rt, mtr, Search::ModifyLeaf, key);
    facts_of_session(mtr);
    path.last().unwrap()
}

// The insert that changes the key's leaf alone, or none where it needs more.
pub(crate) fn optimistic_insert<R: Wait>(
    rt: &R,
    latches: &Latches<KeptLaw, Parkers>,
    pass: &mut Pass,
    key: Key,
    value: u64,
) -> Option<Record>
    requires may { MayCall latches.now pass.old }
    ensures rest { IsAtRest latches.now pass.new }
    ensures tried { HasTriedLeaf latches.now.sizes (IsFullFor key) key (InsertCall key value) result pass.old pass.new }
{
    let call = Call::Insert { key, value };
    let mut mtr = Mtr::start(latches, pass);
    let leaf = descend_to_leaf(rt, &mut mtr, key);
    let looked = look_in(&mtr, leaf, key);
    if looked.value.is_some() {
        let place = mtr.commit_read();
        return Some(Record {
            call,
            reply: Reply::Duplicate,
            place,
        });
    }
    if looked.count == MOST_RECORDS {
        let _ = mtr.commit_read();
        return None;
    }
    put_in(&mut mtr, leaf, key, value);
    let committed = mtr.commit(rt, Change::Insert { key, value });
    Some(changed(call, Reply::Inserted, committed, pass.place()))
}

// The delete that changes the key's leaf alone, or none where it needs more.
pub(crate) fn optimistic_delete<R: Wait>(
    rt: &R,
    latches: &Latches<KeptLaw, Parkers>,
    pass: &mut Pass,
    key: Key,
) -> Option<Record>
    requires may { MayCall latches.now pass.old }
    ensures rest { IsAtRest latches.now pass.new }
    ensures tried { HasTriedLeaf latches.now.sizes (IsShortFor key) key (DeleteCall key) result pass.old pass.new }
{
    let call = Call::Delete { key };
    let mut mtr = Mtr::start(latches, pass);
    let leaf = descend_to_leaf(rt, &mut mtr, key);
    let looked = look_in(&mtr, leaf, key);
    let Some(value) = looked.value else {
        let place = mtr.commit_read();
        return Some(Record {
            call,
            reply: Reply::Missing,
            place,
        });
    };
    if leaf != ROOT && looked.count <= FEWEST_RECORDS {
        let _ = mtr.commit_read();
        return None;
    }
    take_out(&mut mtr, leaf, key);
    let committed = mtr.commit(rt, Change::Delete { key });
    Some(changed(call, Reply::Deleted { value }, committed, pass.place()))
}
