//! The changes of the index that never wait: the key's leaf alone where that is enough, else the tree.

ghost use Rattle.std.specs.Prelude.{IfOk, IfErr, OnOk};
ghost use Rattle.ib_map.specs.declared.call.Call.TheVariants.{Delete, Insert};
ghost use Rattle.ib_rule.specs.Pass.{IsAtRest};
ghost use Rattle.ib_cursor.specs.Refusals.{AreFewLooks};
ghost use Rattle.ib_leaf.specs.Calls.{HasCalled, MayCall};
ghost use Rattle.ib_leaf.specs.Leaf.{IsFullFor, IsShortFor};
ghost use Rattle.ib_leaf.specs.Under.{under_plans};
ghost use Rattle.ib_index.specs.Changes.{TakesFewUnless};
ghost use Rattle.ib_index.specs.Refusals.{IsDeleteContended, IsInsertContended};

use crate::nowait_delete::pessimistic_delete_nowait;
use crate::nowait_insert::pessimistic_insert_nowait;
use crate::nowait_leaf::{optimistic_delete_nowait, optimistic_insert_nowait};
use ib_cursor::NowaitFault;
use ib_latch::{Latches, Sleep};
use ib_map::{Key, Record};
use ib_planned_log::KeptLaw;
use ib_rule::Pass;

// Puts a pair in by tries: into the key's leaf alone, or again where this is full, with the tree.
pub(crate) fn insert_nowait<S: Sleep>(
    latches: &Latches<KeptLaw, S>,
    pass: &mut Pass,
    key: Key,
    value: u64,
) -> Result<Record, NowaitFault>
    requires may { MayCall latches.now pass.old }
    ensures rest { IsAtRest latches.now pass.new }
    ensures called { IfOk result (λ answer. under_plans latches.now HasCalled (Insert key value) answer pass.old pass.new) }
    ensures grants { IfOk result (λ answer. TakesFewUnless latches.now.sizes (IsFullFor key) key answer.reply pass.old pass.new) }
    ensures twice { OnOk result (AreFewLooks 0 pass.old.view pass.new.view) }
    ensures contended { IfErr result (λ fault. IsInsertContended latches.now.sizes key fault pass.old pass.new) }
{
    let tried = match optimistic_insert_nowait(latches, pass, key, value) {
        Ok(tried) => tried,
        Err(fault) => return Err(fault),
    };
    match tried {
        Some(answer) => Ok(answer),
        None => match pessimistic_insert_nowait(latches, pass, key, value) {
            Ok(answer) => Ok(answer),
            Err(fault) => Err(fault),
        },
    }
}

// Takes a key out by tries: of its leaf alone, or again where too few records would be left, with the tree.
pub(crate) fn delete_nowait<S: Sleep>(
    latches: &Latches<KeptLaw, S>,
    pass: &mut Pass,
    key: Key,
) -> Result<Record, NowaitFault>
    requires may { MayCall latches.now pass.old }
    ensures rest { IsAtRest latches.now pass.new }
    ensures called { IfOk result (λ answer. under_plans latches.now HasCalled (Delete key) answer pass.old pass.new) }
    ensures grants { IfOk result (λ answer. TakesFewUnless latches.now.sizes (IsShortFor key) key answer.reply pass.old pass.new) }
    ensures twice { OnOk result (AreFewLooks 0 pass.old.view pass.new.view) }
    ensures contended { IfErr result (λ fault. IsDeleteContended latches.now.sizes key fault pass.old pass.new) }
{
    let tried = match optimistic_delete_nowait(latches, pass, key) {
        Ok(tried) => tried,
        Err(fault) => return Err(fault),
    };
    match tried {
        Some(answer) => Ok(answer),
        None => match pessimistic_delete_nowait(latches, pass, key) {
            Ok(answer) => Ok(answer),
            Err(fault) => Err(fault),
        },
    }
}
