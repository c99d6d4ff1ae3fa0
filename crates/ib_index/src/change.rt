//! The changes of the index: the key's leaf alone where that is enough, else the tree.

ghost use Rattle.ib_map.specs.declared.call.Call.TheVariants.{Delete, Insert};
ghost use Rattle.ib_rule.specs.Pass.{IsAtRest};
ghost use Rattle.ib_leaf.specs.Calls.{HasCalled, MayCall};
ghost use Rattle.ib_index.specs.Changes.{TakesFewUnless};
ghost use Rattle.ib_leaf.specs.Leaf.{IsFullFor, IsShortFor};
ghost use Rattle.ib_leaf.specs.Under.{under_plans};

use crate::leaf::{optimistic_delete, optimistic_insert};
use crate::pessimistic_delete::pessimistic_delete;
use crate::pessimistic_insert::pessimistic_insert;
use ib_latch::{Latches, Parkers};
use ib_map::{Key, Record};
use ib_planned_log::KeptLaw;
use ib_rule::Pass;
use std::sync::Wait;

// Puts a pair in: into the key's leaf alone, or again where this is full, with the tree.
pub(crate) fn insert<R: Wait>(
    rt: &R,
    latches: &Latches<KeptLaw, Parkers>,
    pass: &mut Pass,
    key: Key,
    value: u64,
) -> Record
    requires may { MayCall latches.now pass.old }
    ensures rest { IsAtRest latches.now pass.new }
    ensures called { under_plans latches.now HasCalled (Insert key value) result pass.old pass.new }
    ensures grants { TakesFewUnless latches.now.sizes (IsFullFor key) key result.reply pass.old pass.new }
{
    match optimistic_insert(rt, latches, pass, key, value) {
        Some(answer) => answer,
        None => pessimistic_insert(rt, latches, pass, key, value),
    }
}

// Takes a key out: of its leaf alone, or again where too few records would be left, with the tree.
pub(crate) fn delete<R: Wait>(
    rt: &R,
    latches: &Latches<KeptLaw, Parkers>,
    pass: &mut Pass,
    key: Key,
) -> Record
    requires may { MayCall latches.now pass.old }
    ensures rest { IsAtRest latches.now pass.new }
    ensures called { under_plans latches.now HasCalled (Delete key) result pass.old pass.new }
    ensures grants { TakesFewUnless latches.now.sizes (IsShortFor key) key result.reply pass.old pass.new }
{
    match optimistic_delete(rt, latches, pass, key) {
        Some(answer) => answer,
        None => pessimistic_delete(rt, latches, pass, key),
    }
}
