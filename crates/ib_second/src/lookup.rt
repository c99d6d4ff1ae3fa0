//! Lookups in the first tree.

ghost use Rattle.ib_rule.specs.Pass.{IsAtRest};
ghost use Rattle.ib_leaf.specs.Calls.{MayCall};
ghost use Rattle.ib_second.specs.Calls.{HasLookedUpPair};

use ib_latch::{Latches, Parkers};
use ib_map::{Key, Record};
use ib_pair_law::PairLaw;
use ib_rule::Pass;
use std::sync::Wait;

/// Looks a key up, as `Pair::get` does.
pub(crate) fn get<R: Wait>(
    rt: &R,
    latches: &Latches<PairLaw, Parkers>,
    pass: &mut Pass,
    key: Key,
) -> Record
    requires may { MayCall latches.now pass.old }
    ensures rest { IsAtRest latches.now pass.new }
    ensures looked_up { HasLookedUpPair latches.now.sizes key result pass.old pass.new }
{
    // For the proof: a space has a number of pages of which the laws speak.
    let _ = latches.space().geometry().pages();
    ib_index::get(rt, latches, pass, key)
}
