//! Lookups that do not wait.

ghost use Rattle.std.specs.Prelude.{◌+◌, ◌*◌, ◌≤◌, IfOk, IfErr, OnOk};
ghost use Rattle.ib_heap.specs.declared.TheConstants.{MOST_LEVEL};
ghost use Rattle.ib_rule.specs.Pass.{IsAtRest};
ghost use Rattle.ib_rule.specs.Under.{under};
ghost use Rattle.ib_cursor.specs.Contention.{IsContended};
ghost use Rattle.ib_cursor.specs.Refusals.{AreFewLooks, looks_of};
ghost use Rattle.ib_leaf.specs.Calls.{MayCall};
ghost use Rattle.ib_index.specs.Lookups.{HasLookedUp};

use crate::lookup::look_up;
use ib_cursor::{NowaitFault, find_nowait};
use ib_latch::{Latches, Sleep};
use ib_map::{Key, Record};
use ib_mtr::Mtr;
use ib_rule::Pass;
use ib_tree::Trees;

// Looks a key up, or tells the latch that was not had.
pub(crate) fn get_nowait<L: Trees, S: Sleep>(
    latches: &Latches<L, S>,
    pass: &mut Pass,
    key: Key,
) -> Result<Record, NowaitFault>
    requires may { MayCall latches.now pass.old }
    requires root { 1 ≤ L.ROOTS }
    ensures rest { IsAtRest latches.now pass.new }
    ensures looked_up { IfOk result (λ answer. under L.Law latches.now HasLookedUp key answer
        pass.old pass.new) }
    ensures twice { OnOk result (AreFewLooks 0 pass.old.view pass.new.view) }
    ensures contended { IfErr result (λ fault. under L.Law latches.now IsContended 1 key fault
        pass.old pass.new) }
    ensures vain { IfErr result (λ fault. AreFewLooks (looks_of fault) pass.old.view
        pass.new.view) }
    ensures looks { pass.new.view.looks.count
        ≤ pass.old.view.looks.count + 2 * (MOST_LEVEL + 2) }
{
    let mut mtr = Mtr::start(latches, pass);
    match find_nowait(&mut mtr, key) {
        Ok(value) => Ok(look_up(mtr, value, key)),
        Err(fault) => {
            mtr.finish();
            Err(fault)
        }
    }
}
