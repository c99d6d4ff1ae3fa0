//! The passes of a space that no session has.

ghost use Rattle.std.specs.Prelude.{◌≡◌, ◌+◌, ◌≤◌, [], length, vec_capacity, IfNone, IfSome, IsTrue};
ghost use Rattle.ib_rule.specs.Connects.{IsDeserted};
ghost use Rattle.ib_rule.specs.Pass.{IsAtRest};
ghost use Rattle.ib_c.specs.SpaceStates.{AreAtRest, AreUnused, IsUnused, IsWhole, ended_with};

use crate::table::Table;
use ib_rule::Pass;
use ib_shared::SharedSpace;
use std::alloc::Global;

/// Draws so many passes from a new space into the pool, or fewer where memory lacks.
#[tactic(auto, using(crate::proofs::Pools::one_more, crate::proofs::Pools::are_still, crate::proofs::Pools::one_unused_more))]
pub(crate) fn connect_all(
    table: &mut Table,
    alloc: Global,
    sessions: u32,
    pool: &mut Vec<Pass>,
) -> bool
    requires new { (table.old.drawn ≡ 0) × (table.old.ended ≡ []) }
    requires none { pool.old.items ≡ [] }
    requires room { sessions ≤ vec_capacity pool.old }
    ensures rest { AreAtRest table.new pool.new.items }
    ensures whole { IsWhole table.new pool.new.items }
    ensures sizes { table.new.sizes ≡ table.old.sizes }
    ensures ended { table.new.ended ≡ [] }
    ensures unused { AreUnused 1 pool.new.items }
    ensures room { sessions ≤ vec_capacity pool.new }
    ensures all { IsTrue result → length pool.new.items ≡ sessions }
{
    for _ in 0..sessions {
        match draw(table, alloc) {
            Some(pass) => pool.push_reserved(pass),
            None => return false,
        }
    }
    true
}

// Draws a pass from the space, where memory does not lack.
fn draw(table: &mut Table, alloc: Global) -> Option<Pass>
    ensures some { IfSome result (λ p. IsAtRest table.new p × IsUnused (table.old.drawn + 1) p
        × (table.new ≡ record table.old { drawn = table.old.drawn + 1 })) }
    ensures none { IfNone result (table.new ≡ table.old) }
{
    match table.connect(alloc) {
        Ok(pass) => Some(pass),
        Err(_) => None,
    }
}

/// Gives all passes of the pool back: nobody is connected then.
#[tactic(auto, using(crate::proofs::Pools::one_fewer, crate::proofs::Pools::are_still, crate::proofs::Pools::one_ended_more))]
pub(crate) fn disconnect_all(table: &mut Table, pool: &mut Vec<Pass>)
    requires rest { AreAtRest table.old pool.old.items }
    requires whole { IsWhole table.old pool.old.items }
    ensures none { pool.new.items ≡ [] }
    ensures deserted { IsDeserted table.new }
    ensures space { table.new ≡ ended_with pool.old.items table.old }
{
    while let Some(pass) = pool.pop() {
        table.disconnect(pass);
    }
}
