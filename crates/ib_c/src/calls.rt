//! Lookups and changes of the tree, which do not wait.

ghost use Rattle.std.specs.Prelude.{◌≡◌, ◌≤◌, length, IfErr, IfOk};
ghost use Rattle.ib_map.specs.KeyBytes.{key_of_bytes};
ghost use Rattle.ib_leaf.specs.Calls.{MayCall};
ghost use Rattle.ib_rule.specs.Pass.{IsOf};
ghost use Rattle.ib_c.specs.Calls.{HasDeleted, HasInserted, HasLookedUp, IsRefusedCall};

use crate::answers::{Answered, told_answer};
use crate::status::Status;
use crate::table::Table;
use ib_map::Key;
use ib_rule::Pass;

/// Looks a key up.
pub(crate) fn get_nowait(table: &Table, pass: &mut Pass, bytes: &[u8]) -> Answered
    requires own { IsOf table.now pass.old }
    ensures own { IsOf table.now pass.new }
    ensures looked_up { HasLookedUp bytes.now table.now pass.old result pass.new }
{
    match may_call(table, pass, bytes) {
        Err(status) => told_answer(Err(status)),
        Ok(key) => told_answer(Ok(table.get_nowait(pass, key))),
    }
}

/// Puts a pair in.
pub(crate) fn insert_nowait(table: &Table, pass: &mut Pass, bytes: &[u8], value: u64) -> Answered
    requires own { IsOf table.now pass.old }
    ensures own { IsOf table.now pass.new }
    ensures inserted { HasInserted bytes.now value table.now pass.old result pass.new }
{
    match may_call(table, pass, bytes) {
        Err(status) => told_answer(Err(status)),
        Ok(key) => told_answer(Ok(table.insert_nowait(pass, key, value))),
    }
}

/// Takes a key out.
pub(crate) fn delete_nowait(table: &Table, pass: &mut Pass, bytes: &[u8]) -> Answered
    requires own { IsOf table.now pass.old }
    ensures own { IsOf table.now pass.new }
    ensures deleted { HasDeleted bytes.now table.now pass.old result pass.new }
{
    match may_call(table, pass, bytes) {
        Err(status) => told_answer(Err(status)),
        Ok(key) => told_answer(Ok(table.delete_nowait(pass, key))),
    }
}

// The key of these bytes, where the session may make a call with it, or why not.
fn may_call(_table: &Table, pass: &Pass, bytes: &[u8]) -> Result<Key, Status>
    requires own { IsOf _table.now pass.now }
    ensures ok { IfOk result (λ key. (key ≡ key_of_bytes bytes.now) × (length bytes.now ≤ 15)
        × MayCall _table.now pass.now) }
    ensures refused { IfErr result (IsRefusedCall bytes.now _table.now pass.now) }
{
    let Ok(key) = Key::from_bytes(bytes) else {
        return Err(Status::BadKey);
    };
    // For the proof: the key has 15 bytes at most.
    let _ = key.len();
    if !pass.may_call() {
        return Err(Status::NotAllowed);
    }
    Ok(key)
}
