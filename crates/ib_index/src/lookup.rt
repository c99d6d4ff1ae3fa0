//! Lookups that wait for latches.

ghost use Rattle.std.specs.Prelude.{◌≡◌, ◌≤◌};
ghost use Rattle.ib_map.specs.Map.{lookup_answer};
ghost use Rattle.ib_rule.specs.Pass.{IsAtRest, PassState};
ghost use Rattle.ib_rule.specs.Under.{under};
ghost use Rattle.ib_mtr.specs.Mtr.{IsMtr};
ghost use Rattle.ib_cursor.specs.Descent.{HasFound};
ghost use Rattle.ib_cursor.specs.Refusals.{AreFewLooks};
ghost use Rattle.ib_leaf.specs.Calls.{MayCall};
ghost use Rattle.ib_index.specs.Lookups.{HasLookedUp};

use ib_cursor::find;
use ib_latch::{Latches, Parkers, Sleep};
use ib_map::{Call, Key, Record, Reply};
use ib_mtr::Mtr;
use ib_rule::Pass;
use ib_tree::Trees;
use std::sync::Wait;

// The reply to a lookup that found this value.
fn reply_of(value: Option<u64>) -> Reply
    ensures { result ≡ lookup_answer value }
{
    match value {
        Some(value) => Reply::Found { value },
        None => Reply::NotFound,
    }
}

// Ends a lookup that has found what the key's leaf has of it: the log's end is looked at once more, and
// only then the leaf's latch is given up.
pub(crate) fn look_up<L: Trees, S: Sleep>(
    mtr: Mtr<'_, L, S>,
    value: Option<u64>,
    key: Key,
) -> Record
    requires mtr { IsMtr mtr.latches.now mtr.pass.now }
    requires root { 1 ≤ L.ROOTS }
    requires found { (p : PassState)
        × under L.Law mtr.latches.now HasFound 1 key value p mtr.pass.now }
    ensures looked_up { (p : PassState)
        → under L.Law mtr.entry.latches.now HasFound 1 key value p mtr.entry.pass.now
        → under L.Law mtr.entry.latches.now HasLookedUp key result p mtr.exit.1.0.now }
    ensures rest { IsAtRest mtr.entry.latches.now mtr.exit.1.0.now }
    ensures few { (p : PassState) → AreFewLooks 0 p.view mtr.entry.pass.now.view
        → AreFewLooks 0 p.view mtr.exit.1.0.now.view }
    ensures looks { mtr.exit.1.0.now.view.looks.count
        ≡ mtr.entry.pass.now.view.looks.count }
{
    // For the proof: the laws of trees, at the number of pages that the space has.
    L::trees_law();
    let _ = mtr.geometry().pages();
    // For the proof: the session's entries are those of its number.
    let _ = mtr.pass().number();
    let reply = reply_of(value);
    let place = mtr.commit_read();
    Record {
        call: Call::Get { key },
        reply,
        place,
    }
}

/// Looks a key up in the first tree of a space, waiting for each latch, as `Index::get` does.
///
/// ```
/// let answer = get(rt, pair.latches(), &mut pass, key);
/// ```
pub fn get<L: Trees, R: Wait>(
    rt: &R,
    latches: &Latches<L, Parkers>,
    pass: &mut Pass,
    key: Key,
) -> Record
    requires may { MayCall latches.now pass.old }
    requires root { 1 ≤ L.ROOTS }
    ensures rest { IsAtRest latches.now pass.new }
    ensures looked_up { under L.Law latches.now HasLookedUp key result pass.old pass.new }
{
    let mut mtr = Mtr::start(latches, pass);
    let value = find(rt, &mut mtr, key);
    look_up(mtr, value, key)
}
