//! Scans of the tree, which do not wait.

ghost use Rattle.std.specs.Prelude.{◌≡◌, ◌≤◌, [], length, IfErr, IfOk};
ghost use Rattle.ib_map.specs.KeyBytes.{key_of_bytes};
ghost use Rattle.ib_rule.specs.Pass.{IsOf};
ghost use Rattle.ib_scan.specs.Scans.{MayScan};
ghost use Rattle.ib_c.specs.declared.status.Status.TheVariants.{BadKey};
ghost use Rattle.ib_c.specs.Scans.{AreShort, HasScanned, IsLong, IsRefusedRoom, IsScan, filled};
ghost use Rattle.ib_c.specs.ScanWords.{room_of};

use crate::replay::PAIR_WORDS;
use crate::scan_words::{CHUNK_WORDS, put};
use crate::scanned::{Scanned, told_scan};
use crate::status::Status;
use crate::table::Table;
use ib_map::{Chunks, Key, Record};
use ib_rule::Pass;
use ib_scan_nowait::{Halt, scan_nowait as scan_tree};
use std::alloc::Global;

// The keys of these bytes, or why there are none.
fn keys_of(low: &[u8], high: &[u8]) -> Result<(Key, Key), Status>
    ensures ok { IfOk result (λ keys. AreShort low.now high.now
        × (keys.0 ≡ key_of_bytes low.now) × (keys.1 ≡ key_of_bytes high.now)) }
    ensures refused { IfErr result (λ status. (status ≡ BadKey) × IsLong low.now high.now) }
{
    let Ok(from) = Key::from_bytes(low) else {
        return Err(Status::BadKey);
    };
    let Ok(to) = Key::from_bytes(high) else {
        return Err(Status::BadKey);
    };
    // For the proof: a key has 15 bytes at most.
    let _ = (from.len(), to.len());
    Ok((from, to))
}

// The room that the slices have, where the session may scan with it, or why not.
fn room_in(
    alloc: Global,
    _table: &Table,
    pass: &Pass,
    chunks: &[u64],
    pairs: &[u64],
) -> Result<Chunks, Status>
    requires own { IsOf _table.now pass.now }
    ensures ok { IfOk result (λ held. (held ≡ room_of chunks.now pairs.now)
        × MayScan _table.now (room_of chunks.now pairs.now) pass.now) }
    ensures refused { IfErr result
        (IsRefusedRoom (room_of chunks.now pairs.now) _table.now pass.now) }
{
    let room = chunks.len() / CHUNK_WORDS;
    if !pass.may_scan(room) {
        return Err(Status::NotAllowed);
    }
    match Chunks::with_room(alloc, room, pairs.len() / PAIR_WORDS) {
        Ok(held) => Ok(held),
        Err(_) => Err(Status::OutOfMemory),
    }
}

// The tree's scan into room that has no chunks yet.
fn scan(
    table: &Table,
    pass: &mut Pass,
    low: Key,
    high: Key,
    out: &mut Chunks,
) -> Result<Record, Halt>
    requires may { MayScan table.now out.old pass.old }
    requires none { out.old.list ≡ [] }
    ensures scan { IsScan low high table.now out.old pass.old result out.new pass.new }
    ensures chunks { length out.new.list ≤ out.old.chunk_room }
    ensures pairs { length out.new.pairs ≤ out.old.pair_room }
{
    let answer = scan_tree(table.latches(), pass, low, high, out);
    // For the proof: the pairs of the chunks are all pairs.
    let _ = out.pairs();
    answer
}

/// Scans from one key to another.
pub(crate) fn scan_nowait(
    alloc: Global,
    table: &Table,
    pass: &mut Pass,
    low: &[u8],
    high: &[u8],
    chunks: &mut [u64],
    pairs: &mut [u64],
) -> Scanned
    requires own { IsOf table.now pass.old }
    ensures own { IsOf table.now pass.new }
    ensures scanned { HasScanned low.now high.now chunks.old pairs.old table.now pass.old
        (filled result chunks.new pairs.new) pass.new }
{
    match keys_of(low, high) {
        Err(status) => Scanned::only(status),
        Ok((from, to)) => match room_in(alloc, table, pass, chunks, pairs) {
            Err(status) => Scanned::only(status),
            Ok(mut held) => {
                let answer = scan(table, pass, from, to, &mut held);
                put(&held, chunks, pairs);
                told_scan(answer, &held)
            }
        },
    }
}
