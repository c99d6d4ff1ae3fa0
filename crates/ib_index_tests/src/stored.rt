//! Scans that keep their position: at which key each call stops, and how many latches it takes.

ghost use Rattle.std.specs.Prelude.{◌≡◌, false, OnErr};
ghost use Rattle.ib_logrec.specs.Log.{by_place};
ghost use Rattle.ib_tree.specs.TreeLog.{opening};
ghost use Rattle.ib_planned_log.specs.Kept.{IsKeptLog};
ghost use Rattle.ib_rule.specs.Pass.{IsAtRest};
ghost use Rattle.ib_scan.specs.Stored.{KeepsPosition, MayGoOn};

use crate::rows::{deleted, insert_up_to, inserted};
use crate::space::{come, delete, insert, may_scan, open};
use ib_index::{Index, SharedSpace};
use ib_map::{Call, Chunk, Chunks, Key, Record, Reply, after};
use ib_rule::Pass;
use ib_scan::{More, Stored, scan_on};
use std::process::Abort;
use std::sync::Wait;

// A scan of these keys, before its first call.
fn begin(index: &Index, pass: &Pass, low: u64, high: u64) -> Stored
    ensures { MayGoOn index.now.sizes (IsKeptLog index.now.sizes.pages)
        (by_place opening index.now.sizes.pages) 1 result pass.now }
{
    Stored::new(Key::of_number(low), Key::of_number(high))
}

// Goes on with a scan.
fn go_on<R: Abort + Wait>(
    rt: &R,
    index: &Index,
    pass: &mut Pass,
    stored: &mut Stored,
    out: &mut Chunks,
) -> Result<Record, More>
    requires rest { IsAtRest index.now pass.old }
    requires goes_on { MayGoOn index.now.sizes (IsKeptLog index.now.sizes.pages)
        (by_place opening index.now.sizes.pages) 1 stored.old pass.old }
    ensures rest { IsAtRest index.now pass.new }
    ensures unfinished { OnErr result (stored.new.finished ≡ false) }
    ensures keeps { KeepsPosition index.now.sizes (IsKeptLog index.now.sizes.pages)
        (by_place opening index.now.sizes.pages) 1 stored.new pass.new }
{
    may_scan(rt, pass, out);
    scan_on(rt, index.latches(), pass, stored, out)
}

// .. which finds no room: the key at which it stops.
fn stop<R: Abort + Wait>(
    rt: &R,
    index: &Index,
    pass: &mut Pass,
    stored: &mut Stored,
    out: &mut Chunks,
) -> Key
    requires rest { IsAtRest index.now pass.old }
    requires goes_on { MayGoOn index.now.sizes (IsKeptLog index.now.sizes.pages)
        (by_place opening index.now.sizes.pages) 1 stored.old pass.old }
    ensures rest { IsAtRest index.now pass.new }
    ensures goes_on { MayGoOn index.now.sizes (IsKeptLog index.now.sizes.pages)
        (by_place opening index.now.sizes.pages) 1 stored.new pass.new }
{
    match go_on(rt, index, pass, stored, out) {
        Err(more) => more.next,
        Ok(_) => panic!(rt; "it finds no room"),
    }
}

// The record of a call that reads one chunk.
fn scanned(low: Key, high: Key, pairs: u32, place: u32) -> Record {
    Record {
        call: Call::Scan { low, high },
        reply: Reply::Scanned { chunks: 1, pairs },
        place,
    }
}

fn behind(rt: &impl Abort, number: u64) -> Key {
    after(Key::of_number(number)).expect(rt, "there is a key behind")
}

// The first call takes the index, the root and the leaf; the second one that leaf, and the one behind it.
#[test]
fn a_scan_goes_on_from_its_leaf(rt: HostRuntime) {
    let mut index = open(&rt, rt.alloc(), 16384);
    let mut one = come(&rt, rt.alloc(), &mut index);
    insert_up_to(&rt, &index, &mut one, 36);
    let mut out = Chunks::with_room(rt.alloc(), 1, 18).expect(&rt, "there is memory");
    let mut stored = begin(&index, &one, 1, 36);
    assert_eq!(rt; stored.next(), Key::of_number(1));
    let before = one.grants_taken().s;
    assert!(rt; before < 1000);
    let next = stop(&rt, &index, &mut one, &mut stored, &mut out);
    assert_eq!(rt; next, behind(&rt, 18));
    assert_eq!(rt; (stored.next(), stored.finished()), (next, false));
    assert_eq!(rt; one.grants_taken().s, before + 3);
    out.reserve(1, 18).expect(&rt, "there is memory");
    assert_eq!(rt;
        go_on(&rt, &index, &mut one, &mut stored, &mut out),
        Ok(scanned(next, Key::of_number(36), 18, 36))
    );
    assert!(rt; stored.finished());
    assert_eq!(rt; one.grants_taken().s, before + 5);
    let first = Chunk {
        low: Key::of_number(1),
        high: Key::of_number(18),
        place: 36,
        start: 0,
        len: 18,
    };
    let second = Chunk {
        low: next,
        high: Key::of_number(36),
        place: 36,
        start: 18,
        len: 18,
    };
    assert_eq!(rt; out.list(), [first, second].as_slice());
    index.disconnect(one);
    assert_eq!(rt; index.connected(), 0);
    index.discard();
}

// The leaf that is kept was changed: it is given up, and the key is sought from the index on. It lies in the range
// of that leaf, which has no such key, so the next leaf is taken.
#[test]
fn a_scan_whose_leaf_was_changed_descends_again(rt: HostRuntime) {
    let mut index = open(&rt, rt.alloc(), 16384);
    let mut one = come(&rt, rt.alloc(), &mut index);
    let mut two = come(&rt, rt.alloc(), &mut index);
    insert_up_to(&rt, &index, &mut two, 36);
    let mut out = Chunks::with_room(rt.alloc(), 1, 18).expect(&rt, "there is memory");
    let mut stored = begin(&index, &one, 1, 36);
    let next = stop(&rt, &index, &mut one, &mut stored, &mut out);
    assert_eq!(rt; (next, one.grants_taken().s), (behind(&rt, 18), 3));
    assert_eq!(rt; delete(&rt, &index, &mut two, 18), deleted(18, 18, 36));
    out.reserve(1, 18).expect(&rt, "there is memory");
    assert_eq!(rt;
        go_on(&rt, &index, &mut one, &mut stored, &mut out),
        Ok(scanned(next, Key::of_number(36), 18, 37))
    );
    assert_eq!(rt; one.grants_taken().s, 8);
    index.disconnect(one);
    index.disconnect(two);
    assert_eq!(rt; index.connected(), 0);
    index.discard();
}

// The leaf that is kept was merged into the one before it, and freed: the key lies in the range of that one.
#[test]
fn a_scan_whose_leaf_was_merged_away_descends_again(rt: HostRuntime) {
    let mut index = open(&rt, rt.alloc(), 32768);
    let mut one = come(&rt, rt.alloc(), &mut index);
    let mut two = come(&rt, rt.alloc(), &mut index);
    insert_up_to(&rt, &index, &mut two, 54);
    let mut out = Chunks::with_room(rt.alloc(), 1, 18).expect(&rt, "there is memory");
    let mut stored = begin(&index, &one, 19, 54);
    let next = stop(&rt, &index, &mut one, &mut stored, &mut out);
    assert_eq!(rt; (next, one.grants_taken().s), (behind(&rt, 36), 3));
    assert_eq!(rt; delete(&rt, &index, &mut two, 36), deleted(36, 36, 54));
    assert_eq!(rt; delete(&rt, &index, &mut two, 35), deleted(35, 35, 55));
    out.reserve(1, 18).expect(&rt, "there is memory");
    assert_eq!(rt;
        go_on(&rt, &index, &mut one, &mut stored, &mut out),
        Ok(scanned(next, Key::of_number(54), 18, 56))
    );
    assert_eq!(rt; one.grants_taken().s, 8);
    index.disconnect(one);
    index.disconnect(two);
    assert_eq!(rt; index.connected(), 0);
    index.discard();
}

// The leaf that is kept was the root, and became a node. The first call has no chunk place: it keeps the leaf on which
// it began.
#[test]
fn a_scan_whose_root_was_raised_descends_again(rt: HostRuntime) {
    let mut index = open(&rt, rt.alloc(), 16384);
    let mut one = come(&rt, rt.alloc(), &mut index);
    let mut two = come(&rt, rt.alloc(), &mut index);
    insert_up_to(&rt, &index, &mut two, 35);
    let mut out = Chunks::with_room(rt.alloc(), 0, 0).expect(&rt, "there is memory");
    let mut stored = begin(&index, &one, 1, 36);
    let low = stop(&rt, &index, &mut one, &mut stored, &mut out);
    assert_eq!(rt; (low, one.grants_taken().s), (Key::of_number(1), 2));
    assert_eq!(rt; insert(&rt, &index, &mut two, 36, 36), inserted(36, 36, 35));
    out.reserve(1, 18).expect(&rt, "there is memory");
    let next = stop(&rt, &index, &mut one, &mut stored, &mut out);
    assert_eq!(rt; (next, one.grants_taken().s), (behind(&rt, 18), 6));
    out.reserve(1, 18).expect(&rt, "there is memory");
    assert_eq!(rt;
        go_on(&rt, &index, &mut one, &mut stored, &mut out),
        Ok(scanned(next, Key::of_number(36), 18, 36))
    );
    assert_eq!(rt; one.grants_taken().s, 8);
    index.disconnect(one);
    index.disconnect(two);
    assert_eq!(rt; index.connected(), 0);
    index.discard();
}
