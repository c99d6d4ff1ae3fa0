//! Changes and scans that do not wait: made where nobody is in the way, else refused, with nothing changed.

ghost use Rattle.std.specs.Prelude.{◌≡◌};
ghost use Rattle.ib_core.specs.Sessions.{idle};
ghost use Rattle.ib_rule.specs.Pass.{IsAtRest, IsOf};

use crate::rows::{deleted, inserted, missing};
use crate::space::{come, may_call, may_scan};
use ib_core::Phase;
use ib_cursor::NowaitFault;
use ib_index::{Index, SharedSpace};
use ib_latch::NoSleep;
use ib_layout::Geometry;
use ib_levels::{Latch, Level};
use ib_map::{Call, Chunks, Key, Record, Reply, after};
use ib_rule::Pass;
use ib_scan_nowait::{Halt, scan_nowait};
use ib_word::LockWord;
use std::alloc::Global;
use std::process::Abort;

// An index on 16 pages on which nobody sleeps.
fn open_nowait(rt: &impl Abort, alloc: Global) -> Index<NoSleep> {
    let sizes = Geometry::new(16, 100_000).expect(rt, "there are such sizes");
    Index::open(alloc, sizes).expect(rt, "there is memory")
}

fn insert_nowait(
    rt: &impl Abort,
    index: &Index<NoSleep>,
    pass: &mut Pass,
    key: u64,
) -> Result<Record, NowaitFault>
    requires rest { IsAtRest index.now pass.old }
    ensures rest { IsAtRest index.now pass.new }
{
    may_call(rt, pass);
    index.insert_nowait(pass, Key::of_number(key), key)
}

fn delete_nowait(
    rt: &impl Abort,
    index: &Index<NoSleep>,
    pass: &mut Pass,
    key: u64,
) -> Result<Record, NowaitFault>
    requires rest { IsAtRest index.now pass.old }
    ensures rest { IsAtRest index.now pass.new }
{
    may_call(rt, pass);
    index.delete_nowait(pass, Key::of_number(key))
}

// Inserts the keys 1 to `count`, each with a value equal to it.
fn insert_up_to(rt: &impl Abort, index: &Index<NoSleep>, pass: &mut Pass, count: u32)
    requires rest { IsAtRest index.now pass.old }
    ensures rest { IsAtRest index.now pass.new }
{
    for place in 0..count {
        let key = place as u64 + 1;
        assert_eq!(rt;
            insert_nowait(rt, index, pass, key),
            Ok(inserted(key, key, place))
        );
    }
}

// The root is split, and in the end two leaves are merged again.
#[test]
fn changes_are_made_by_tries(rt: HostRuntime) {
    let mut index = open_nowait(&rt, rt.alloc());
    let mut one = come(&rt, rt.alloc(), &mut index);
    insert_up_to(&rt, &index, &mut one, 36);
    let there = Record {
        call: Call::Insert {
            key: Key::of_number(3),
            value: 3,
        },
        reply: Reply::Duplicate,
        place: 36,
    };
    assert_eq!(rt; insert_nowait(&rt, &index, &mut one, 3), Ok(there));
    assert_eq!(rt;
        delete_nowait(&rt, &index, &mut one, 36),
        Ok(deleted(36, 36, 36))
    );
    assert_eq!(rt;
        delete_nowait(&rt, &index, &mut one, 35),
        Ok(deleted(35, 35, 37))
    );
    assert_eq!(rt;
        delete_nowait(&rt, &index, &mut one, 35),
        Ok(missing(35, 38))
    );
    assert_eq!(rt; one.grants_taken().sx, 2);
    index.disconnect(one);
    assert_eq!(rt; index.connected(), 0);
    index.discard();
}

// X on a latch, for who asks at once.
fn own(rt: &impl Abort, index: &Index<NoSleep>, pass: &mut Pass, latch: Latch, level: Level)
    requires own { IsOf index.now pass.old }
    requires idle { pass.old.view.session ≡ idle }
    ensures own { IsOf index.now pass.new }
    ensures scratch { pass.new.has_scratch ≡ pass.old.has_scratch }
{
    assert!(rt; index.latches().space().geometry().pages() > latch.0);
    assert!(rt; pass.may_grow());
    assert!(rt; pass.can_wish(latch, level));
    assert_eq!(rt; index.latches().try_x(pass, latch, level), Ok(()));
}

fn leave(rt: &impl Abort, index: &Index<NoSleep>, pass: &mut Pass, latch: Latch)
    requires own { IsOf index.now pass.old }
    ensures own { IsOf index.now pass.new }
    ensures idle { pass.new.view.session ≡ idle }
    ensures scratch { pass.new.has_scratch ≡ pass.old.has_scratch }
{
    assert!(rt; index.latches().space().geometry().pages() > latch.0);
    assert!(rt; pass.phase() == Phase::Free);
    assert!(rt; pass.counts(latch).x > 0);
    index.latches().unlock_x(pass, latch);
    assert!(rt; pass.is_idle());
}

// What an insert of 7 is told that was refused the latch.
fn busy(latch: Latch) -> Result<Record, NowaitFault> {
    Err(NowaitFault::Busy {
        latch,
        word: LockWord(0),
    })
}

#[test]
fn a_change_is_refused_what_another_owns(rt: HostRuntime) {
    let mut index = open_nowait(&rt, rt.alloc());
    let mut one = come(&rt, rt.alloc(), &mut index);
    let mut two = come(&rt, rt.alloc(), &mut index);
    own(&rt, &index, &mut one, Latch::INDEX, Level::IndexTree);
    assert_eq!(rt; insert_nowait(&rt, &index, &mut two, 7), busy(Latch::INDEX));
    leave(&rt, &index, &mut one, Latch::INDEX);
    own(&rt, &index, &mut one, Latch(3), Level::TreeNode);
    assert_eq!(rt; insert_nowait(&rt, &index, &mut two, 7), busy(Latch(3)));
    leave(&rt, &index, &mut one, Latch(3));
    own(&rt, &index, &mut one, Latch::LOG, Level::Log);
    assert_eq!(rt; insert_nowait(&rt, &index, &mut two, 7), busy(Latch::LOG));
    leave(&rt, &index, &mut one, Latch::LOG);
    let taken = two.grants_taken();
    assert_eq!(rt; (taken.s, taken.sx, taken.x), (3, 0, 1));
    assert_eq!(rt; (two.place(), two.made()), (0, 0));
    assert_eq!(rt;
        insert_nowait(&rt, &index, &mut two, 7),
        Ok(inserted(7, 7, 0))
    );
    index.disconnect(one);
    index.disconnect(two);
    assert_eq!(rt; index.connected(), 0);
    index.discard();
}

// The root is full, and another is about to change the structure: the insert comes to the leaf, and is refused the
// index in SX.
#[test]
fn a_full_leaf_is_left_as_it_was(rt: HostRuntime) {
    let mut index = open_nowait(&rt, rt.alloc());
    let mut one = come(&rt, rt.alloc(), &mut index);
    let mut two = come(&rt, rt.alloc(), &mut index);
    insert_up_to(&rt, &index, &mut two, 35);
    claim(&rt, &index, &mut one);
    let busy = NowaitFault::Busy {
        latch: Latch::INDEX,
        word: LockWord(0x1000_0000),
    };
    assert_eq!(rt; insert_nowait(&rt, &index, &mut two, 36), Err(busy));
    assert_eq!(rt; (two.place(), two.made()), (35, 35));
    leave_claim(&rt, &index, &mut one);
    assert_eq!(rt;
        insert_nowait(&rt, &index, &mut two, 36),
        Ok(inserted(36, 36, 35))
    );
    index.disconnect(one);
    index.disconnect(two);
    assert_eq!(rt; index.connected(), 0);
    index.discard();
}

// SX on the index, as who is about to change the structure has it.
fn claim(rt: &impl Abort, index: &Index<NoSleep>, pass: &mut Pass)
    requires own { IsOf index.now pass.old }
    requires idle { pass.old.view.session ≡ idle }
    ensures own { IsOf index.now pass.new }
    ensures scratch { pass.new.has_scratch ≡ pass.old.has_scratch }
{
    assert!(rt; index.latches().space().geometry().pages() > 1);
    assert!(rt; pass.may_grow());
    assert!(rt; pass.can_wish(Latch::INDEX, Level::IndexTree));
    assert_eq!(rt;
        index.latches().try_sx(pass, Latch::INDEX, Level::IndexTree),
        Ok(())
    );
}

fn leave_claim(rt: &impl Abort, index: &Index<NoSleep>, pass: &mut Pass)
    requires own { IsOf index.now pass.old }
    ensures own { IsOf index.now pass.new }
    ensures idle { pass.new.view.session ≡ idle }
    ensures scratch { pass.new.has_scratch ≡ pass.old.has_scratch }
{
    assert!(rt; index.latches().space().geometry().pages() > 1);
    assert!(rt; pass.phase() == Phase::Free);
    assert!(rt; pass.counts(Latch::INDEX).sx > 0);
    index.latches().unlock_sx(pass, Latch::INDEX);
    assert!(rt; pass.is_idle());
}

fn scan_keys(
    rt: &impl Abort,
    index: &Index<NoSleep>,
    pass: &mut Pass,
    low: Key,
    out: &mut Chunks,
) -> Result<Record, Halt>
    requires rest { IsAtRest index.now pass.old }
    ensures rest { IsAtRest index.now pass.new }
{
    may_scan(rt, pass, out);
    scan_nowait(index.latches(), pass, low, Key::of_number(36), out)
}

// A scan of this part up to 36 that finds one chunk.
fn one_chunk(low: Key) -> Record {
    Record {
        call: Call::Scan {
            low,
            high: Key::of_number(36),
        },
        reply: Reply::Scanned {
            chunks: 1,
            pairs: 18,
        },
        place: 36,
    }
}

#[test]
fn a_scan_keeps_what_it_read_where_a_leaf_is_refused(rt: HostRuntime) {
    let mut index = open_nowait(&rt, rt.alloc());
    let mut one = come(&rt, rt.alloc(), &mut index);
    let mut two = come(&rt, rt.alloc(), &mut index);
    insert_up_to(&rt, &index, &mut two, 36);
    let mut out = Chunks::with_room(rt.alloc(), 3, 40).expect(&rt, "there is memory");
    let next = after(Key::of_number(18)).expect(&rt, "there is a key behind");
    own(&rt, &index, &mut one, Latch(5), Level::TreeNode);
    let refused = Halt::Refused {
        next,
        fault: NowaitFault::Busy {
            latch: Latch(5),
            word: LockWord(0),
        },
    };
    assert_eq!(rt;
        scan_keys(&rt, &index, &mut two, Key::of_number(1), &mut out),
        Err(refused)
    );
    assert_eq!(rt; (out.list().len(), out.pairs().len()), (1, 18));
    leave(&rt, &index, &mut one, Latch(5));
    assert_eq!(rt;
        scan_keys(&rt, &index, &mut two, next, &mut out),
        Ok(one_chunk(next))
    );
    assert_eq!(rt; (out.list().len(), out.pairs().len()), (2, 36));
    assert_eq!(rt;
        scan_keys(&rt, &index, &mut two, Key::of_number(1), &mut out),
        Err(Halt::NoRoom {
            next: Key::of_number(1)
        })
    );
    index.disconnect(one);
    index.disconnect(two);
    assert_eq!(rt; index.connected(), 0);
    index.discard();
}
