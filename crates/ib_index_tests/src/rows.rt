//! One session: what it is answered at which place.

ghost use Rattle.ib_rule.specs.Pass.{IsAtRest};

use crate::space::{come, delete, get, insert, open, scan_keys};
use ib_index::{Index, SharedSpace};
use ib_map::{Call, Chunk, Chunks, Key, Record, Reply};
use ib_rule::Pass;
use ib_scan::More;
use std::process::Abort;
use std::sync::Wait;

// Inserts the keys 1 to `count`, each with a value equal to it.
pub(crate) fn insert_up_to<R: Abort + Wait>(rt: &R, index: &Index, pass: &mut Pass, count: u32)
    requires rest { IsAtRest index.now pass.old }
    ensures rest { IsAtRest index.now pass.new }
{
    for place in 0..count {
        let key = place as u64 + 1;
        assert_eq!(rt;
            insert(rt, index, pass, key, key),
            inserted(key, key, place)
        );
    }
}

pub(crate) fn inserted(key: u64, value: u64, place: u32) -> Record {
    Record {
        call: Call::Insert {
            key: Key::of_number(key),
            value,
        },
        reply: Reply::Inserted,
        place,
    }
}

pub(crate) fn deleted(key: u64, value: u64, place: u32) -> Record {
    Record {
        call: Call::Delete {
            key: Key::of_number(key),
        },
        reply: Reply::Deleted { value },
        place,
    }
}

pub(crate) fn missing(key: u64, place: u32) -> Record {
    Record {
        call: Call::Delete {
            key: Key::of_number(key),
        },
        reply: Reply::Missing,
        place,
    }
}

// None of these changes needs more than the one leaf, though it is full at first: SX is never taken.
#[test]
fn a_full_leaf_is_changed_alone(rt: HostRuntime) {
    let mut index = open(&rt, rt.alloc(), 100_000);
    let mut one = come(&rt, rt.alloc(), &mut index);
    insert_up_to(&rt, &index, &mut one, 35);
    let there = Record {
        call: Call::Insert {
            key: Key::of_number(3),
            value: 9,
        },
        reply: Reply::Duplicate,
        place: 35,
    };
    assert_eq!(rt; insert(&rt, &index, &mut one, 3, 9), there);
    assert_eq!(rt; delete(&rt, &index, &mut one, 3), deleted(3, 3, 35));
    assert_eq!(rt; delete(&rt, &index, &mut one, 3), missing(3, 36));
    assert_eq!(rt; insert(&rt, &index, &mut one, 40, 40), inserted(40, 40, 36));
    let taken = one.grants_taken();
    assert_eq!(rt; (one.place(), one.made()), (37, 37));
    assert_eq!(rt; (taken.s, taken.sx, taken.x), (78, 0, 76));
    index.disconnect(one);
    assert_eq!(rt; index.connected(), 0);
    index.discard();
}

#[test]
fn a_scan_waits_for_room(rt: HostRuntime) {
    let mut index = open(&rt, rt.alloc(), 16384);
    let mut one = come(&rt, rt.alloc(), &mut index);
    insert_up_to(&rt, &index, &mut one, 18);
    let low = Key::of_number(1);
    let high = Key::of_number(36);
    let mut out = Chunks::with_room(rt.alloc(), 1, 4).expect(&rt, "there is memory");
    assert_eq!(rt;
        scan_keys(&rt, &index, &mut one, low, high, &mut out),
        Err(More { next: low })
    );
    assert!(rt; out.list().is_empty());
    assert_eq!(rt; out.room(), (1, 4));
    out.reserve(1, 18).expect(&rt, "there is memory");
    let whole = Record {
        call: Call::Scan { low, high },
        reply: Reply::Scanned {
            chunks: 1,
            pairs: 18,
        },
        place: 18,
    };
    assert_eq!(rt;
        scan_keys(&rt, &index, &mut one, low, high, &mut out),
        Ok(whole)
    );
    let chunk = Chunk {
        low,
        high,
        place: 18,
        start: 0,
        len: 18,
    };
    assert_eq!(rt; out.list(), [chunk].as_slice());
    assert_eq!(rt; out.pairs().len(), 18);
    assert_eq!(rt; out.pairs().first().copied(), Some((low, 1)));
    assert_eq!(rt; out.pairs().last().copied(), Some((Key::of_number(18), 18)));
    assert_eq!(rt; out.room(), (0, 0));
    index.disconnect(one);
    assert_eq!(rt; index.connected(), 0);
    index.discard();
}

#[test]
fn a_log_has_room_for_one_entry(rt: HostRuntime) {
    let mut index = open(&rt, rt.alloc(), 8196);
    let mut one = come(&rt, rt.alloc(), &mut index);
    assert_eq!(rt;
        insert(&rt, &index, &mut one, 10, 100),
        inserted(10, 100, 0)
    );
    let full = Reply::LogFull {
        used: 23,
        cap: 8196,
    };
    let refused = Record {
        call: Call::Insert {
            key: Key::of_number(11),
            value: 1,
        },
        reply: full,
        place: 1,
    };
    assert_eq!(rt; insert(&rt, &index, &mut one, 11, 1), refused);
    let kept = Record {
        call: Call::Delete {
            key: Key::of_number(10),
        },
        reply: full,
        place: 1,
    };
    assert_eq!(rt; delete(&rt, &index, &mut one, 10), kept);
    let there = Record {
        call: Call::Insert {
            key: Key::of_number(10),
            value: 3,
        },
        reply: Reply::Duplicate,
        place: 1,
    };
    assert_eq!(rt; insert(&rt, &index, &mut one, 10, 3), there);
    let found = Record {
        call: Call::Get {
            key: Key::of_number(10),
        },
        reply: Reply::Found { value: 100 },
        place: 1,
    };
    assert_eq!(rt; get(&rt, &index, &mut one, 10), found);
    index.disconnect(one);
    assert_eq!(rt; index.connected(), 0);
    index.discard();
}
