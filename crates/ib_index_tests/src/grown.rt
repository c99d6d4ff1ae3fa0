//! One session on a tree that grows and shrinks: leaves are split and merged, the root is raised and lifted, and in the end no page is free.

ghost use Rattle.std.specs.Prelude.{◌≡◌, true};
ghost use Rattle.ib_core.specs.Sessions.{idle};
ghost use Rattle.ib_rule.specs.Pass.{IsOf};

use crate::pages::{check_page, close, free_pages, leaf, node};
use crate::rows::{deleted, insert_up_to, inserted, missing};
use crate::space::{come, delete, insert, open, scan_keys};
use ib_index::{Index, SharedSpace};
use ib_map::{Call, Chunk, Chunks, Key, Record, Reply, after};
use ib_page::Image;
use ib_rule::Pass;
use ib_scan::More;
use std::process::Abort;
use std::sync::Wait;

// A scan of this part that finds one chunk, at this place.
fn scanned(low: Key, high: Key, pairs: u32, place: u32) -> Record {
    Record {
        call: Call::Scan { low, high },
        reply: Reply::Scanned { chunks: 1, pairs },
        place,
    }
}

#[test]
fn a_full_root_becomes_a_node(rt: HostRuntime) {
    let mut index = open(&rt, rt.alloc(), 16384);
    let mut one = come(&rt, rt.alloc(), &mut index);
    insert_up_to(&rt, &index, &mut one, 36);
    let taken = one.grants_taken();
    assert_eq!(rt; taken.sx, 1);
    index.disconnect(one);
    let closed = close(&rt, rt.alloc(), index);
    let records = [(Key::least(), 2), (Key::of_number(19), 3)];
    check_page(&rt, &closed, 1, &node(&rt, 36, records.as_slice()));
    check_page(&rt, &closed, 2, &leaf(&rt, 1, 0, 3, 1, 18));
    check_page(&rt, &closed, 3, &leaf(&rt, 1, 2, 0, 19, 36));
    assert_eq!(rt; free_pages(&closed), 12);
}

#[test]
fn two_leaves_are_merged_and_the_root_is_lifted(rt: HostRuntime) {
    let mut index = open(&rt, rt.alloc(), 32768);
    let mut one = come(&rt, rt.alloc(), &mut index);
    insert_up_to(&rt, &index, &mut one, 36);
    assert_eq!(rt; delete(&rt, &index, &mut one, 36), deleted(36, 36, 36));
    assert_eq!(rt; delete(&rt, &index, &mut one, 35), deleted(35, 35, 37));
    assert_eq!(rt; delete(&rt, &index, &mut one, 35), missing(35, 38));
    let taken = one.grants_taken();
    assert_eq!(rt; taken.sx, 2);
    index.disconnect(one);
    let closed = close(&rt, rt.alloc(), index);
    check_page(&rt, &closed, 1, &leaf(&rt, 37, 0, 0, 1, 34));
    check_page(&rt, &closed, 2, &Image::free(2));
    check_page(&rt, &closed, 3, &Image::free(3));
    assert_eq!(rt; free_pages(&closed), 14);
}

// It goes on at the key behind the one at which it stopped, and nothing lies between.
#[test]
fn a_scan_goes_on_where_it_stopped(rt: HostRuntime) {
    let mut index = open(&rt, rt.alloc(), 16384);
    let mut one = come(&rt, rt.alloc(), &mut index);
    insert_up_to(&rt, &index, &mut one, 36);
    let low = Key::of_number(1);
    let high = Key::of_number(36);
    let next = after(Key::of_number(18)).expect(&rt, "there is a key behind");
    let mut out = Chunks::with_room(rt.alloc(), 1, 4).expect(&rt, "there is memory");
    assert_eq!(rt;
        scan_keys(&rt, &index, &mut one, low, high, &mut out),
        Err(More { next: low })
    );
    assert!(rt; out.list().is_empty());
    out.reserve(1, 18).expect(&rt, "there is memory");
    assert_eq!(rt;
        scan_keys(&rt, &index, &mut one, low, high, &mut out),
        Err(More { next })
    );
    out.reserve(1, 18).expect(&rt, "there is memory");
    assert_eq!(rt;
        scan_keys(&rt, &index, &mut one, next, high, &mut out),
        Ok(scanned(next, high, 18, 36))
    );
    let first = Chunk {
        low,
        high: Key::of_number(18),
        place: 36,
        start: 0,
        len: 18,
    };
    let second = Chunk {
        low: next,
        high,
        place: 36,
        start: 18,
        len: 18,
    };
    assert_eq!(rt; out.list(), [first, second].as_slice());
    assert_eq!(rt; out.pairs().len(), 36);
    assert_eq!(rt; out.pairs().last().copied(), Some((high, 36)));
    index.disconnect(one);
    assert_eq!(rt; index.connected(), 0);
    index.discard();
}

#[test]
fn a_space_gets_full(rt: HostRuntime) {
    let mut index = open(&rt, rt.alloc(), 16_777_216);
    let mut one = come(&rt, rt.alloc(), &mut index);
    insert_up_to(&rt, &index, &mut one, 269);
    let full = Record {
        call: Call::Insert {
            key: Key::of_number(270),
            value: 270,
        },
        reply: Reply::SpaceFull { free: 0, need: 1 },
        place: 269,
    };
    assert_eq!(rt; insert(&rt, &index, &mut one, 270, 270), full);
    assert_eq!(rt; delete(&rt, &index, &mut one, 1), deleted(1, 1, 269));
    assert_eq!(rt; insert(&rt, &index, &mut one, 1, 5), inserted(1, 5, 270));
    index.disconnect(one);
    assert_eq!(rt; index.connected(), 0);
    index.discard();
}
