//! Scans of a new tree, whose root is its one leaf.

ghost use Rattle.std.specs.Prelude.{◌≡◌};
ghost use Rattle.ib_rule.specs.Pass.{IsAtRest};
ghost use Rattle.ib_rule.specs.Views.{no_grants};

use ib_latch::Latches;
use ib_layout::Geometry;
use ib_map::{Call, Chunk, Chunks, Key, Record, Reply};
use ib_rule::Pass;
use ib_scan::{More, scan};
use ib_tree::TreeLaw;
use std::alloc::Global;
use std::process::Abort;

// A table of 16 pages, with the shortest log.
fn smallest(rt: &impl Abort, alloc: Global) -> Latches<TreeLaw> {
    let sizes = Geometry::new(16, 8196).expect(rt, "there are such sizes");
    Latches::open(alloc, sizes).expect(rt, "there is memory")
}

fn come(rt: &impl Abort, alloc: Global, table: &mut Latches<TreeLaw>) -> Pass
    ensures rest { IsAtRest table.new result }
    ensures grants { result.view.grants ≡ no_grants }
    ensures table { table.new.table ≡ table.old.table }
    ensures sizes { table.new.sizes ≡ table.old.sizes }
{
    table.connect(alloc).expect(rt, "a session")
}

fn scanned(low: u64, high: u64, chunks: u32) -> Record {
    Record {
        call: Call::Scan {
            low: Key::of_number(low),
            high: Key::of_number(high),
        },
        reply: Reply::Scanned { chunks, pairs: 0 },
        place: 0,
    }
}

#[test]
fn an_empty_tree_has_one_empty_chunk(rt: HostRuntime) {
    let mut table = smallest(&rt, rt.alloc());
    let mut one = come(&rt, rt.alloc(), &mut table);
    let mut out = Chunks::with_room(rt.alloc(), 1, 0).expect(&rt, "there is memory");
    let answer = scan(
        &rt,
        &table,
        &mut one,
        Key::of_number(3),
        Key::of_number(5),
        &mut out,
    );
    assert_eq!(rt; answer, Ok(scanned(3, 5, 1)));
    let chunk = Chunk {
        low: Key::of_number(3),
        high: Key::of_number(5),
        place: 0,
        start: 0,
        len: 0,
    };
    assert_eq!(rt; out.list(), [chunk].as_slice());
    assert_eq!(rt; one.grants_taken().s, 2);
    table.disconnect(one);
    assert_eq!(rt; table.connected(), 0);
    table.discard();
}

#[test]
fn from_a_key_to_a_lower_one_there_is_none(rt: HostRuntime) {
    let mut table = smallest(&rt, rt.alloc());
    let mut one = come(&rt, rt.alloc(), &mut table);
    let mut out = Chunks::with_room(rt.alloc(), 1, 0).expect(&rt, "there is memory");
    let answer = scan(
        &rt,
        &table,
        &mut one,
        Key::of_number(5),
        Key::of_number(3),
        &mut out,
    );
    assert_eq!(rt; answer, Ok(scanned(5, 3, 0)));
    assert_eq!(rt; out.list(), [].as_slice());
    assert_eq!(rt; one.grants_taken().s, 0);
    table.disconnect(one);
    assert_eq!(rt; table.connected(), 0);
    table.discard();
}

#[test]
fn a_chunk_takes_a_place(rt: HostRuntime) {
    let mut table = smallest(&rt, rt.alloc());
    let mut one = come(&rt, rt.alloc(), &mut table);
    let mut out = Chunks::with_room(rt.alloc(), 0, 0).expect(&rt, "there is memory");
    let answer = scan(
        &rt,
        &table,
        &mut one,
        Key::of_number(3),
        Key::of_number(5),
        &mut out,
    );
    assert_eq!(rt;
        answer,
        Err(More {
            next: Key::of_number(3)
        })
    );
    assert_eq!(rt; out.list(), [].as_slice());
    table.disconnect(one);
    assert_eq!(rt; table.connected(), 0);
    table.discard();
}
