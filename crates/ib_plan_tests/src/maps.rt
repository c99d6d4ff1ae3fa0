//! The plain map, the sorted map, and the chunks of a scan.

use crate::keys::key;
use ib_map::{Chunk, Chunks, MapFault, PlainMap};
use ib_sorted_map::SortedMap;
use std::test::Fail;

#[test]
fn refuses_what_is_there_and_what_is_not(rt: HostRuntime) -> Result<(), Fail> {
    let mut map = PlainMap::new(rt.alloc());
    map.insert(key(1), 2)?;
    assert!(rt; matches!(map.insert(key(1), 2), Err(MapFault::Duplicate)));
    assert!(rt; matches!(map.delete(key(9)), Err(MapFault::Missing)));
    assert_eq!(rt; map.range(key(0), key(9)), [(key(1), 2)].as_slice());
    assert_eq!(rt; map.get(key(1)), Some(2));
    assert_eq!(rt; map.delete(key(1))?, 2);
    assert!(rt; map.is_empty());
    Ok(())
}

#[test]
fn a_sorted_map_is_the_plain_one(rt: HostRuntime) -> Result<(), Fail> {
    let mut map = SortedMap::new(rt.alloc());
    for number in 0..40 {
        map.insert(key(number * 7 % 40), number)?;
    }
    assert!(rt; matches!(map.insert(key(3), 2), Err(MapFault::Duplicate)));
    assert_eq!(rt; map.delete(key(7))?, 1);
    assert!(rt; matches!(map.delete(key(7)), Err(MapFault::Missing)));
    assert_eq!(rt; map.get(key(14)), Some(2));
    assert!(rt; map.range(key(6), key(8)).next().is_some());
    assert!(rt; map.range(key(8), key(6)).next().is_none());
    let plain = map.to_plain(rt.alloc())?;
    assert_eq!(rt; plain.len(), 39);
    assert_eq!(rt;
        plain.range(key(6), key(8)),
        [(key(6), 18), (key(8), 24)].as_slice()
    );
    Ok(())
}

#[test]
fn a_chunk_takes_its_room(rt: HostRuntime) -> Result<(), Fail> {
    let mut chunks = Chunks::with_room(rt.alloc(), 1, 1)?;
    chunks.reserve(1, 2)?;
    assert_eq!(rt; chunks.room(), (1, 2));
    chunks.append(key(1), key(18), 3, &[(key(1), 10), (key(18), 180)]);
    assert_eq!(rt; chunks.room(), (0, 0));
    let chunk = Chunk {
        low: key(1),
        high: key(18),
        place: 3,
        start: 0,
        len: 2,
    };
    assert_eq!(rt; chunks.list(), [chunk].as_slice());
    assert_eq!(rt; chunks.pairs(), [(key(1), 10), (key(18), 180)].as_slice());
    Ok(())
}
