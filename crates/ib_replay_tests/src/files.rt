//! The file of one insert, cut anywhere, and with each of its numbers replaced.

ghost use Rattle.std.specs.Prelude.{◌<◌, ◌≤◌};

use crate::worked::LOG;
use ib_logrec::{LogFault, UnlawfulKind};
use ib_map::Key;
use ib_replay::{Replayed, replay_file, write_log};
use std::alloc::Global;
use std::test::Fail;

const FILE_BYTES: usize = 200;

// Session 1 inserts `10` with 100.
fn file() -> [u8; FILE_BYTES] {
    let mut bytes = [0; FILE_BYTES];
    write_log(16, &LOG[..23], &mut bytes);
    bytes
}

// The first bytes of the file, so many, replayed.
fn cut(alloc: Global, count: usize) -> Result<Replayed, LogFault>
    requires { count ≤ FILE_BYTES }
{
    replay_file(alloc, &file()[..count])
}

#[test]
fn every_cut(rt: HostRuntime) -> Result<(), Fail> {
    for count in 0..FILE_BYTES {
        let replayed = cut(rt.alloc(), count);
        let wanted = if count % 8 != 0 {
            Some(LogFault::OddLength { bytes: count })
        } else if count == 16 {
            None
        } else {
            Some(LogFault::Short { place: 0 })
        };
        assert_eq!(rt; replayed.err(), wanted);
    }
    let none = cut(rt.alloc(), 16).map_err(|_| "no entries are a log")?;
    assert!(rt; none.entries.is_empty());
    assert!(rt; none.map.is_empty());
    let all = cut(rt.alloc(), FILE_BYTES).map_err(|_| "the log is lawful")?;
    assert_eq!(rt; all.entries.len(), 1);
    assert_eq!(rt; all.map.get(Key::from_bytes(b"10")?), Some(100));
    Ok(())
}

// The file with one of its 25 numbers replaced by the greatest one, replayed.
fn replaced(alloc: Global, number: usize) -> Result<Replayed, LogFault>
    requires { number < 25 }
{
    let mut bytes = file();
    for byte in 0..8usize {
        bytes[8 * number + byte] = 255;
    }
    replay_file(alloc, &bytes)
}

#[test]
fn every_number_too_great(rt: HostRuntime) -> Result<(), Fail> {
    let word = u64::MAX;
    for number in 0..25usize {
        let wanted = match number {
            0 => Some(LogFault::BadFile { at: 0, word }),
            1 => Some(LogFault::BadFile { at: 1, word }),
            2 | 3 | 5 => Some(LogFault::BadHead { place: 0, word }),
            // The first word of the key: the second one is told.
            4 => Some(LogFault::BadHead { place: 0, word: 2 }),
            7 | 9 | 11 | 13 | 15 | 17 | 19 | 21 | 23 => Some(LogFault::Outside { place: 0, word }),
            // A clock may be any number.
            10 => None,
            // With another value or written word the page does not have what the map has.
            _ => Some(LogFault::Unlawful {
                place: 0,
                kind: UnlawfulKind::Tree,
            }),
        };
        assert_eq!(rt; replaced(rt.alloc(), number).err(), wanted);
    }
    let clock = replaced(rt.alloc(), 10).map_err(|_| "the log is lawful")?;
    assert_eq!(rt; clock.map.get(Key::from_bytes(b"10")?), Some(100));
    let images = clock.memory.images();
    assert_eq!(rt; images.len(), 16);
    assert_eq!(rt; images[1].word(5), word);
    Ok(())
}
