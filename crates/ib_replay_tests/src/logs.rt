//! Worked logs, and the first fault of others.

ghost use Rattle.std.specs.Prelude.{◌<◌, length};

use crate::worked::{ELEVEN, LOG, TEN, changed};
use ib_logrec::{LogFault, UnlawfulKind};
use ib_map::Key;
use ib_replay::{FILE_FORM, read_log, replay, write_log};
use std::alloc::Global;
use std::test::Fail;

fn fault(alloc: Global, words: &[u64]) -> Option<LogFault>
    requires { length words.now < 1000 }
{
    replay(alloc, 16, words).err()
}

#[test]
fn a_log_is_written_and_read_again(rt: HostRuntime) -> Result<(), Fail> {
    let mut file = [0; 200];
    write_log(16, &LOG[..23], &mut file);
    assert_eq!(rt; &file[..8], b"IBLOG572".as_slice());
    assert_eq!(rt;
        &file[8..24],
        [0, 0, 0, 0, 0, 0, 0, 16, 0, 0, 0, 1, 0, 1, 0, 9].as_slice()
    );
    let log = read_log(rt.alloc(), &file).map_err(|_| "the bytes are a log's")?;
    assert_eq!(rt; log.pages(), 16);
    assert_eq!(rt; log.words(), &LOG[..23]);

    let read = |bytes| read_log(rt.alloc(), bytes).err();
    assert_eq!(rt; read(&[]), Some(LogFault::Short { place: 0 }));
    assert_eq!(rt; read(&file[..15]), Some(LogFault::OddLength { bytes: 15 }));
    assert_eq!(rt; read(&file[..8]), Some(LogFault::Short { place: 0 }));
    write_log(15, &LOG[..23], &mut file);
    assert_eq!(rt; read(&file), Some(LogFault::BadFile { at: 1, word: 15 }));
    Ok(())
}

#[test]
fn other_versions_are_refused(rt: HostRuntime) -> Result<(), Fail> {
    let mut file = [0; 200];
    write_log(16, &LOG[..23], &mut file);
    // The form whose keys were numbers, the one whose pages were sorted records, and one that isn't known.
    for (digit, word) in [
        (b'1', FILE_FORM - 1),
        (b'0', 5278865616612439856),
        (b'3', FILE_FORM + 1),
    ] {
        file[7] = digit;
        assert_eq!(rt;
            read_log(rt.alloc(), &file).err(),
            Some(LogFault::BadFile { at: 0, word })
        );
    }
    Ok(())
}

#[test]
fn a_log_is_replayed(rt: HostRuntime) -> Result<(), Fail> {
    let replayed = replay(rt.alloc(), 16, &LOG).map_err(|_| "the log is lawful")?;
    assert_eq!(rt; replayed.entries.len(), 2);
    assert_eq!(rt; replayed.map.len(), 2);
    assert_eq!(rt; replayed.map.get(Key::from_bytes(b"11")?), Some(110));
    let images = replayed.memory.images();
    assert_eq!(rt; images.len(), 16);
    assert_eq!(rt; images[0].word(0), 3);
    assert_eq!(rt; images[1].word(2), 2);
    assert_eq!(rt; images[1].word(5), 2);
    assert_eq!(rt; images[1].word(21), TEN);
    assert_eq!(rt; images[1].word(22), 2);
    assert_eq!(rt; images[1].word(25), ELEVEN);
    assert_eq!(rt; images[1].word(26), 2);
    assert_eq!(rt; images[1].word(27), 110);
    Ok(())
}

#[test]
fn faults_of_the_second_entry(rt: HostRuntime) {
    let alloc = rt.alloc();
    let unlawful = |kind| Some(LogFault::Unlawful { place: 23, kind });
    assert_eq!(rt;
        fault(alloc, &changed(24, 1)),
        unlawful(UnlawfulKind::Number)
    );
    assert_eq!(rt;
        fault(alloc, &changed(25, TEN)),
        unlawful(UnlawfulKind::Change)
    );
    assert_eq!(rt;
        fault(alloc, &changed(23, 0x2_0001_0009)),
        unlawful(UnlawfulKind::Number)
    );
    // The record is not counted.
    assert_eq!(rt; fault(alloc, &changed(29, 1)), unlawful(UnlawfulKind::Tree));
    assert_eq!(rt;
        fault(alloc, &LOG[..45]),
        Some(LogFault::Short { place: 23 })
    );
    assert_eq!(rt; fault(alloc, &LOG), None);
}
