//! Logs of version 1 brought over.

use ib_logrec::{FullKind, LogFault, UnlawfulKind};
use ib_replay::{FILE_FORM, bring_over, write_log};
use std::alloc::Global;
use std::test::Fail;

// Session 1 inserts the number 10 with 100.
const OLD: [u64; 20] = [
    0x1_0001_0008,
    1,
    10,
    100,
    130,
    1,
    133,
    1,
    135,
    535,
    146,
    276,
    147,
    512,
    148,
    19,
    149,
    10,
    150,
    100,
];

// The same today.
const NEW: [u64; 23] = [
    0x1_0001_0009,
    1,
    10,
    8,
    100,
    162,
    1,
    165,
    1,
    167,
    536,
    178,
    276,
    179,
    512,
    180,
    19,
    181,
    10,
    182,
    8,
    183,
    100,
];

// The fault of an old log of one entry, with another word at a place.
fn fault(alloc: Global, at: usize, word: u64) -> Option<LogFault> {
    let mut words = OLD;
    if at < words.len() {
        words[at] = word;
    }
    let mut file = [0; 176];
    write_log(16, &words, &mut file);
    file[7] = b'1';
    bring_over(alloc, &file).err()
}

#[test]
fn an_old_log_is_brought_over(rt: HostRuntime) -> Result<(), Fail> {
    let mut file = [0; 176];
    write_log(16, &OLD, &mut file);
    file[7] = b'1';
    let log = bring_over(rt.alloc(), &file).map_err(|_| "the bytes are an old log's")?;
    assert_eq!(rt; log.pages(), 16);
    assert_eq!(rt; log.words(), NEW.as_slice());
    file[7] = b'2';
    assert_eq!(rt;
        bring_over(rt.alloc(), &file).err(),
        Some(LogFault::BadFile {
            at: 0,
            word: FILE_FORM
        })
    );
    Ok(())
}

#[test]
fn an_old_log_is_refused(rt: HostRuntime) -> Result<(), Fail> {
    let alloc = rt.alloc();
    assert_eq!(rt;
        fault(alloc, 0, 3),
        Some(LogFault::BadHead { place: 0, word: 3 })
    );
    assert_eq!(rt;
        fault(alloc, 1, 2),
        Some(LogFault::Unlawful {
            place: 0,
            kind: UnlawfulKind::Number
        })
    );
    assert_eq!(rt;
        fault(alloc, 18, 2048),
        Some(LogFault::Outside {
            place: 0,
            word: 2048
        })
    );
    // A word of a page may be any, and so may a key.
    assert_eq!(rt; fault(alloc, 19, 101), None);
    assert_eq!(rt; fault(alloc, 2, u64::MAX), None);
    Ok(())
}

#[test]
fn what_is_full_has_a_text(rt: HostRuntime) -> Result<(), Fail> {
    let full = LogFault::CannotPlan {
        place: 7,
        why: FullKind::Space,
    };
    let text = format!(in rt.alloc(); "{full}")?;
    assert_eq!(rt; text.as_str(), "cannot plan at 7");
    Ok(())
}
