//! Worked entries, and each fault of words.

ghost use Rattle.std.specs.Prelude.{◌<◌, ◌≤◌, ◌^◌, length};

use crate::worked::{LOG, TEN, changed};
use ib_logrec::{
    AnyLaw, Law, LogFault, UnlawfulKind, Write, decode_at, encode_into, head_at, spans_pages,
};
use ib_map::{Change, Key};
use std::alloc::Global;
use std::test::Fail;

fn fault(alloc: Global, words: &[u64], place: u32) -> Option<LogFault>
    requires place { place ≤ length words.now }
    requires few { length words.now < 2 ^ 32 }
{
    decode_at(alloc, words, place, 16).err()
}

// Whether words begin with those of the first entry.
fn begins_with_entry(words: &[u64]) -> bool {
    words.len() >= 23 && words[..23] == LOG[..23]
}

#[test]
fn an_entry_is_read_and_written_again(rt: HostRuntime) -> Result<(), Fail> {
    let key = Key::from_bytes(b"10")?;
    let (entry, next) = decode_at(rt.alloc(), &LOG, 0, 16).map_err(|_| "the words are an entry's")?;
    assert_eq!(rt; next, 23);
    assert_eq!(rt; entry.session, 1);
    assert_eq!(rt; entry.number, 1);
    assert_eq!(rt; entry.change, Change::Insert { key, value: 100 });
    assert!(rt; !entry.structural);
    assert_eq!(rt; entry.writes.as_slice().len(), 9);

    assert_eq!(rt; head_at(&LOG, 0, 16), Ok((entry.head(), 23)));

    let mut out = [7; 24];
    assert_eq!(rt; encode_into(&entry, &mut out), 23);
    assert!(rt; begins_with_entry(&out));
    assert_eq!(rt; out[23], 7);

    let writes = entry.writes.into_vec();
    assert_eq!(rt; writes.len(), 9);
    assert_eq!(rt;
        writes[8],
        Write {
            place: 183,
            value: 100
        }
    );
    assert_eq!(rt; writes[8].page(), 1);
    assert!(rt; !spans_pages(&writes));
    Ok(())
}

#[test]
fn a_structural_delete_is_read(rt: HostRuntime) -> Result<(), Fail> {
    let words = [0x400_0006_0002, 0xffff_ffff, 5, 8, 0, 159, 9, 160, 8];
    let (entry, next) = decode_at(rt.alloc(), &words, 0, 16).map_err(
        |_| "the words are an entry's",
    )?;
    assert_eq!(rt; next, 9);
    assert_eq!(rt; entry.session, 1024);
    assert_eq!(rt; entry.number, 0xffff_ffff);
    assert_eq!(rt;
        entry.change,
        Change::Delete {
            key: Key::of_number(5)
        }
    );
    assert!(rt; entry.structural);
    Ok(())
}

#[test]
fn faults_of_the_first_entry(rt: HostRuntime) {
    let alloc = rt.alloc();
    assert_eq!(rt;
        fault(alloc, &LOG[..4], 0),
        Some(LogFault::Short { place: 0 })
    );
    assert_eq!(rt;
        fault(alloc, &changed(1, 0), 0),
        Some(LogFault::BadHead { place: 0, word: 0 })
    );
    assert_eq!(rt;
        fault(alloc, &changed(7, 162), 0),
        Some(LogFault::BadWrite {
            place: 0,
            word: 162
        })
    );
    assert_eq!(rt; fault(alloc, &LOG, 23), None);
}

#[test]
fn faults_of_the_second_entry(rt: HostRuntime) {
    let alloc = rt.alloc();
    let bad_head = |word| Some(LogFault::BadHead { place: 23, word });
    assert_eq!(rt;
        fault(alloc, &LOG[..27], 23),
        Some(LogFault::Short { place: 23 })
    );
    assert_eq!(rt; fault(alloc, &changed(23, 3), 23), bad_head(3));
    assert_eq!(rt; fault(alloc, &changed(24, 1 << 32), 23), bad_head(1 << 32));
    assert_eq!(rt;
        fault(alloc, &changed(23, 0x1_0002_0009), 23),
        bad_head(110)
    );
    assert_eq!(rt;
        fault(alloc, &LOG[..45], 23),
        Some(LogFault::Short { place: 23 })
    );
    assert_eq!(rt;
        fault(alloc, &changed(44, 2560), 23),
        Some(LogFault::Outside {
            place: 23,
            word: 2560
        })
    );
    assert_eq!(rt;
        fault(alloc, &changed(30, 162), 23),
        Some(LogFault::BadWrite {
            place: 23,
            word: 162
        })
    );
    assert_eq!(rt;
        fault(alloc, &changed(44, 320), 23),
        bad_head(0x1_0001_0009)
    );
}

#[test]
fn an_entry_has_4095_writes_at_most(rt: HostRuntime) {
    let alloc = rt.alloc();
    assert_eq!(rt;
        fault(alloc, &changed(23, 0x1_0001_1000), 23),
        Some(LogFault::BadHead {
            place: 23,
            word: 0x1_0001_1000
        })
    );
    assert_eq!(rt;
        fault(alloc, &changed(23, 0x1_0001_0fff), 23),
        Some(LogFault::Short { place: 23 })
    );
}

#[test]
fn words_that_are_no_key(rt: HostRuntime) {
    let alloc = rt.alloc();
    let bad_head = |word| Some(LogFault::BadHead { place: 23, word });
    // More than 15 bytes.
    assert_eq!(rt; fault(alloc, &changed(26, 16), 23), bad_head(16));
    // One byte, and another behind it. The second word is told where the first was changed, too.
    assert_eq!(rt; fault(alloc, &changed(26, 1), 23), bad_head(1));
    assert_eq!(rt; fault(alloc, &changed(25, u64::MAX), 23), bad_head(2));
    // Two bytes, and the fifteenth is not 0.
    assert_eq!(rt; fault(alloc, &changed(26, 0x102), 23), bad_head(0x102));
    // Three bytes, the last of them 0, and 15.
    assert_eq!(rt; fault(alloc, &changed(26, 3), 23), None);
    assert_eq!(rt; fault(alloc, &changed(26, u64::MAX - 240), 23), None);
}

#[test]
fn the_first_of_two_faults_is_told(rt: HostRuntime) {
    let alloc = rt.alloc();
    // A number of 0, words that are no key, and too few words for the writes.
    assert_eq!(rt;
        fault(alloc, &[0x1_0001_0001, 0, TEN, 16, 100], 0),
        Some(LogFault::BadHead { place: 0, word: 0 })
    );
    // A delete with words that are no key, a value, and too few words for the writes.
    assert_eq!(rt;
        fault(alloc, &[0x1_0002_0001, 1, TEN, 16, 100], 0),
        Some(LogFault::BadHead { place: 0, word: 16 })
    );
    // A delete with a value, and too few words for the writes.
    assert_eq!(rt;
        fault(alloc, &[0x1_0002_0001, 1, TEN, 2, 100], 0),
        Some(LogFault::BadHead {
            place: 0,
            word: 100
        })
    );
    // A place that isn't above the one before, and a later one on no page.
    assert_eq!(rt;
        fault(
            alloc,
            &[0x1_0001_0003, 1, TEN, 2, 100, 9, 1, 9, 1, 2560, 1],
            0
        ),
        Some(LogFault::BadWrite { place: 0, word: 9 })
    );
    // A place on no page that isn't above the one before either.
    assert_eq!(rt;
        fault(alloc, &[0x1_0001_0002, 1, TEN, 2, 100, 2560, 1, 2560, 1], 0),
        Some(LogFault::Outside {
            place: 0,
            word: 2560
        })
    );
    // Two pages without the flag for it, and a place on no page.
    assert_eq!(rt;
        fault(
            alloc,
            &[0x1_0001_0003, 1, TEN, 2, 100, 9, 1, 200, 1, 2560, 1],
            0
        ),
        Some(LogFault::Outside {
            place: 0,
            word: 2560
        })
    );
}

#[test]
fn pages_begin_with_zeros_for_any_law(rt: HostRuntime) {
    assert_eq!(rt; AnyLaw::opening_word(16, 1, 0), 0);
}

// The printed text of a fault is this.
fn reads(alloc: Global, fault: LogFault, text: &str) -> Result<bool, Fail> {
    Ok(format!(in alloc; "{fault}")?.as_str() == text)
}

#[test]
fn faults_as_text(rt: HostRuntime) -> Result<(), Fail> {
    let alloc = rt.alloc();
    let place = 12;
    let word = 133;
    let kind = UnlawfulKind::Number;
    assert!(rt; reads(alloc, LogFault::Short { place }, "short at 12")?);
    assert!(rt;
        reads(
            alloc,
            LogFault::BadHead { place, word },
            "head at 12 word 133"
        )?
    );
    assert!(rt;
        reads(
            alloc,
            LogFault::BadWrite { place, word },
            "write at 12 word 133"
        )?
    );
    assert!(rt;
        reads(
            alloc,
            LogFault::Outside { place, word },
            "outside at 12 word 133"
        )?
    );
    assert!(rt; reads(alloc, LogFault::OddLength { bytes: 15 }, "odd length 15")?);
    assert!(rt;
        reads(
            alloc,
            LogFault::BadFile { at: 1, word },
            "file at 1 word 133"
        )?
    );
    assert!(rt; reads(alloc, LogFault::Unlawful { place, kind }, "unlawful at 12")?);
    assert!(rt; reads(alloc, LogFault::OutOfMemory, "out of memory")?);
    Ok(())
}
