//! `replay`: worked logs, each fault, and which of two is told.

ghost use Rattle.std.specs.Prelude.{◌<◌};

use super::*;

// The first words of the keys `10`, `11` and `12`. The second one is 2, since they have two bytes.
pub(crate) const TEN: u64 = 0x3130_0000_0000_0000;

const ELEVEN: u64 = 0x3131_0000_0000_0000;

const TWELVE: u64 = 0x3132_0000_0000_0000;

// Session 1 inserts 10 with 100 and then 11 with 110, on page 1.
pub(crate) const LOG: [u64; 46] = [
    0x1_0001_0009,
    1,
    TEN,
    2,
    100,
    162,
    1,
    165,
    1,
    167,
    536,
    178,
    276,
    179,
    512,
    180,
    19,
    181,
    TEN,
    182,
    2,
    183,
    100, //
    0x1_0001_0009,
    2,
    ELEVEN,
    2,
    110,
    162,
    2,
    165,
    2,
    167,
    540,
    179,
    768,
    180,
    24,
    184,
    19,
    185,
    ELEVEN,
    186,
    2,
    187,
    110,
];

// What is printed of it.
const TEXT: &[u8] = b"log 2\n1 1 insert 10 100\n1 2 insert 11 110\nmap 2\n10 100\n11 110\n";

// The log with other words at these places.
fn changed(changes: &[(usize, u64)]) -> [u64; 46] {
    let mut words = LOG;
    for &(at, word) in changes {
        if at < words.len() {
            words[at] = word;
        }
    }
    words
}

// The file of a log, the highest byte of each number first.
fn file(alloc: Global, pages: u64, words: &[u64]) -> Result<Vec<u8>, Fail> {
    log_file(alloc, b"IBLOG572", pages, words)
}

fn replayed(
    rt: &(impl Abort + Threads + Wait + Sync),
    alloc: Global,
    words: &[u64],
    text: &[u8],
) -> Result<(), Fail> {
    let bytes = file(alloc, 16, words)?;
    check_form(rt, alloc, "replay", &bytes, Status::Done, text)
}

// The bytes are refused with this fault.
fn refused_bytes(
    rt: &(impl Abort + Threads + Wait + Sync),
    alloc: Global,
    bytes: &[u8],
    fault: &str,
) -> Result<(), Fail> {
    let text = format!(in alloc; "bad log: {fault}\n")?;
    check_form(rt, alloc, "replay", bytes, Status::BadLog, text.as_bytes())
}

fn refused(
    rt: &(impl Abort + Threads + Wait + Sync),
    alloc: Global,
    words: &[u64],
    fault: &str,
) -> Result<(), Fail> {
    refused_bytes(rt, alloc, &file(alloc, 16, words)?, fault)
}

#[test]
fn a_log_of_one_insert(rt: HostRuntime) -> Result<(), Fail> {
    let alloc = rt.alloc();
    let words = &LOG[..23];
    replayed(
        &rt,
        alloc,
        words,
        b"log 1\n1 1 insert 10 100\nmap 1\n10 100\n",
    )?;
    let mut bytes = file(alloc, 16, words)?;
    bytes.pop();
    refused_bytes(&rt, alloc, &bytes, "odd length 199")?;
    refused(&rt, alloc, &words[..22], "short at 0")?;
    refused(
        &rt,
        alloc,
        &changed(&[(21, 2560)])[..23],
        "outside at 0 word 2560",
    )?;
    refused(
        &rt,
        alloc,
        &changed(&[(22, 101)])[..23],
        "unlawful at 0 tree",
    )
}

#[test]
fn logs_that_are_lawful(rt: HostRuntime) -> Result<(), Fail> {
    let alloc = rt.alloc();
    replayed(&rt, alloc, &[], b"log 0\nmap 0\n")?;
    replayed(&rt, alloc, &LOG, TEXT)?;
    // Session 1,024 deletes 10, with writes on two pages. On page 15, which is free, it is the clock.
    let mut words = Vec::from_slice(alloc, &LOG)?;
    words.extend_from_slice(&[0x400_0006_0007, 1, TEN, 2, 0, 162, 1, 165, 3, 166, 20])?;
    words.extend_from_slice(&[178, 280, 179, 512, 180, 0, 2405, u64::MAX])?;
    replayed(
        &rt,
        alloc,
        &words,
        b"log 3\n1 1 insert 10 100\n1 2 insert 11 110\n1024 1 delete 10\nmap 1\n11 110\n",
    )
}

#[test]
fn faults_of_a_file(rt: HostRuntime) -> Result<(), Fail> {
    let alloc = rt.alloc();
    refused_bytes(&rt, alloc, b"", "short at 0")?;
    refused_bytes(&rt, alloc, b"IBLOG572", "short at 0")?;
    refused_bytes(
        &rt,
        alloc,
        b"IBLOG571\0\0\0\0\0\0\0\x0f\xff",
        "odd length 17",
    )?;
    refused_bytes(
        &rt,
        alloc,
        b"IBLOG570\0\0\0\0\0\0\0\x0f",
        "file at 0 word 5278865616612439856",
    )?;
    refused_bytes(
        &rt,
        alloc,
        b"IBLOG571\0\0\0\0\0\0\0\x10",
        "file at 0 word 5278865616612439857",
    )?;
    refused_bytes(&rt, alloc, &file(alloc, 15, &LOG)?, "file at 1 word 15")?;
    refused_bytes(&rt, alloc, &file(alloc, 4097, &[0])?, "file at 1 word 4097")?;
    let zeros = vec![in alloc; 0; INPUT_BYTES]?;
    refused_bytes(&rt, alloc, &zeros, "file at 0 word 0")
}

#[test]
fn every_truncation(rt: HostRuntime) -> Result<(), Fail> {
    let alloc = rt.alloc();
    let bytes = file(alloc, 16, &LOG)?;
    for cut in 0..bytes.len() {
        let front = &bytes[..cut];
        if cut % 8 != 0 {
            let fault = format!(in alloc; "odd length {cut}")?;
            refused_bytes(&rt, alloc, front, &fault)?;
        } else if cut != 16 && cut != 200 {
            let place = if cut < 200 { 0 } else { 23 };
            let fault = format!(in alloc; "short at {place}")?;
            refused_bytes(&rt, alloc, front, &fault)?;
        }
    }
    Ok(())
}

#[test]
fn every_word_too_great(rt: HostRuntime) -> Result<(), Fail> {
    let alloc = rt.alloc();
    for at in 0..LOG.len() {
        let entry = if at < 23 { 0 } else { 23 };
        let words = changed(&[(at, u64::MAX)]);
        let what = match at - entry {
            // A clock may be any number.
            8 => {
                replayed(&rt, alloc, &words, TEXT)?;
                continue;
            }
            0 | 1 | 3 => format!(in alloc; "head at {entry} word 18446744073709551615")?,
            // A byte stands behind the key's end. Its second word is told.
            2 => format!(in alloc; "head at {entry} word 2")?,
            5 | 7 | 9 | 11 | 13 | 15 | 17 | 19 | 21 => format!(in alloc;
                "outside at {entry} word 18446744073709551615"
            )?,
            // With another value or written word the page does not have what the map has.
            _ => format!(in alloc; "unlawful at {entry} tree")?,
        };
        refused(&rt, alloc, &words, &what)?;
    }
    Ok(())
}

#[test]
fn faults_of_the_second_entry(rt: HostRuntime) -> Result<(), Fail> {
    let alloc = rt.alloc();
    refused(&rt, alloc, &LOG[..27], "short at 23")?;
    refused(&rt, alloc, &LOG[..45], "short at 23")?;
    let rows: [(&[(usize, u64)], &str); 26] = [
        (&[(23, 3)], "head at 23 word 3"),
        (&[(23, 0x401_0001_0009)], "head at 23 word 4402341543945"),
        (&[(23, 0x1_0003_0009)], "head at 23 word 4295163913"),
        (&[(23, 0x1_0001_0000)], "head at 23 word 4295032832"),
        (&[(23, 0x1_0001_1000)], "head at 23 word 4295036928"),
        (&[(24, 0)], "head at 23 word 0"),
        (&[(24, 1 << 32)], "head at 23 word 4294967296"),
        (&[(26, 16)], "head at 23 word 16"),
        (&[(26, 1)], "head at 23 word 1"),
        (&[(23, 0x1_0002_0009)], "head at 23 word 110"),
        (&[(23, 0x1_0001_000a)], "short at 23"),
        (&[(44, 2560)], "outside at 23 word 2560"),
        (&[(32, 165)], "write at 23 word 165"),
        (&[(32, 164)], "write at 23 word 164"),
        (&[(44, 320)], "head at 23 word 4295032841"),
        (&[(23, 0x1_0005_0009)], "head at 23 word 4295294985"),
        (&[(24, 1)], "unlawful at 23 number"),
        (&[(23, 0x2_0001_0009)], "unlawful at 23 number"),
        (&[(25, TEN)], "unlawful at 23 change"),
        (&[(23, 0x1_0002_0009), (27, 0)], "unlawful at 23 change"),
        (&[(25, TWELVE)], "unlawful at 23 tree"),
        (&[(29, 1)], "unlawful at 23 tree"),
        (&[(41, TWELVE)], "unlawful at 23 tree"),
        (&[(43, 1)], "unlawful at 23 tree"),
        (&[(43, 16)], "unlawful at 23 tree"),
        (
            &[(23, 0x1_0005_0009), (28, 0), (29, 7)],
            "unlawful at 23 tree",
        ),
    ];
    for (changes, fault) in rows {
        refused(&rt, alloc, &changed(changes), fault)?;
    }
    // The record is not counted.
    let mut words = Vec::from_slice(alloc, &LOG[..23])?;
    words.extend_from_slice(&[0x1_0001_0008, 2, ELEVEN, 2, 110, 165, 2, 167, 540, 179, 768])?;
    words.extend_from_slice(&[180, 24, 184, 19, 185, ELEVEN, 186, 2, 187, 110])?;
    refused(&rt, alloc, &words, "unlawful at 23 tree")
}

#[test]
fn the_first_fault_is_told(rt: HostRuntime) -> Result<(), Fail> {
    let alloc = rt.alloc();
    let rows: [(&[(usize, u64)], &str); 19] = [
        (&[(23, 3), (24, 0)], "head at 23 word 3"),
        (&[(23, 0x1_0002_0009), (24, 0)], "head at 23 word 0"),
        (&[(24, 0), (26, 16)], "head at 23 word 0"),
        (&[(23, 0x1_0002_0009), (26, 16)], "head at 23 word 16"),
        (&[(23, 0x1_0002_000a)], "head at 23 word 110"),
        (&[(23, 0x1_0001_000a), (28, 5000)], "short at 23"),
        (&[(28, 2560), (30, 162)], "outside at 23 word 2560"),
        (&[(32, 164), (34, 2560)], "write at 23 word 164"),
        (&[(28, 172), (30, 2560)], "outside at 23 word 2560"),
        (&[(23, 0x1_0005_0009), (32, 165)], "write at 23 word 165"),
        (
            &[(23, 0x1_0005_0009), (24, 3)],
            "head at 23 word 4295294985",
        ),
        (&[(24, 3), (25, TEN)], "unlawful at 23 number"),
        (&[(0, 0), (23, 0)], "head at 0 word 0"),
        (&[(1, 2), (23, 0)], "unlawful at 0 number"),
        (
            &[(2, ELEVEN), (18, ELEVEN), (24, 3)],
            "unlawful at 23 number",
        ),
        (&[(2, ELEVEN), (18, ELEVEN)], "unlawful at 23 change"),
        (&[(25, TEN), (45, 7)], "unlawful at 23 change"),
        (&[(24, 3), (29, 1)], "unlawful at 23 number"),
        (&[(2, ELEVEN), (23, 0)], "unlawful at 0 tree"),
    ];
    for (changes, fault) in rows {
        refused(&rt, alloc, &changed(changes), fault)?;
    }
    Ok(())
}
