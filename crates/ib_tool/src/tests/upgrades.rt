//! `upgrade`: logs of version 1 brought over, each fault, and which of two is told.

use super::*;

// Session 1 inserts the number 10 with 100 and then 11 with 110, on page 1, as a writer of version 1 told it. The writes of
// the second entry are made up: they are not used.
const OLD: [u64; 28] = [
    0x1_0001_0008,
    1,
    10,
    100,
    130,
    1,
    133,
    1,
    135,
    535,
    146,
    276,
    147,
    512,
    148,
    19,
    149,
    10,
    150,
    100, //
    0x1_0001_0002,
    2,
    11,
    110,
    130,
    2,
    133,
    7,
];

// The same log today: each key is the eight bytes of its number.
const NEW: [u64; 46] = [
    0x1_0001_0009,
    1,
    10,
    8,
    100,
    162,
    1,
    165,
    1,
    167,
    536,
    178,
    276,
    179,
    512,
    180,
    19,
    181,
    10,
    182,
    8,
    183,
    100, //
    0x1_0001_0009,
    2,
    11,
    8,
    110,
    162,
    2,
    165,
    2,
    167,
    540,
    179,
    768,
    180,
    24,
    184,
    19,
    185,
    11,
    186,
    8,
    187,
    110,
];

// What `replay` prints of it.
const TEXT: &[u8] =
    b"log 2\n1 1 insert x:000000000000000a 100\n1 2 insert x:000000000000000b 110\nmap 2\nx:000000000000000a 100\nx:000000000000000b 110\n";

// The old log with other words at these places.
fn changed(changes: &[(usize, u64)]) -> [u64; 28] {
    let mut words = OLD;
    for &(at, word) in changes {
        if at < words.len() {
            words[at] = word;
        }
    }
    words
}

fn old_file(alloc: Global, words: &[u64]) -> Result<Vec<u8>, Fail> {
    log_file(alloc, b"IBLOG571", 16, words)
}

// The old words are brought over to these.
fn upgraded(
    rt: &(impl Abort + Threads + Wait + Sync),
    alloc: Global,
    old: &[u64],
    new: &[u64],
) -> Result<(), Fail> {
    let file = log_file(alloc, b"IBLOG572", 16, new)?;
    check_form(
        rt,
        alloc,
        "upgrade",
        &old_file(alloc, old)?,
        Status::Done,
        &file,
    )
}

// `replay` takes what `upgrade` writes of the old words, and prints this.
fn replayed(
    rt: &(impl Abort + Threads + Wait + Sync),
    alloc: Global,
    old: &[u64],
    text: &[u8],
) -> Result<(), Fail> {
    let (status, sink) = told(rt, alloc, &["upgrade"], &old_file(alloc, old)?)?;
    assert_eq!(rt; status, Status::Done);
    check_form(rt, alloc, "replay", sink.bytes(), Status::Done, text)
}

// The bytes are refused with this fault.
fn refused_bytes(
    rt: &(impl Abort + Threads + Wait + Sync),
    alloc: Global,
    bytes: &[u8],
    fault: &str,
) -> Result<(), Fail> {
    let text = format!(in alloc; "bad log: {fault}\n")?;
    check_form(rt, alloc, "upgrade", bytes, Status::BadLog, text.as_bytes())
}

fn refused(
    rt: &(impl Abort + Threads + Wait + Sync),
    alloc: Global,
    words: &[u64],
    fault: &str,
) -> Result<(), Fail> {
    refused_bytes(rt, alloc, &old_file(alloc, words)?, fault)
}

// Session 1 inserts the numbers from 1 on, so many less one, each by an entry of six words.
fn inserts(alloc: Global, end: u64) -> Result<Vec<u64>, Fail> {
    let mut words = Vec::new(alloc);
    for number in 1..end {
        words.extend_from_slice(&[0x1_0001_0001, number, number, 5, 130, 0])?;
    }
    Ok(words)
}

#[test]
fn a_log_of_one_insert(rt: HostRuntime) -> Result<(), Fail> {
    let alloc = rt.alloc();
    upgraded(&rt, alloc, &OLD[..20], &NEW[..23])?;
    replayed(
        &rt,
        alloc,
        &OLD[..20],
        b"log 1\n1 1 insert x:000000000000000a 100\nmap 1\nx:000000000000000a 100\n",
    )?;
    upgraded(&rt, alloc, &OLD, &NEW)?;
    replayed(&rt, alloc, &OLD, TEXT)?;
    upgraded(&rt, alloc, &[], &[])
}

// Numbers are counted for each session. A delete takes its value from the map alone, and a number of eight bytes 255 is a key.
#[test]
fn sessions_and_deletes(rt: HostRuntime) -> Result<(), Fail> {
    let alloc = rt.alloc();
    let mut words = Vec::from_slice(alloc, &OLD)?;
    words.extend_from_slice(&[0x400_0006_0002, 1, 10, 0, 0, 9, 2047, 9])?;
    words.extend_from_slice(&[0x400_0001_0001, 2, u64::MAX, 6, 0, 0])?;
    replayed(
        &rt,
        alloc,
        &words,
        b"log 4\n1 1 insert x:000000000000000a 100\n1 2 insert x:000000000000000b 110\n1024 1 delete x:000000000000000a\n1024 2 insert x:ffffffffffffffff 6\nmap 2\nx:000000000000000b 110\nx:ffffffffffffffff 6\n",
    )
}

#[test]
fn faults_of_an_old_file(rt: HostRuntime) -> Result<(), Fail> {
    let alloc = rt.alloc();
    refused_bytes(&rt, alloc, b"", "short at 0")?;
    refused_bytes(&rt, alloc, b"IBLOG571", "short at 0")?;
    refused_bytes(
        &rt,
        alloc,
        b"IBLOG572\0\0\0\0\0\0\0\x0f\xff",
        "odd length 17",
    )?;
    refused_bytes(
        &rt,
        alloc,
        b"IBLOG570\0\0\0\0\0\0\0\x0f",
        "file at 0 word 5278865616612439856",
    )?;
    refused_bytes(
        &rt,
        alloc,
        &log_file(alloc, b"IBLOG572", 16, &NEW)?,
        "file at 0 word 5278865616612439858",
    )?;
    refused_bytes(
        &rt,
        alloc,
        &log_file(alloc, b"IBLOG571", 15, &OLD)?,
        "file at 1 word 15",
    )?;
    refused_bytes(
        &rt,
        alloc,
        &log_file(alloc, b"IBLOG571", 4097, &[0])?,
        "file at 1 word 4097",
    )
}

#[test]
fn every_truncation(rt: HostRuntime) -> Result<(), Fail> {
    let alloc = rt.alloc();
    let bytes = old_file(alloc, &OLD)?;
    for cut in 0..bytes.len() {
        let front = &bytes[..cut];
        if cut % 8 != 0 {
            let fault = format!(in alloc; "odd length {cut}")?;
            refused_bytes(&rt, alloc, front, &fault)?;
        } else if cut != 16 && cut != 176 {
            let place = if cut < 176 { 0 } else { 20 };
            let fault = format!(in alloc; "short at {place}")?;
            refused_bytes(&rt, alloc, front, &fault)?;
        }
    }
    Ok(())
}

// A place must lie within a page; a word that was written there may be any, and the new log is the same.
#[test]
fn every_word_of_a_page_too_great(rt: HostRuntime) -> Result<(), Fail> {
    let alloc = rt.alloc();
    for at in 4..20 {
        let words = changed(&[(at, u64::MAX)]);
        if at % 2 == 0 {
            refused(&rt, alloc, &words, "outside at 0 word 18446744073709551615")?;
        } else {
            upgraded(&rt, alloc, &words, &NEW)?;
        }
    }
    Ok(())
}

#[test]
fn faults_of_the_second_entry(rt: HostRuntime) -> Result<(), Fail> {
    let alloc = rt.alloc();
    refused(&rt, alloc, &OLD[..23], "short at 20")?;
    refused(&rt, alloc, &OLD[..27], "short at 20")?;
    let rows: [(&[(usize, u64)], &str); 22] = [
        (&[(20, 3)], "head at 20 word 3"),
        (&[(20, 0x401_0001_0002)], "head at 20 word 4402341543938"),
        (&[(20, 0x1_0003_0002)], "head at 20 word 4295163906"),
        (&[(20, 0x1_0001_0000)], "head at 20 word 4295032832"),
        (&[(20, 0x1_0001_1001)], "head at 20 word 4295036929"),
        (&[(20, 0x1_0001_1000)], "short at 20"),
        (&[(20, 0x1_0001_0003)], "short at 20"),
        (&[(21, 0)], "head at 20 word 0"),
        (&[(21, 1 << 32)], "head at 20 word 4294967296"),
        (&[(20, 0x1_0002_0002)], "head at 20 word 110"),
        (&[(24, 2048), (26, 2049)], "outside at 20 word 2048"),
        (&[(26, 2048)], "outside at 20 word 2048"),
        (&[(26, 130)], "write at 20 word 130"),
        (&[(26, 129)], "write at 20 word 129"),
        (&[(26, 256)], "head at 20 word 4295032834"),
        (&[(20, 0x1_0005_0002)], "head at 20 word 4295294978"),
        (&[(21, 1)], "unlawful at 20 number"),
        (&[(20, 0x2_0001_0002)], "unlawful at 20 number"),
        (&[(22, 10)], "unlawful at 20 change"),
        (&[(20, 0x1_0002_0002), (23, 0)], "unlawful at 20 change"),
        (&[(21, 3), (26, 2048)], "outside at 20 word 2048"),
        (&[(21, 3), (22, 10)], "unlawful at 20 number"),
    ];
    for (changes, fault) in rows {
        refused(&rt, alloc, &changed(changes), fault)?;
    }
    refused(
        &rt,
        alloc,
        &changed(&[(1, 2), (20, 0)]),
        "unlawful at 0 number",
    )
}

// Behind 269 ascending inserts no page is free, and no leaf has room for a greater key. All other faults of that entry come
// first, and those of the next one are not looked for.
#[test]
fn a_space_that_gets_full(rt: HostRuntime) -> Result<(), Fail> {
    let alloc = rt.alloc();
    let full = inserts(alloc, 270)?;
    let (status, sink) = told(&rt, alloc, &["upgrade"], &old_file(alloc, &full)?)?;
    assert_eq!(rt; status, Status::Done);
    let (status, _) = told(&rt, alloc, &["replay"], sink.bytes())?;
    assert_eq!(rt; status, Status::Done);
    let rows: [([u64; 6], &str); 6] = [
        (
            [0x1_0001_0001, 270, 270, 5, 130, 0],
            "cannot plan at 1614 space",
        ),
        (
            [0x1_0001_0001, 270, 270, 5, 2048, 0],
            "outside at 1614 word 2048",
        ),
        (
            [0x1_0005_0001, 270, 270, 5, 130, 0],
            "head at 1614 word 4295294977",
        ),
        (
            [0x1_0001_0001, 269, 270, 5, 130, 0],
            "unlawful at 1614 number",
        ),
        (
            [0x1_0001_0001, 270, 269, 5, 130, 0],
            "unlawful at 1614 change",
        ),
        (
            [0x1_0001_0000, 270, 270, 5, 130, 0],
            "head at 1614 word 4295032832",
        ),
    ];
    for (last, fault) in rows {
        let mut words = Vec::from_slice(alloc, &full)?;
        words.extend_from_slice(&last)?;
        words.push(0)?;
        refused(&rt, alloc, &words, fault)?;
    }
    Ok(())
}
