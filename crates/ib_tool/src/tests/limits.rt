//! The limits of an input, at each and just past it.

use super::*;

// The line, so many times.
fn lines(alloc: Global, line: &[u8], count: u32) -> Result<Vec<u8>, Fail> {
    let mut script = Vec::new(alloc);
    for _ in 0..count {
        script.extend_from_slice(line)?;
    }
    Ok(script)
}

fn accepted_by(
    rt: &(impl Abort + Threads + Wait + Sync),
    alloc: Global,
    form: &str,
    input: &[u8],
) -> Result<(), Fail> {
    let (status, _) = told(rt, alloc, &[form], input)?;
    assert_eq!(rt; status, Status::Done);
    Ok(())
}

fn accepted(
    rt: &(impl Abort + Threads + Wait + Sync),
    alloc: Global,
    script: &[u8],
) -> Result<(), Fail> {
    accepted_by(rt, alloc, "run", script)
}

#[test]
fn a_million_commands(rt: HostRuntime) -> Result<(), Fail> {
    let alloc = rt.alloc();
    let mut script = lines(alloc, b"get 0\n", 1_000_000)?;
    accepted(&rt, alloc, &script)?;
    script.extend_from_slice(b"get 0\n")?;
    check(
        &rt,
        alloc,
        &script,
        Status::Script,
        b"script: line 1000001: many\n",
    )
}

#[test]
fn a_hundred_thousand_scans(rt: HostRuntime) -> Result<(), Fail> {
    let alloc = rt.alloc();
    let mut script = lines(alloc, b"scan 0 9\n", 100_000)?;
    script.extend_from_slice(b"get 1\n")?;
    accepted(&rt, alloc, &script)?;
    script.extend_from_slice(b"scan 9 0\n")?;
    check(
        &rt,
        alloc,
        &script,
        Status::Script,
        b"script: line 100002: many\n",
    )
}

#[test]
fn the_greatest_key_and_value(rt: HostRuntime) -> Result<(), Fail> {
    let alloc = rt.alloc();
    accepted(
        &rt,
        alloc,
        b"space 4096 16777216\nsession 64\ninsert x:ffffffffffffffffffffffffffffff 18446744073709551615\n",
    )
}

#[test]
fn a_million_events(rt: HostRuntime) -> Result<(), Fail> {
    let alloc = rt.alloc();
    let mut events = lines(alloc, b"64 look 15\n", 1_000_000)?;
    accepted_by(&rt, alloc, "latch", &events)?;
    events.extend_from_slice(b"64 look 15\n")?;
    check_form(
        &rt,
        alloc,
        "latch",
        &events,
        Status::Script,
        b"script: line 1000001: many\n",
    )
}

// The inserts of 20,000 keys, and then the delete and the insert of the first of them in turn, 40,000 of both.
fn many_changes(alloc: Global) -> Result<Vec<u8>, Fail> {
    let mut script = Vec::from_slice(alloc, b"space 4096 16777216\n")?;
    for number in 1..20_001u32 {
        script.extend_from_slice(format!(in alloc; "insert k{number:05} {number}\n")?.as_bytes())?;
    }
    for _ in 0..20_000 {
        script.extend_from_slice(b"delete k00001\ninsert k00001 1\n")?;
    }
    Ok(script)
}

// A log of 60,000 entries is written, and its file replayed.
#[test]
fn a_long_log_is_replayed(rt: HostRuntime) -> Result<(), Fail> {
    let alloc = rt.alloc();
    let (written, file) = told(&rt, alloc, &["raw"], &many_changes(alloc)?)?;
    assert_eq!(rt; written, Status::Done);
    let (replayed, text) = told(&rt, alloc, &["replay"], file.bytes())?;
    assert_eq!(rt; replayed, Status::Done);
    assert!(rt;
        text.bytes()
            .starts_with(b"log 60000\n1 1 insert k00001 1\n")
    );
    // The map's part ends the text: 20,000 lines of 8 bytes and the digits of a value.
    let digits = 9 + 2 * 90 + 3 * 900 + 4 * 9_000 + 5 * 10_001;
    let part = 10 + 20_000 * 8 + digits;
    let bytes = text.bytes();
    assert!(rt; part <= bytes.len());
    let map = bytes.len() - part;
    assert!(rt; bytes[map..].starts_with(b"map 20000\nk00001 1\nk00002 2\n"));
    Ok(())
}
