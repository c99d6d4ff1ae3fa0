//! `latch`: worked events with their answers, and bad lines.

use super::*;

// `latch` answers each of these events, given with its answer and the latch's word afterwards.
fn answered(
    rt: &(impl Abort + Threads + Wait + Sync),
    alloc: Global,
    rows: &[(&[u8], &[u8])],
) -> Result<(), Fail> {
    let mut events = Vec::new(alloc);
    let mut text = Vec::new(alloc);
    for &(event, answer) in rows {
        events.extend_from_slice(event)?;
        events.extend_from_slice(b"\n")?;
        text.extend_from_slice(event)?;
        text.extend_from_slice(b" -> ")?;
        text.extend_from_slice(answer)?;
        text.extend_from_slice(b"\n")?;
    }
    check_form(rt, alloc, "latch", &events, Status::Done, &text)
}

#[test]
fn recursion(rt: HostRuntime) -> Result<(), Fail> {
    answered(
        &rt,
        rt.alloc(),
        &[
            (b"1 x 0 4", b"granted, word 0"),
            (b"1 x 0 4", b"granted, word -536870912"),
            (b"1 x 0 4", b"granted, word -536870913"),
            (b"1 ux 0", b"released, word -536870912"),
            (b"1 ux 0", b"released, word 0"),
            (b"1 ux 0", b"released, word 536870912"),
            (b"1 look 0", b"waiters 0, word 536870912"),
        ],
    )
}

#[test]
fn upgrade_past_a_reader(rt: HostRuntime) -> Result<(), Fail> {
    answered(
        &rt,
        rt.alloc(),
        &[
            (b"1 sx 0 4", b"granted, word 268435456"),
            (b"2 s 0 4", b"granted, word 268435455"),
            (b"1 x 0 4", b"reserved, word -268435457"),
            (b"1 ready 0", b"not ready -268435457, word -268435457"),
            (b"2 us 0", b"released, word -268435456"),
            (b"2 raise 0", b"signalled 1, word -268435456"),
            (b"1 ready 0", b"granted, word -268435456"),
        ],
    )
}

#[test]
fn no_reader_passes_a_next_writer(rt: HostRuntime) -> Result<(), Fail> {
    answered(
        &rt,
        rt.alloc(),
        &[
            (b"2 s 0 4", b"granted, word 536870911"),
            (b"1 x 0 4", b"reserved, word -1"),
            (b"3 s 0 4", b"busy -1, word -1"),
        ],
    )
}

#[test]
fn granted_before_it_sleeps(rt: HostRuntime) -> Result<(), Fail> {
    answered(
        &rt,
        rt.alloc(),
        &[
            (b"1 x 0 4", b"granted, word 0"),
            (b"2 arm 0 s 4", b"armed 0, word 0"),
            (b"2 flag 0", b"flagged, word 0"),
            (b"1 ux 0", b"released, word 536870912"),
            (b"2 again 0", b"granted, word 536870911"),
            (b"1 look 0", b"waiters 1, word 536870911"),
            (b"1 clear 0", b"cleared 1, word 536870911"),
            (b"1 raise 0", b"signalled 1, word 536870911"),
        ],
    )
}

#[test]
fn asleep_and_woken(rt: HostRuntime) -> Result<(), Fail> {
    answered(
        &rt,
        rt.alloc(),
        &[
            (b"1 x 0 4", b"granted, word 0"),
            (b"2 arm 0 s 4", b"armed 0, word 0"),
            (b"2 flag 0", b"flagged, word 0"),
            (b"2 again 0", b"busy 0, word 0"),
            (b"2 sleep 0", b"asleep 0, word 0"),
            (b"1 ux 0", b"released, word 536870912"),
            (b"1 look 0", b"waiters 1, word 536870912"),
            (b"1 clear 0", b"cleared 1, word 536870912"),
            (b"1 raise 0", b"signalled 1, word 536870912"),
            (b"2 sleep 0", b"awake 1, word 536870912"),
            (b"2 s 0 4", b"granted, word 536870911"),
        ],
    )
}

#[test]
fn refusals(rt: HostRuntime) -> Result<(), Fail> {
    answered(
        &rt,
        rt.alloc(),
        &[
            (b"1 x 0 1", b"granted, word 0"),
            (b"1 s 1 4", b"refused against 1 4, word 536870912"),
            (b"1 s 0 1", b"refused held already, word 0"),
            (b"1 us 1", b"refused not held, word 536870912"),
            (b"1 sleep 1", b"refused out of turn, word 536870912"),
        ],
    )
}

#[test]
fn a_next_writer_sleeps(rt: HostRuntime) -> Result<(), Fail> {
    answered(
        &rt,
        rt.alloc(),
        &[
            (b"1 sx 0 4", b"granted, word 268435456"),
            (b"2 s 0 4", b"granted, word 268435455"),
            (b"1 x 0 4", b"reserved, word -268435457"),
            (b"1 exarm 0", b"armed 0, word -268435457"),
            (b"1 ready 0", b"not ready -268435457, word -268435457"),
            (b"1 sleep 0", b"asleep 0, word -268435457"),
            (b"2 us 0", b"released, word -268435456"),
            (b"2 raise 0", b"signalled 1, word -268435456"),
            (b"1 sleep 0", b"awake 1, word -268435456"),
            (b"1 ready 0", b"granted, word -268435456"),
            (b"1 ux 0", b"released, word 268435456"),
            (b"1 look 0", b"waiters 0, word 268435456"),
            (b"1 usx 0", b"released, word 536870912"),
            (b"1 look 0", b"waiters 0, word 536870912"),
        ],
    )
}

#[test]
fn waiting_given_up(rt: HostRuntime) -> Result<(), Fail> {
    answered(
        &rt,
        rt.alloc(),
        &[
            (b"1 x 0 4", b"granted, word 0"),
            (b"3 arm 0 sx 4", b"armed 0, word 0"),
            (b"3 flag 0", b"flagged, word 0"),
            (b"3 again 0", b"busy 0, word 0"),
            (b"3 quit 0", b"quit, word 0"),
            (b"64 arm 15 x 5", b"armed 0, word 536870912"),
            (b"64 quit 15", b"quit, word 536870912"),
        ],
    )
}

// The text is refused at this line, for this reason.
fn refused(
    rt: &(impl Abort + Threads + Wait + Sync),
    alloc: Global,
    text: &[u8],
    line: u32,
    kind: &str,
) -> Result<(), Fail> {
    refused_lines(rt, alloc, "latch", &[text], line, kind)
}

fn refused_anywhere(
    rt: &(impl Abort + Threads + Wait + Sync),
    alloc: Global,
    line: &[u8],
    kind: &str,
) -> Result<(), Fail> {
    refused_among(rt, alloc, "latch", b"1 look 0", line, kind)
}

#[test]
fn bad_events(rt: HostRuntime) -> Result<(), Fail> {
    let alloc = rt.alloc();
    refused_anywhere(&rt, alloc, b"1", "fields")?;
    refused_anywhere(&rt, alloc, b"one s 0 4", "number")?;
    refused_anywhere(&rt, alloc, b"01 s 0 4", "number")?;
    refused_anywhere(&rt, alloc, b"0 s 0 4", "session")?;
    refused_anywhere(&rt, alloc, b"65 s 0 4", "session")?;
    refused_anywhere(&rt, alloc, b"1 share 0 4", "word")?;
    refused_anywhere(&rt, alloc, b"1 us 0 4", "fields")?;
    refused_anywhere(&rt, alloc, b"1 s 0", "fields")?;
    refused_anywhere(&rt, alloc, b"1 arm 0 s", "fields")?;
    refused_anywhere(&rt, alloc, b"1 s x 4", "number")?;
    refused_anywhere(&rt, alloc, b"1 s 16 4", "latch")?;
    refused_anywhere(&rt, alloc, b"1 arm 0 us 4", "word")?;
    refused_anywhere(&rt, alloc, b"1 s 0 four", "number")?;
    refused_anywhere(&rt, alloc, b"1 s 0 0", "level")?;
    refused_anywhere(&rt, alloc, b"1 s 0 6", "level")
}

#[test]
fn the_first_cause_is_told(rt: HostRuntime) -> Result<(), Fail> {
    let alloc = rt.alloc();
    refused(&rt, alloc, b"x", 1, "fields")?;
    refused(&rt, alloc, b"x share", 1, "number")?;
    refused(&rt, alloc, b"65 share", 1, "session")?;
    refused(&rt, alloc, b"1 share x y z", 1, "word")?;
    refused(&rt, alloc, b"1 s x", 1, "fields")?;
    refused(&rt, alloc, b"1 s x x", 1, "number")?;
    refused(&rt, alloc, b"1 s 16 x", 1, "latch")?;
    refused(&rt, alloc, b"1 arm 16 y 0", 1, "latch")?;
    refused(&rt, alloc, b"1 arm 0 y 0", 1, "word")?;
    refused(&rt, alloc, b"1 arm 0 s 0\n1", 1, "level")?;
    refused(&rt, alloc, b"1 s 0 4\n1 look 0 \nx", 2, "fields")
}

#[test]
fn no_events(rt: HostRuntime) -> Result<(), Fail> {
    let alloc = rt.alloc();
    check_form(&rt, alloc, "latch", b"", Status::Done, b"")?;
    check_form(&rt, alloc, "latch", b"# none\n\n", Status::Done, b"")
}
