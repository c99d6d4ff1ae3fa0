//! Words that are no form, and each read and each write failing.

ghost use Rattle.std.specs.Prelude.{◌≡◌, ◌<◌};

use super::rows::FILE;
use super::*;
use ib_io::{BUFFER_BYTES, Writer};

#[test]
fn words_that_are_no_form(rt: HostRuntime) -> Result<(), Fail> {
    let alloc = rt.alloc();
    let usage = b"usage: ib_tool run | raw | latch | replay | gen N SEED SESSIONS\n";
    let forms: [&[&str]; 8] = [
        &[],
        &["--help"],
        &["--"],
        &["run", "run"],
        &["Run"],
        &["replay", "replay"],
        &["replay "],
        &["gen", "0", "1", "1"],
    ];
    for words in forms {
        let (status, sink) = told(&rt, alloc, words, b"insert 1 2\n")?;
        assert_eq!(rt; status, Status::Usage);
        assert_eq!(rt; sink.bytes(), usage.as_slice());
    }
    Ok(())
}

// A source or a sink: the most bytes of a call, and which call fails, counted from 1; none where it is 0.
#[derive(Clone, Copy)]
struct Side {
    most: usize,
    failing: u64,
}

// A side that never fails.
fn sound(most: usize) -> Side
    ensures { result.most ≡ most }
{
    Side { most, failing: 0 }
}

// The status, and what was written.
fn run_between(
    rt: &(impl Abort + Threads + Wait + Sync),
    alloc: Global,
    form: &str,
    input: Vec<u8>,
    source: Side,
    sink: Side,
) -> Result<(Status, MemorySink), Fail>
    requires source { 0 < source.most }
    requires sink { 0 < sink.most }
{
    let words = vec![in alloc; String::from_str(alloc, form)?]?;
    let mut given = MemorySource::new(input, source.most, vec![in alloc; source.failing]?);
    let mut taken = MemorySink::new(alloc, sink.most, vec![in alloc; sink.failing]?);
    let status = top(rt, alloc, &words, &mut given, &mut taken, &OpenGate);
    Ok((status, taken))
}

// A form with an input, the status that it comes to, and what is written then. No input's length is a multiple of 10.
const ROWS: [(&str, &[u8], Status, &[u8]); 9] = [
    (
        "run",
        b"space 16 16384\ninsert 10 100\ninsert 10 7\n",
        Status::Done,
        b"session 1\ninsert 10 100 -> inserted at 0\ninsert 10 7 -> duplicate at 1\nlog 1\n1 1 insert 10 100\nmap 1\n10 100\n",
    ),
    ("run", b"put 1 2", Status::Script, b"script: line 1: word\n"),
    (
        "fast",
        b"insert 10 100\nget 10\n",
        Status::Done,
        b"session 1\ninsert 10 100 -> inserted at 0\nget 10 -> 100 at 1\nlog 1\n1 1 insert 10 100\nmap 1\n10 100\n",
    ),
    (
        "pair",
        b"insert a 5\nvalue 5\n",
        Status::Done,
        b"session 1\ninsert a 5 -> inserted at 0\nvalue 5 -> 1 keys\nat 1\nkey a\nlog 1\n1 1 insert a 5\nmap 1\na 5\nsecond 1\nx:000000000000000561\n",
    ),
    (
        "pair",
        b"insert abcdefgh 1",
        Status::Script,
        b"script: line 1: long\n",
    ),
    (
        "raw",
        b"space 16 8196\ninsert 10 100\n",
        Status::Done,
        &FILE,
    ),
    (
        "latch",
        b"1 x 0 4\n1 ux 0\n",
        Status::Done,
        b"1 x 0 4 -> granted, word 0\n1 ux 0 -> released, word 536870912\n",
    ),
    (
        "replay",
        b"IBLOG572\0\0\0\0\0\0\0\x10",
        Status::Done,
        b"log 0\nmap 0\n",
    ),
    (
        "replay",
        b"IBLOG572",
        Status::BadLog,
        b"bad log: short at 0\n",
    ),
];

#[test]
fn each_read_failing(rt: HostRuntime) -> Result<(), Fail> {
    let alloc = rt.alloc();
    for (form, input, _, _) in ROWS {
        // The last call answers that the input ends.
        for call in 1..=input.len() as u64 / 10 + 2 {
            let given = Vec::from_slice(alloc, input)?;
            let (status, sink) = run_between(
                &rt,
                alloc,
                form,
                given,
                Side {
                    most: 10,
                    failing: call,
                },
                sound(99),
            )?;
            assert_eq!(rt; status, Status::ReadFault);
            assert_eq!(rt; sink.bytes(), b"".as_slice());
        }
    }
    Ok(())
}

#[test]
fn each_write_failing(rt: HostRuntime) -> Result<(), Fail> {
    let alloc = rt.alloc();
    for (form, input, status, text) in ROWS {
        for before in 0..text.len().div_ceil(8) {
            let given = Vec::from_slice(alloc, input)?;
            let (found, sink) = run_between(
                &rt,
                alloc,
                form,
                given,
                sound(99),
                Side {
                    most: 8,
                    failing: before as u64 + 1,
                },
            )?;
            assert_eq!(rt; found, Status::WriteFault);
            assert_eq!(rt; sink.bytes(), &text[..8 * before]);
        }
        let given = Vec::from_slice(alloc, input)?;
        let (found, sink) = run_between(&rt, alloc, form, given, sound(99), sound(8))?;
        assert_eq!(rt; found, status);
        assert_eq!(rt; sink.bytes(), text);
    }
    Ok(())
}

#[test]
fn a_read_and_a_write_that_fail(rt: HostRuntime) -> Result<(), Fail> {
    let alloc = rt.alloc();
    let script = b"insert 10 100\ninsert 10 7\n";
    let third = Side {
        most: 10,
        failing: 3,
    };
    let given = Vec::from_slice(alloc, script)?;
    let (status, sink) = run_between(&rt, alloc, "run", given, third, sound(99))?;
    assert_eq!(rt; status, Status::ReadFault);
    assert_eq!(rt; sink.bytes(), b"".as_slice());
    let second = Side {
        most: 1,
        failing: 2,
    };
    let given = Vec::from_slice(alloc, script)?;
    let (status, sink) = run_between(&rt, alloc, "run", given, sound(99), second)?;
    assert_eq!(rt; status, Status::WriteFault);
    assert_eq!(rt; sink.bytes(), b"s".as_slice());
    Ok(())
}

#[test]
fn an_input_too_large(rt: HostRuntime) -> Result<(), Fail> {
    let alloc = rt.alloc();
    let script = vec![in alloc; b'\n'; INPUT_BYTES]?;
    let (status, sink) = run_between(&rt, alloc, "run", script, sound(PIECE_BYTES), sound(99))?;
    assert_eq!(rt; status, Status::Done);
    assert_eq!(rt; sink.bytes(), b"log 0\nmap 0\n".as_slice());
    let script = vec![in alloc; b'\n'; INPUT_BYTES + 1]?;
    let (status, sink) = run_between(&rt, alloc, "run", script, sound(PIECE_BYTES), sound(99))?;
    assert_eq!(rt; status, Status::TooLarge);
    assert_eq!(rt; sink.bytes(), b"too large\n".as_slice());
    Ok(())
}

#[test]
fn a_text_longer_than_the_buffer(rt: HostRuntime) -> Result<(), Fail> {
    let alloc = rt.alloc();
    let text = vec![in alloc; b'x'; BUFFER_BYTES + 1]?;
    let mut sink = MemorySink::new(alloc, 5000, Vec::new(alloc));
    let mut writer = Writer::new(&mut sink);
    writer.text(&text);
    writer.finish().map_err(|_| Failed)?;
    assert_eq!(rt; sink.bytes(), text.as_slice());
    Ok(())
}

#[test]
fn statuses_have_their_numbers(rt: HostRuntime) {
    assert_eq!(rt; Status::Done.number(), 0);
    assert_eq!(rt; Status::BadLog.number(), 7);
}
