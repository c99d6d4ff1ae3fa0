//! `pair`: worked scripts of two trees, and one session's keys of a value behind another's insert.

use super::*;
use ib_rule::Pass;
use std::sync::OnceLock;
use std::thread;

// How often a gate looks whether another session came, before it lets go.
const MOST_LOOKS: u32 = 10_000_000;

#[test]
fn keys_of_a_value(rt: HostRuntime) -> Result<(), Fail> {
    check_form(
        &rt,
        rt.alloc(),
        "pair",
        b"insert a 5\ninsert b 5\nvalue 5\ndelete a\nvalue 5\n",
        Status::Done,
        b"session 1\ninsert a 5 -> inserted at 0\ninsert b 5 -> inserted at 1\nvalue 5 -> 2 keys\nat 2\nkey a\nkey b\ndelete a -> deleted 5 at 2\nvalue 5 -> 1 keys\nat 3\nkey b\nlog 3\n1 1 insert a 5\n1 2 insert b 5\n1 3 delete a\nmap 1\nb 5\nsecond 1\nx:000000000000000562\n",
    )
}

#[test]
fn keys_of_eight_bytes_are_too_long(rt: HostRuntime) -> Result<(), Fail> {
    let alloc = rt.alloc();
    for bad in [
        b"insert abcdefgh 1".as_slice(),
        b"delete abcdefgh",
        b"get abcdefgh",
    ] {
        refused_among(&rt, alloc, "pair", b"insert abcdefg 1", bad, "long")?;
    }
    refused_among(&rt, alloc, "pair", b"value 1", b"scan a b", "word")?;
    refused_among(&rt, alloc, "pair", b"value 1", b"value a", "number")
}

#[test]
fn refusals_change_neither_tree(rt: HostRuntime) -> Result<(), Fail> {
    check_form(
        &rt,
        rt.alloc(),
        "pair",
        b"insert a 5\ninsert a 6\ndelete b\nget a\nget b\nvalue 6\n",
        Status::Done,
        b"session 1\ninsert a 5 -> inserted at 0\ninsert a 6 -> duplicate at 1\ndelete b -> missing at 1\nget a -> 5 at 1\nget b -> none at 1\nvalue 6 -> 0 keys\nlog 1\n1 1 insert a 5\nmap 1\na 5\nsecond 1\nx:000000000000000561\n",
    )
}

// Whether session 1 came to its second call.
#[derive(Drop)]
struct AfterInsert {
    answered: OnceLock<u32>,
}

// Holds call 1 of session 2 until call 1 of session 1 was answered.
impl Gate for AfterInsert {
    fn pause<R: Wait>(&self, _rt: &R, pass: &Pass, session: u32, call: u32) {
        if session == 1 && call == 2 {
            let _ = self.answered.try_set(pass.place());
        }
        if session != 2 || call != 1 {
            return;
        }
        for _ in 0..MOST_LOOKS {
            if self.answered.get().is_some() {
                return;
            }
            thread::yield_now();
        }
    }
}

#[test]
fn keys_of_a_value_after_the_insert_of_another_session(rt: HostRuntime) -> Result<(), Fail> {
    let alloc = rt.alloc();
    let gate = AfterInsert {
        answered: OnceLock::new(),
    };
    let input = b"session 1\ninsert a 5\nsession 2\nvalue 5\n";
    let words = vec![in alloc; String::from_str(alloc, "pair")?]?;
    let mut source = MemorySource::new(Vec::from_slice(alloc, input)?, 1000, Vec::new(alloc));
    let mut sink = MemorySink::new(alloc, 1000, Vec::new(alloc));
    let status = top(&rt, alloc, &words, &mut source, &mut sink, &gate);
    assert_eq!(rt; status, Status::Done);
    assert_eq!(rt;
        sink.bytes(),
        b"session 1\ninsert a 5 -> inserted at 0\nsession 2\nvalue 5 -> 1 keys\nat 1\nkey a\nlog 1\n1 1 insert a 5\nmap 1\na 5\nsecond 1\nx:000000000000000561\n".as_slice()
    );
    assert_eq!(rt; gate.answered.get(), Some(&1));
    Ok(())
}
