//! A gate that decides which session goes first, and looks at each pass.

use super::*;
use ib_rule::Pass;
use std::sync::OnceLock;
use std::thread;

// How often a gate looks whether another session came, before it lets go.
const MOST_LOOKS: u32 = 10_000_000;

// A session's number, how many changes it has made, and how many of the log it has seen.
type Note = (u32, u32, u32);

// What is noted at each call of sessions 1 and 2, once each.
#[derive(Drop)]
struct Notes {
    first: [OnceLock<Note>; 3],
    second: [OnceLock<Note>; 2],
}

/// Waits until it is set, or the limit of looks.
pub fn await_set<T: Clone>(cell: &OnceLock<T>) {
    for _ in 0..MOST_LOOKS {
        if cell.get().is_some() {
            return;
        }
        thread::yield_now();
    }
}

// Holds call 1 of session 2 until session 1 comes to its call 2, which is held until session 2 has ended.
impl Gate for Notes {
    fn pause<R: Wait>(&self, _rt: &R, pass: &Pass, session: u32, call: u32) {
        let note = (pass.number(), pass.made(), pass.place());
        let place = match (session, call) {
            (1, 1) => &self.first[0],
            (1, 2) => &self.first[1],
            (1, 3) => &self.first[2],
            (2, 1) => &self.second[0],
            (2, 2) => &self.second[1],
            _ => return,
        };
        let _ = place.try_set(note);
        match (session, call) {
            (2, 1) => await_set(&self.first[1]),
            (1, 2) => await_set(&self.second[1]),
            _ => {}
        }
    }
}

// A session's one call between those of another, by this form.
fn check_between(
    rt: &(impl Abort + Threads + Wait + Sync),
    alloc: Global,
    form: &str,
) -> Result<(), Fail> {
    let gate = Notes {
        first: [OnceLock::new(), OnceLock::new(), OnceLock::new()],
        second: [OnceLock::new(), OnceLock::new()],
    };
    let input = b"session 1\ninsert 7 1\nget 7\nsession 2\ndelete 7\n";
    let words = vec![in alloc; String::from_str(alloc, form)?]?;
    let mut source = MemorySource::new(Vec::from_slice(alloc, input)?, 1000, Vec::new(alloc));
    let mut sink = MemorySink::new(alloc, 1000, Vec::new(alloc));
    let status = top(rt, alloc, &words, &mut source, &mut sink, &gate);
    assert_eq!(rt; status, Status::Done);
    assert_eq!(rt;
        sink.bytes(),
        b"session 1\ninsert 7 1 -> inserted at 0\nget 7 -> none at 2\nsession 2\ndelete 7 -> deleted 1 at 1\nlog 2\n1 1 insert 7 1\n2 1 delete 7\nmap 0\n".as_slice()
    );
    assert_eq!(rt; gate.first[0].get(), Some(&(1, 0, 0)));
    assert_eq!(rt; gate.first[1].get(), Some(&(1, 1, 1)));
    assert_eq!(rt; gate.second[1].get(), Some(&(2, 1, 2)));
    assert_eq!(rt; gate.first[2].get(), Some(&(1, 1, 2)));
    Ok(())
}

#[test]
fn one_session_between_the_calls_of_another(rt: HostRuntime) -> Result<(), Fail> {
    check_between(&rt, rt.alloc(), "run")
}

#[test]
fn one_session_between_the_calls_of_another_by_guesses(rt: HostRuntime) -> Result<(), Fail> {
    check_between(&rt, rt.alloc(), "fast")
}
