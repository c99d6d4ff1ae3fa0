//! `image` and `restore`: image files of a space with one insert, and each fault.

use super::gates::await_set;
use super::replays::{LOG, TEN};
use super::*;
use ib_rule::Pass;
use std::sync::OnceLock;

// The words of page 1 that are not 0, by their index: in a new space, and after session 1 has inserted 10 with 100.
const NEW: [(usize, u64); 6] = [(0, 1), (7, 532), (8, 18), (9, 19), (18, 275), (19, 256)];

const INSERTED: [(usize, u64); 12] = [
    (0, 1),
    (2, 1),
    (5, 1),
    (7, 536),
    (8, 18),
    (9, 19),
    (18, 276),
    (19, 512),
    (20, 19),
    (21, TEN),
    (22, 2),
    (23, 100),
];

const TEXT: &[u8] = b"map 1\n10 100\n";

// A page of a file: its place, and its words, of which these are not 0.
fn push_page(numbers: &mut Vec<u64>, place: u64, words: &[(usize, u64)]) -> Result<(), Fail> {
    numbers.push(place)?;
    for index in 0..160 {
        let mut word = 0;
        for &(at, other) in words {
            if at == index {
                word = other;
            }
        }
        numbers.push(word)?;
    }
    Ok(())
}

// The numbers of a file from the place of page 0 on: 16 pages, each copied at one place, and a tail.
fn numbers_of(
    alloc: Global,
    place: u64,
    root: &[(usize, u64)],
    tail: &[u64],
) -> Result<Vec<u64>, Fail> {
    let mut numbers = Vec::new(alloc);
    numbers.push(place)?;
    push_page(&mut numbers, place, &[(0, 3)])?;
    push_page(&mut numbers, place, root)?;
    for _ in 2..16 {
        push_page(&mut numbers, place, &[])?;
    }
    numbers.extend_from_slice(tail)?;
    Ok(numbers)
}

// The file of a copy after the insert, and that of one before it, with the entry in its tail.
fn copied_after(alloc: Global) -> Result<Vec<u64>, Fail> {
    numbers_of(alloc, 1, &INSERTED, &[])
}

fn copied_before(alloc: Global) -> Result<Vec<u64>, Fail> {
    numbers_of(alloc, 0, &NEW, &LOG[..23])
}

// What is answered to a file of these numbers.
fn check_image(
    rt: &(impl Abort + Threads + Wait + Sync),
    alloc: Global,
    pages: u64,
    numbers: &[u64],
    status: Status,
    text: &[u8],
) -> Result<(), Fail> {
    let bytes = log_file(alloc, b"IBIMG572", pages, numbers)?;
    check_form(rt, alloc, "restore", &bytes, status, text)
}

// .. with another word at a number of the file, counted from its first.
fn check_changed(
    rt: &(impl Abort + Threads + Wait + Sync),
    alloc: Global,
    mut numbers: Vec<u64>,
    at: usize,
    word: u64,
    text: &[u8],
) -> Result<(), Fail> {
    if let Some(number) = numbers.get_mut(at.saturating_sub(2)) {
        *number = word;
    }
    check_image(rt, alloc, 16, &numbers, Status::BadLog, text)
}

// What has ended, of a script of one session and the session that copies beside it, which is number 2.
#[derive(Drop)]
struct Order {
    copy_first: bool,
    inserted: OnceLock<()>,
    copied: OnceLock<()>,
}

// Holds session 1 until the copy has ended, or the copy until session 1 has.
impl Gate for Order {
    fn pause<R: Wait>(&self, _rt: &R, _pass: &Pass, session: u32, call: u32) {
        match (session, call) {
            (1, 1) if self.copy_first => await_set(&self.copied),
            (2, 1) if !self.copy_first => await_set(&self.inserted),
            (1, 2) => {
                let _ = self.inserted.try_set(());
            }
            (2, 2) => {
                let _ = self.copied.try_set(());
            }
            _ => {}
        }
    }
}

// The file that `image` writes of a script that inserts 10 with 100 into 16 pages, and what `restore` writes of that file.
fn check_copy(
    rt: &(impl Abort + Threads + Wait + Sync),
    alloc: Global,
    copy_first: bool,
    numbers: &[u64],
) -> Result<(), Fail> {
    let gate = Order {
        copy_first,
        inserted: OnceLock::new(),
        copied: OnceLock::new(),
    };
    let script = b"space 16 8196\ninsert 10 100\n";
    let words = vec![in alloc; String::from_str(alloc, "image")?]?;
    let mut source = MemorySource::new(Vec::from_slice(alloc, script)?, 1000, Vec::new(alloc));
    let mut sink = MemorySink::new(alloc, 1000, Vec::new(alloc));
    let status = top(rt, alloc, &words, &mut source, &mut sink, &gate);
    assert_eq!(rt; status, Status::Done);
    let bytes = log_file(alloc, b"IBIMG572", 16, numbers)?;
    assert!(rt; sink.bytes() == bytes.as_slice());
    assert!(rt; gate.copied.get().is_some());
    check_form(rt, alloc, "restore", sink.bytes(), Status::Done, TEXT)
}

#[test]
fn a_copy_after_the_session_has_ended(rt: HostRuntime) -> Result<(), Fail> {
    check_copy(&rt, rt.alloc(), false, &copied_after(rt.alloc())?)
}

#[test]
fn a_copy_before_the_session_begins(rt: HostRuntime) -> Result<(), Fail> {
    check_copy(&rt, rt.alloc(), true, &copied_before(rt.alloc())?)
}

#[test]
fn a_bad_script_is_no_image(rt: HostRuntime) -> Result<(), Fail> {
    let text = b"script: line 2: word\n";
    check_form(
        &rt,
        rt.alloc(),
        "image",
        b"get 1\nput 1 2\n",
        Status::Script,
        text,
    )
}

#[test]
fn copies_before_and_after_an_insert(rt: HostRuntime) -> Result<(), Fail> {
    let alloc = rt.alloc();
    check_image(&rt, alloc, 16, &copied_after(alloc)?, Status::Done, TEXT)?;
    check_image(&rt, alloc, 16, &copied_before(alloc)?, Status::Done, TEXT)
}

#[test]
fn faults_of_the_numbers_in_front(rt: HostRuntime) -> Result<(), Fail> {
    let alloc = rt.alloc();
    check_form(
        &rt,
        alloc,
        "restore",
        b"IBIMG57",
        Status::BadLog,
        b"bad image: odd length 7\n",
    )?;
    check_form(
        &rt,
        alloc,
        "restore",
        b"",
        Status::BadLog,
        b"bad image: short 0\n",
    )?;
    let bytes = log_file(alloc, b"IBLOG572", 16, &[0])?;
    check_form(
        &rt,
        alloc,
        "restore",
        &bytes,
        Status::BadLog,
        b"bad image: word at 0 5278865616612439858\n",
    )?;
    check_image(
        &rt,
        alloc,
        15,
        &[0],
        Status::BadLog,
        b"bad image: word at 1 15\n",
    )?;
    check_image(
        &rt,
        alloc,
        16,
        &[0x1_0000_0000],
        Status::BadLog,
        b"bad image: word at 2 4294967296\n",
    )?;
    let mut short = copied_after(alloc)?;
    let _ = short.pop();
    check_image(
        &rt,
        alloc,
        16,
        &short,
        Status::BadLog,
        b"bad image: short 2578\n",
    )
}

#[test]
fn faults_behind_the_front(rt: HostRuntime) -> Result<(), Fail> {
    let alloc = rt.alloc();
    let mut cut = copied_before(alloc)?;
    let _ = cut.pop();
    check_image(
        &rt,
        alloc,
        16,
        &cut,
        Status::BadLog,
        b"bad image: tail short at 0\n",
    )?;
    let after = copied_after(alloc)?;
    check_changed(&rt, alloc, after, 3, 0, b"bad image: word at 3 0\n")?;
    let after = copied_after(alloc)?;
    check_changed(&rt, alloc, after, 164, 2, b"bad image: word at 164 2\n")?;
    // The words of page 1 begin at number 165. A count that is not that of its records is no page.
    let after = copied_after(alloc)?;
    check_changed(&rt, alloc, after, 167, 2, b"bad image: not a tree\n")
}
