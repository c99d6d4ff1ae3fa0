//! The program between a source and a sink in memory.

use super::*;
use std::alloc::Global;
use std::process::Abort;
use std::sync::Wait;
use std::test::Fail;
use std::thread::Threads;

mod events;
mod full;
mod gates;
mod images;
mod limits;
mod lines;
mod pairs;
mod replays;
mod rows;
mod sides;
mod upgrades;

// Runs the words on an input that comes in pieces of 1,000 bytes, into a sink that takes 1,000 bytes a call.
fn told(
    rt: &(impl Abort + Threads + Wait + Sync),
    alloc: Global,
    words: &[&str],
    input: &[u8],
) -> Result<(Status, MemorySink), Fail> {
    let mut given = Vec::new(alloc);
    for word in words {
        given.push(String::from_str(alloc, word)?)?;
    }
    let mut source = MemorySource::new(Vec::from_slice(alloc, input)?, 1000, Vec::new(alloc));
    let mut sink = MemorySink::new(alloc, 1000, Vec::new(alloc));
    let status = top(rt, alloc, &given, &mut source, &mut sink, &OpenGate);
    Ok((status, sink))
}

// The status and the text that words give for this input.
fn check_words(
    rt: &(impl Abort + Threads + Wait + Sync),
    alloc: Global,
    words: &[&str],
    input: &[u8],
    status: Status,
    text: &[u8],
) -> Result<(), Fail> {
    let (found, sink) = told(rt, alloc, words, input)?;
    assert_eq!(rt; found, status);
    assert_eq!(rt; sink.bytes(), text);
    Ok(())
}

// .. and those of a form of one word.
fn check_form(
    rt: &(impl Abort + Threads + Wait + Sync),
    alloc: Global,
    form: &str,
    input: &[u8],
    status: Status,
    text: &[u8],
) -> Result<(), Fail> {
    check_words(rt, alloc, &[form], input, status, text)
}

// The status and the text that `run` gives for this script, and `fast` too.
fn check(
    rt: &(impl Abort + Threads + Wait + Sync),
    alloc: Global,
    script: &[u8],
    status: Status,
    text: &[u8],
) -> Result<(), Fail> {
    check_form(rt, alloc, "run", script, status, text)?;
    check_form(rt, alloc, "fast", script, status, text)
}

// The lines, each part as it is, are refused by a form at this line, for this reason.
fn refused_lines(
    rt: &(impl Abort + Threads + Wait + Sync),
    alloc: Global,
    form: &str,
    parts: &[&[u8]],
    line: u32,
    kind: &str,
) -> Result<(), Fail> {
    let mut input = Vec::new(alloc);
    for part in parts {
        input.extend_from_slice(part)?;
    }
    let text = format!(in alloc; "script: line {line}: {kind}\n")?;
    check_form(rt, alloc, form, &input, Status::Script, text.as_bytes())
}

// A bad line is told as the first, as a middle one, and as the last, with a final line feed and without.
fn refused_among(
    rt: &(impl Abort + Threads + Wait + Sync),
    alloc: Global,
    form: &str,
    good: &[u8],
    bad: &[u8],
    kind: &str,
) -> Result<(), Fail> {
    refused_lines(rt, alloc, form, &[bad, b"\n", good, b"\n"], 1, kind)?;
    refused_lines(
        rt,
        alloc,
        form,
        &[good, b"\n", bad, b"\n", good, b"\n"],
        2,
        kind,
    )?;
    refused_lines(rt, alloc, form, &[good, b"\n#\n", bad, b"\n"], 3, kind)?;
    refused_lines(rt, alloc, form, &[good, b"\n\n", bad], 3, kind)
}

// The file of a log of this form, so many pages and these words, the highest byte of each number first.
fn log_file(alloc: Global, form: &[u8], pages: u64, words: &[u64]) -> Result<Vec<u8>, Fail> {
    let mut bytes = Vec::from_slice(alloc, form)?;
    bytes.extend_from_slice(&pages.to_be_bytes())?;
    for word in words {
        bytes.extend_from_slice(&word.to_be_bytes())?;
    }
    Ok(bytes)
}
