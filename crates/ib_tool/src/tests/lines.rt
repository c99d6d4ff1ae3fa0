//! Bad lines of scripts, and which of two causes is told.

use super::*;

// The text is refused at this line, for this reason.
fn refused(
    rt: &(impl Abort + Threads + Wait + Sync),
    alloc: Global,
    text: &[u8],
    line: u32,
    kind: &str,
) -> Result<(), Fail> {
    refused_lines(rt, alloc, "run", &[text], line, kind)
}

fn refused_anywhere(
    rt: &(impl Abort + Threads + Wait + Sync),
    alloc: Global,
    line: &[u8],
    kind: &str,
) -> Result<(), Fail> {
    refused_among(rt, alloc, "run", b"get 1", line, kind)
}

#[test]
fn bad_lines(rt: HostRuntime) -> Result<(), Fail> {
    let alloc = rt.alloc();
    refused_anywhere(&rt, alloc, b"put 1 2", "word")?;
    refused_anywhere(&rt, alloc, b"\xff", "word")?;
    refused_anywhere(&rt, alloc, b"insert 10", "fields")?;
    refused_anywhere(&rt, alloc, b"get  1", "fields")?;
    refused_anywhere(&rt, alloc, b"insert 1 -2", "number")?;
    refused_anywhere(&rt, alloc, b"insert 1 02", "number")?;
    refused_anywhere(&rt, alloc, b"insert 1 2\r", "number")?;
    refused_anywhere(&rt, alloc, b"insert 1 18446744073709551616", "number")?;
    refused_anywhere(&rt, alloc, b"session 65", "session")?;
    refused_anywhere(&rt, alloc, b"session 0", "session")?;
    refused_anywhere(&rt, alloc, b"space 15 8196", "space")
}

#[test]
fn fields_that_are_no_keys(rt: HostRuntime) -> Result<(), Fail> {
    let alloc = rt.alloc();
    refused_anywhere(&rt, alloc, b"insert -1 2", "key")?;
    refused_anywhere(&rt, alloc, b"get ", "key")?;
    refused_anywhere(&rt, alloc, b"get 1\r", "key")?;
    refused_anywhere(&rt, alloc, b"delete k-1", "key")?;
    refused_anywhere(&rt, alloc, b"scan 1 abcdefghijklmnop", "key")?;
    // An odd number of digits, a capital one, none, and 16 bytes.
    refused_anywhere(&rt, alloc, b"get x:0", "key")?;
    refused_anywhere(&rt, alloc, b"get x:0A", "key")?;
    refused_anywhere(&rt, alloc, b"get x:0g", "key")?;
    refused_anywhere(&rt, alloc, b"get X:00", "key")?;
    refused_anywhere(&rt, alloc, b"get x:00000000000000000000000000000000", "key")?;
    // These keys are written as they are: `1`, and `a_.Z9`.
    refused_anywhere(&rt, alloc, b"get x:31", "key")?;
    refused_anywhere(&rt, alloc, b"scan x:615f2e5a39 1", "key")
}

#[test]
fn the_first_cause_is_told(rt: HostRuntime) -> Result<(), Fail> {
    let alloc = rt.alloc();
    refused(&rt, alloc, b"put\nget", 1, "word")?;
    refused(&rt, alloc, b"put x y z", 1, "word")?;
    refused(&rt, alloc, b"insert -", 1, "fields")?;
    refused(&rt, alloc, b"insert - -", 1, "key")?;
    refused(&rt, alloc, b"insert x -", 1, "number")?;
    refused(&rt, alloc, b"get 1\nscan - -", 2, "key")?;
    refused(&rt, alloc, b"session x", 1, "number")?;
    refused(&rt, alloc, b"get 1\nspace 16 x", 2, "number")?;
    refused(&rt, alloc, b"get 1\nspace 16 8196", 2, "space")?;
    refused(&rt, alloc, b"space 4097 8195", 1, "space")?;
    refused(&rt, alloc, b"\t", 1, "word")?;
    refused(&rt, alloc, b" ", 1, "word")
}
