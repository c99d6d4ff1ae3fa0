//! `run`: worked scripts with all that they print.

use super::*;

#[test]
fn calls_of_one_session(rt: HostRuntime) -> Result<(), Fail> {
    let alloc = rt.alloc();
    check(
        &rt,
        alloc,
        b"insert 10 100\nget 10\ndelete 10\nget 10\n",
        Status::Done,
        b"session 1\ninsert 10 100 -> inserted at 0\nget 10 -> 100 at 1\ndelete 10 -> deleted 100 at 1\nget 10 -> none at 2\nlog 2\n1 1 insert 10 100\n1 2 delete 10\nmap 0\n",
    )?;
    check(&rt, alloc, b"", Status::Done, b"log 0\nmap 0\n")?;
    check(
        &rt,
        alloc,
        b"delete 5",
        Status::Done,
        b"session 1\ndelete 5 -> missing at 0\nlog 0\nmap 0\n",
    )
}

#[test]
fn scans_at_both_ends(rt: HostRuntime) -> Result<(), Fail> {
    check(
        &rt,
        rt.alloc(),
        b"insert x:ffffffffffffffffffffffffffffff 1\ninsert x: 2\nscan x: x:ffffffffffffffffffffffffffffff\nscan 5 3\n",
        Status::Done,
        b"session 1\ninsert x:ffffffffffffffffffffffffffffff 1 -> inserted at 0\ninsert x: 2 -> inserted at 1\nscan x: x:ffffffffffffffffffffffffffffff -> 2 pairs\nfrom x: to x:ffffffffffffffffffffffffffffff at 2\npair x: 2\npair x:ffffffffffffffffffffffffffffff 1\nscan 5 3 -> 0 pairs\nlog 2\n1 1 insert x:ffffffffffffffffffffffffffffff 1\n1 2 insert x: 2\nmap 2\nx: 2\nx:ffffffffffffffffffffffffffffff 1\n",
    )
}

// A front of a key comes before it, a capital letter before a small one, and each key is printed as it was read.
#[test]
fn keys_in_the_order_of_their_bytes(rt: HostRuntime) -> Result<(), Fail> {
    check(
        &rt,
        rt.alloc(),
        b"insert b 1\ninsert 9 2\ninsert 10 3\ninsert B_.z 4\ninsert x:31 5\n",
        Status::Script,
        b"script: line 5: key\n",
    )?;
    check(
        &rt,
        rt.alloc(),
        b"insert b 1\ninsert 9 2\ninsert 10 3\ninsert B_.z 4\ninsert x:00 5\ninsert 1 6\ninsert x:3100 7\ninsert x:62ff 8\nscan 1 9\n",
        Status::Done,
        b"session 1\ninsert b 1 -> inserted at 0\ninsert 9 2 -> inserted at 1\ninsert 10 3 -> inserted at 2\ninsert B_.z 4 -> inserted at 3\ninsert x:00 5 -> inserted at 4\ninsert 1 6 -> inserted at 5\ninsert x:3100 7 -> inserted at 6\ninsert x:62ff 8 -> inserted at 7\nscan 1 9 -> 4 pairs\nfrom 1 to 9 at 8\npair 1 6\npair x:3100 7\npair 10 3\npair 9 2\nlog 8\n1 1 insert b 1\n1 2 insert 9 2\n1 3 insert 10 3\n1 4 insert B_.z 4\n1 5 insert x:00 5\n1 6 insert 1 6\n1 7 insert x:3100 7\n1 8 insert x:62ff 8\nmap 8\nx:00 5\n1 6\nx:3100 7\n10 3\n9 2\nB_.z 4\nb 1\nx:62ff 8\n",
    )
}

#[test]
fn a_session_that_comes_back(rt: HostRuntime) -> Result<(), Fail> {
    // The others have no commands, and are not printed.
    check(
        &rt,
        rt.alloc(),
        b"# two, and one again\nspace 16 8196\nsession 3\ninsert 1 5\n\nsession 2\nsession 3\nscan 1 1",
        Status::Done,
        b"session 3\ninsert 1 5 -> inserted at 0\nscan 1 1 -> 1 pairs\nfrom 1 to 1 at 1\npair 1 5\nlog 1\n3 1 insert 1 5\nmap 1\n1 5\n",
    )
}

#[test]
fn a_log_that_gets_full(rt: HostRuntime) -> Result<(), Fail> {
    check(
        &rt,
        rt.alloc(),
        b"space 16 8196\ninsert 10 100\ninsert 11 1\ninsert 10 3\nget 10\n",
        Status::Done,
        b"session 1\ninsert 10 100 -> inserted at 0\ninsert 11 1 -> log full used 23 cap 8196 at 1\ninsert 10 3 -> duplicate at 1\nget 10 -> 100 at 1\nlog 1\n1 1 insert 10 100\nmap 1\n10 100\n",
    )
}

// Behind 269 inserts no page is free, and no leaf has room for a greater key.
#[test]
fn a_space_that_gets_full(rt: HostRuntime) -> Result<(), Fail> {
    let alloc = rt.alloc();
    let mut script = Vec::from_slice(alloc, b"space 16 16777216\n")?;
    let mut text = Vec::from_slice(alloc, b"session 1\n")?;
    let mut log = Vec::from_slice(alloc, b"log 271\n")?;
    let mut map = Vec::from_slice(alloc, b"map 269\nk001 5\n")?;
    for place in 0..269u32 {
        let number = place + 1;
        let line = format!(in alloc; "insert k{number:03} {number}")?;
        script.extend_from_slice(format!(in alloc; "{line}\n")?.as_bytes())?;
        text.extend_from_slice(format!(in alloc; "{line} -> inserted at {place}\n")?.as_bytes())?;
        log.extend_from_slice(format!(in alloc; "1 {number} {line}\n")?.as_bytes())?;
        if place > 0 {
            map.extend_from_slice(format!(in alloc; "k{number:03} {number}\n")?.as_bytes())?;
        }
    }
    script.extend_from_slice(b"insert k270 270\ndelete k001\ninsert k001 5\n")?;
    text.extend_from_slice(
        b"insert k270 270 -> space full free 0 need 1 at 269\ndelete k001 -> deleted 1 at 269\ninsert k001 5 -> inserted at 270\n",
    )?;
    log.extend_from_slice(b"1 270 delete k001\n1 271 insert k001 5\n")?;
    text.extend_from_slice(&log)?;
    text.extend_from_slice(&map)?;
    check(&rt, alloc, &script, Status::Done, &text)
}

// Up to one key more than a leaf has room for, and then two keys that go and come again, by which leaves are merged and
// split in turn: a change, and what it is answered but for its place.
fn change_at(alloc: Global, place: u32) -> Result<(String, String), Fail> {
    let key = if place < 36 {
        place + 10
    } else {
        place % 2 + 10
    };
    if place < 36 || place % 4 > 1 {
        let line = format!(in alloc; "insert {key} {key}")?;
        Ok((line, String::from_str(alloc, "inserted")?))
    } else {
        let line = format!(in alloc; "delete {key}")?;
        Ok((line, format!(in alloc; "deleted {key}")?))
    }
}

// These changes have entries of more than 48 words on average: they fill the log on which the script is run first.
#[test]
fn a_first_log_that_gets_full(rt: HostRuntime) -> Result<(), Fail> {
    let alloc = rt.alloc();
    let mut script = Vec::from_slice(alloc, b"space 16 20000\n")?;
    let mut text = Vec::from_slice(alloc, b"session 1\n")?;
    let mut log = Vec::from_slice(alloc, b"log 52\n")?;
    let mut map = Vec::from_slice(alloc, b"map 36\n")?;
    for place in 0..52u32 {
        let (line, reply) = change_at(alloc, place)?;
        let number = place + 1;
        let key = place + 10;
        script.extend_from_slice(format!(in alloc; "{line}\n")?.as_bytes())?;
        text.extend_from_slice(format!(in alloc; "{line} -> {reply} at {place}\n")?.as_bytes())?;
        log.extend_from_slice(format!(in alloc; "1 {number} {line}\n")?.as_bytes())?;
        if place < 36 {
            map.extend_from_slice(format!(in alloc; "{key} {key}\n")?.as_bytes())?;
        }
    }
    text.extend_from_slice(&log)?;
    text.extend_from_slice(&map)?;
    check(&rt, alloc, &script, Status::Done, &text)
}

// Session 1 inserts 10 with 100, on page 1 of a space of 16 pages.
pub(super) const FILE: [u8; 200] = *b"IBLOG572\
    \0\0\0\0\0\0\0\x10\
    \0\0\0\x01\0\x01\0\x09\0\0\0\0\0\0\0\x01\
    \x31\x30\0\0\0\0\0\0\0\0\0\0\0\0\0\x02\
    \0\0\0\0\0\0\0\x64\
    \0\0\0\0\0\0\0\xa2\0\0\0\0\0\0\0\x01\
    \0\0\0\0\0\0\0\xa5\0\0\0\0\0\0\0\x01\
    \0\0\0\0\0\0\0\xa7\0\0\0\0\0\0\x02\x18\
    \0\0\0\0\0\0\0\xb2\0\0\0\0\0\0\x01\x14\
    \0\0\0\0\0\0\0\xb3\0\0\0\0\0\0\x02\0\
    \0\0\0\0\0\0\0\xb4\0\0\0\0\0\0\0\x13\
    \0\0\0\0\0\0\0\xb5\x31\x30\0\0\0\0\0\0\
    \0\0\0\0\0\0\0\xb6\0\0\0\0\0\0\0\x02\
    \0\0\0\0\0\0\0\xb7\0\0\0\0\0\0\0\x64";

#[test]
fn the_file_of_a_log(rt: HostRuntime) -> Result<(), Fail> {
    let alloc = rt.alloc();
    let script = b"space 16 8196\ninsert 10 100\n";
    check_form(&rt, alloc, "raw", script, Status::Done, &FILE)?;
    check_form(
        &rt,
        alloc,
        "raw",
        b"space 16 8196\nget 10\n",
        Status::Done,
        &FILE[..16],
    )?;
    check_form(
        &rt,
        alloc,
        "raw",
        b"put 1 2\n",
        Status::Script,
        b"script: line 1: word\n",
    )
}

#[test]
fn generated_scripts(rt: HostRuntime) -> Result<(), Fail> {
    let alloc = rt.alloc();
    let counts =
        b"inserted 3\nduplicate 0\ndeleted 3\nmissing 1\nfound 0\nnone 0\nrefused 0\nmap 0\n";
    let words = ["gen", "7", "1", "2"];
    check_words(&rt, alloc, &words, b"", Status::Done, counts)?;
    let counts =
        b"inserted 3\nduplicate 0\ndeleted 3\nmissing 0\nfound 0\nnone 1\nrefused 0\nmap 0\n";
    let words = ["gen", "7", "0", "1"];
    check_words(&rt, alloc, &words, b"not read", Status::Done, counts)?;
    let counts =
        b"inserted 10000\nduplicate 0\ndeleted 7500\nmissing 0\nfound 2500\nnone 0\nrefused 0\nmap 2500\n";
    let words = ["gen", "20000", "7", "4"];
    check_words(&rt, alloc, &words, b"", Status::Done, counts)
}
