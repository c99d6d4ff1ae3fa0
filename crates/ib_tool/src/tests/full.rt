//! A full log and a full space refuse what they have no room for, and answer every other call.

use super::*;

#[test]
fn a_full_log_answers_about_other_keys(rt: HostRuntime) -> Result<(), Fail> {
    check(
        &rt,
        rt.alloc(),
        b"space 16 8196\ninsert 10 100\ninsert 11 1\nget 11\nget 10\nscan 10 12\nscan 11 12\ndelete 11\ndelete 10\n",
        Status::Done,
        b"session 1\ninsert 10 100 -> inserted at 0\ninsert 11 1 -> log full used 23 cap 8196 at 1\nget 11 -> none at 1\nget 10 -> 100 at 1\nscan 10 12 -> 1 pairs\nfrom 10 to 12 at 1\npair 10 100\nscan 11 12 -> 0 pairs\nfrom 11 to 12 at 1\ndelete 11 -> missing at 1\ndelete 10 -> log full used 23 cap 8196 at 1\nlog 1\n1 1 insert 10 100\nmap 1\n10 100\n",
    )
}

// The insert of a key, which has its number as its value.
fn insert_of(alloc: Global, number: u32) -> Result<String, Fail> {
    Ok(format!(in alloc; "insert k{number:03} {number}")?)
}

// Behind 269 inserts no page is free, and no leaf has room for a greater key. The last insert is of the key that was taken
// out of a leaf in the middle.
#[test]
fn a_full_space_answers_about_other_keys(rt: HostRuntime) -> Result<(), Fail> {
    let alloc = rt.alloc();
    let mut script = Vec::from_slice(alloc, b"space 16 16777216\n")?;
    let mut text = Vec::from_slice(alloc, b"session 1\n")?;
    let mut log = Vec::from_slice(alloc, b"log 271\n")?;
    let mut map = Vec::from_slice(alloc, b"map 269\n")?;
    for place in 0..269u32 {
        let number = place + 1;
        let line = insert_of(alloc, number)?;
        let value = if number == 135 { 7 } else { number };
        script.extend_from_slice(format!(in alloc; "{line}\n")?.as_bytes())?;
        text.extend_from_slice(format!(in alloc; "{line} -> inserted at {place}\n")?.as_bytes())?;
        log.extend_from_slice(format!(in alloc; "1 {number} {line}\n")?.as_bytes())?;
        map.extend_from_slice(format!(in alloc; "k{number:03} {value}\n")?.as_bytes())?;
    }
    script.extend_from_slice(
        b"insert k270 270\nget k135\nget k270\nscan k268 k270\ndelete k270\ndelete k135\ninsert k135 7\n",
    )?;
    text.extend_from_slice(
        b"insert k270 270 -> space full free 0 need 1 at 269\nget k135 -> 135 at 269\nget k270 -> none at 269\nscan k268 k270 -> 2 pairs\nfrom k268 to k270 at 269\npair k268 268\npair k269 269\ndelete k270 -> missing at 269\ndelete k135 -> deleted 135 at 269\ninsert k135 7 -> inserted at 270\n",
    )?;
    log.extend_from_slice(b"1 270 delete k135\n1 271 insert k135 7\n")?;
    text.extend_from_slice(&log)?;
    text.extend_from_slice(&map)?;
    check(&rt, alloc, &script, Status::Done, &text)
}
