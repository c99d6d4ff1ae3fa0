//! Scripts of two trees read, and what is wrong with a line of one.

use crate::space::key;
use ib_io::{LineKind, ScriptFault};
use ib_map::Call;
use ib_script::read_pair_script;
use ib_second_key::keys_of_value;
use std::alloc::Global;

#[test]
fn a_value_is_the_scan_of_its_second_keys(rt: HostRuntime) -> Result<(), ScriptFault> {
    let script = read_pair_script(rt.alloc(), b"insert a 5\nsession 2\nvalue 5\n")?;
    let a = key(&rt, b"a");
    let (low, high) = keys_of_value(5);
    assert_eq!(rt; script.sessions(), 2);
    assert_eq!(rt;
        script.commands(1),
        [Call::Insert { key: a, value: 5 }].as_slice()
    );
    assert_eq!(rt; script.commands(2), [Call::Scan { low, high }].as_slice());
    Ok(())
}

// The first bad line of a short text, and what is wrong with it.
fn first_bad(alloc: Global, text: &[u8]) -> Option<(u32, LineKind)> {
    if text.len() > 100 {
        return None;
    }
    match read_pair_script(alloc, text) {
        Err(ScriptFault::BadLine { line, kind }) => Some((line, kind)),
        _ => None,
    }
}

#[test]
fn keys_of_eight_bytes_are_too_long(rt: HostRuntime) {
    let rows: [(&[u8], u32, LineKind); 7] = [
        (b"insert abcdefgh 1", 1, LineKind::Long),
        (b"get abcdefg\ndelete abcdefgh", 2, LineKind::Long),
        (b"get abcdefgh", 1, LineKind::Long),
        (b"insert abcdefgh x", 1, LineKind::Long),
        (b"insert -1 2", 1, LineKind::Key),
        (b"value a", 1, LineKind::Number),
        (b"value 1\nscan a b", 2, LineKind::Word),
    ];
    for (text, line, kind) in rows {
        assert_eq!(rt; first_bad(rt.alloc(), text), Some((line, kind)));
    }
}
