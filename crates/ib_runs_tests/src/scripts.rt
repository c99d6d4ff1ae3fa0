//! Scripts read, and the first bad line of each kind.

use crate::key::key;
use ib_io::{LineKind, ScriptFault};
use ib_map::{Call, Key};
use ib_script::{Load, PlainLines, generate, read_script};
use std::alloc::{AllocError, Global};

#[test]
fn reads_the_commands_of_each_session(rt: HostRuntime) -> Result<(), ScriptFault> {
    let text =
        b"# two sessions\n\nspace 16 8196\nget 5\nsession 3\ninsert x:ffffffffffffffffffffffffffffff 0\n#\nsession 1\ndelete 7\nsession 3\nscan 2 9";
    let script = read_script::<PlainLines>(rt.alloc(), text)?;
    let geometry = script.geometry();
    assert_eq!(rt; (geometry.pages(), geometry.log_words()), (16, 8196));
    assert_eq!(rt; script.sessions(), 3);
    let first = [
        Call::Get {
            key: key(&rt, b"5"),
        },
        Call::Delete {
            key: key(&rt, b"7"),
        },
    ];
    assert_eq!(rt; script.commands(1), first.as_slice());
    let third = [
        Call::Insert {
            key: Key::greatest(),
            value: 0,
        },
        Call::Scan {
            low: key(&rt, b"2"),
            high: key(&rt, b"9"),
        },
    ];
    assert_eq!(rt; script.commands(3), third.as_slice());
    for session in [0, 2, 4, u32::MAX] {
        assert!(rt; script.commands(session).is_empty());
    }
    Ok(())
}

#[test]
fn takes_the_largest_space_where_none_is_named(rt: HostRuntime) -> Result<(), ScriptFault> {
    let script = read_script::<PlainLines>(rt.alloc(), b"session 64\nsession 2\n")?;
    let geometry = script.geometry();
    assert_eq!(rt;
        (geometry.pages(), geometry.log_words(), script.sessions()),
        (4096, 16_777_216, 0)
    );
    Ok(())
}

// The first bad line of a short text, and what is wrong with it.
fn first_bad(alloc: Global, text: &[u8]) -> Option<(u32, LineKind)> {
    if text.len() > 100 {
        return None;
    }
    match read_script::<PlainLines>(alloc, text) {
        Err(ScriptFault::BadLine { line, kind }) => Some((line, kind)),
        _ => None,
    }
}

#[test]
fn tells_the_first_bad_line(rt: HostRuntime) {
    let rows: [(&[u8], u32, LineKind); 17] = [
        (b"get 1\nput 1 2\nget", 2, LineKind::Word),
        (b"# a blank\n\n \n", 3, LineKind::Word),
        (b"get 1 2", 1, LineKind::Fields),
        (b"get 1\n#\nscan 1\n", 3, LineKind::Fields),
        (b"insert 1 2 ", 1, LineKind::Fields),
        (b"insert 1 01", 1, LineKind::Number),
        (b"insert -1 2", 1, LineKind::Key),
        (b"get 1\ndelete x:31", 2, LineKind::Key),
        (b"scan x: x:0", 1, LineKind::Key),
        (b"get 1\ninsert 1 18446744073709551616", 2, LineKind::Number),
        (b"session 65", 1, LineKind::Session),
        (b"session 0\n", 1, LineKind::Session),
        (b"session 1\nspace 16 8196", 2, LineKind::Space),
        (b"#\nspace 15 8196", 2, LineKind::Space),
        (b"space 16 4294967296000", 1, LineKind::Space),
        (b"get 1\nspace x", 2, LineKind::Fields),
        (b"get 1\nspace 1 x", 2, LineKind::Number),
    ];
    for (text, line, kind) in rows {
        assert_eq!(rt;
            first_bad(rt.alloc(), text),
            Some((line, kind)),
            "{kind:?} at {line}"
        );
    }
}

#[test]
fn generates_the_commands_of_each_session(rt: HostRuntime) -> Result<(), AllocError> {
    let load = Load::new(7, 1, 2).expect(&rt, "there is such a load");
    let script = generate(rt.alloc(), load)?;
    let first = [
        Call::Insert {
            key: Key::of_number(64),
            value: 0,
        },
        Call::Insert {
            key: Key::of_number(2_592_256),
            value: 1,
        },
        Call::Delete {
            key: Key::of_number(64),
        },
        Call::Delete {
            key: Key::of_number(2_592_256),
        },
    ];
    assert_eq!(rt; script.commands(1), first.as_slice());
    let second = [
        Call::Insert {
            key: Key::of_number(65),
            value: 0,
        },
        Call::Delete {
            key: Key::of_number(65),
        },
        Call::Delete {
            key: Key::of_number(2_592_257),
        },
    ];
    assert_eq!(rt; script.commands(2), second.as_slice());
    assert_eq!(rt; script.sessions(), 2);
    assert_eq!(rt; script.geometry().pages(), 4096);
    Ok(())
}

#[test]
fn generates_from_some_commands_for_some_sessions(rt: HostRuntime) {
    for (commands, seed, sessions) in [
        (0, 0, 1),
        (30_001, 0, 1),
        (1, 0, 0),
        (1, 0, 65),
        (1, 1 << 32, 1),
    ] {
        assert_eq!(rt; Load::new(commands, seed, sessions), None);
    }
    assert!(rt; Load::new(30_000, u32::MAX as u64, 64).is_some());
}
