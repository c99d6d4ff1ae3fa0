//! A session on a new index, and the sessions of a script.

ghost use Rattle.std.specs.Prelude.{◌≡◌, ◌<◌, ◌-◌, ◌^◌, length};
ghost use Rattle.ib_rule.specs.Pass.{IsAtRest};
ghost use Rattle.ib_rule.specs.Views.{nothing_seen, no_grants};
ghost use Rattle.ib_script.specs.Script.{IsSmall};

use crate::key::key;
use ib_hash::Guesses;
use ib_index::{Index, SharedSpace};
use ib_layout::Geometry;
use ib_map::{Call, Key, Record, Reply};
use ib_rule::Pass;
use ib_runs::{Access, Descents, Nobody, OpenGate, SessionOut, run_script, run_session};
use ib_script::{PlainLines, Script, read_script};
use std::alloc::Global;
use std::process::Abort;
use std::sync::Wait;
use std::thread::Threads;

fn come(rt: &impl Abort, alloc: Global, index: &mut Index) -> Pass
    ensures rest { IsAtRest index.new result }
    ensures memory { result.view.memory ≡ nothing_seen }
    ensures grants { result.view.grants ≡ no_grants }
    ensures table { index.new.table ≡ index.old.table }
    ensures sizes { index.new.sizes ≡ index.old.sizes }
{
    index.connect(alloc).expect(rt, "a session")
}

fn record(call: Call, reply: Reply, place: u32) -> Record {
    Record { call, reply, place }
}

#[test]
fn a_session_sees_its_own_changes(rt: HostRuntime) {
    let sizes = Geometry::new(16, 16384).expect(&rt, "there are such sizes");
    let mut index = Index::open(rt.alloc(), sizes).expect(&rt, "there is memory");
    let mut pass = come(&rt, rt.alloc(), &mut index);
    let mut out = SessionOut::new(rt.alloc());
    let insert = Call::Insert {
        key: Key::of_number(10),
        value: 100,
    };
    let get = Call::Get {
        key: Key::of_number(10),
    };
    let delete = Call::Delete {
        key: Key::of_number(10),
    };
    let back = Call::Scan {
        low: Key::of_number(5),
        high: Key::of_number(3),
    };
    run_session(
        &rt,
        &Descents,
        &mut (),
        &index,
        &mut pass,
        &[insert, get, delete, get, back],
        &OpenGate,
        &mut out,
    )
    .expect(&rt, "there is memory");
    let none = Reply::Scanned {
        chunks: 0,
        pairs: 0,
    };
    let records = [
        record(insert, Reply::Inserted, 0),
        record(get, Reply::Found { value: 100 }, 1),
        record(delete, Reply::Deleted { value: 100 }, 1),
        record(get, Reply::NotFound, 2),
        record(back, none, 2),
    ];
    assert_eq!(rt; out.records(), records.as_slice());
    assert!(rt; out.chunks().list().is_empty());
    index.disconnect(pass);
    assert_eq!(rt; index.connected(), 0);
    index.discard();
}

fn script(rt: &impl Abort, alloc: Global, text: &[u8]) -> Script
    requires { length text.now < 2 ^ 32 - 1 }
    ensures { IsSmall result }
{
    match read_script::<PlainLines>(alloc, text) {
        Ok(script) => script,
        Err(_) => panic!(rt; "it is a script"),
    }
}

// Two sessions on one index, whose calls reach their leaves as `A` says.
fn check_shared<A: Access<Index> + Sync, R: Abort + Threads + Wait + Sync>(rt: &R, alloc: Global) {
    let text = b"space 16 16384\ninsert 1 10\nsession 3\ninsert 3 30\nscan 3 3\n";
    let script = script(rt, alloc, text);
    let ran = run_script::<Index, A, _, _, _>(rt, alloc, &script, &mut Nobody, &OpenGate).expect(
        rt,
        "there is memory",
    );
    assert_eq!(rt; ran.sessions.len(), 3);
    assert_eq!(rt; ran.history.len(), 2);
    let three = key(rt, b"3");
    assert_eq!(rt; ran.map.get(key(rt, b"1")), Some(10));
    assert_eq!(rt; ran.map.get(three), Some(30));
    let third = ran.sessions[2].chunks();
    assert_eq!(rt; third.pairs(), [(three, 30)].as_slice());
    assert!(rt; ran.sessions[1].records().is_empty());
}

#[test]
fn sessions_share_an_index(rt: HostRuntime) {
    check_shared::<Descents, _>(&rt, rt.alloc());
}

#[test]
fn sessions_share_an_index_and_its_guesses(rt: HostRuntime) {
    check_shared::<Guesses, _>(&rt, rt.alloc());
}

#[test]
fn the_least_and_the_greatest_key(rt: HostRuntime) {
    let text =
        b"space 16 16384\ninsert x:ffffffffffffffffffffffffffffff 1\ninsert x: 2\nscan x: x:ffffffffffffffffffffffffffffff\nscan 5 3\n";
    let script = script(&rt, rt.alloc(), text);
    let ran = run_script::<Index, Descents, _, _, _>(
        &rt,
        rt.alloc(),
        &script,
        &mut Nobody,
        &OpenGate,
    ).expect(&rt, "there is memory");
    assert_eq!(rt; ran.sessions.len(), 1);
    let least = Key::least();
    let greatest = Key::greatest();
    let first = Call::Insert {
        key: greatest,
        value: 1,
    };
    let second = Call::Insert {
        key: least,
        value: 2,
    };
    let all = Call::Scan {
        low: least,
        high: greatest,
    };
    let back = Call::Scan {
        low: key(&rt, b"5"),
        high: key(&rt, b"3"),
    };
    let records = [
        record(first, Reply::Inserted, 0),
        record(second, Reply::Inserted, 1),
        record(
            all,
            Reply::Scanned {
                chunks: 1,
                pairs: 2,
            },
            2,
        ),
        record(
            back,
            Reply::Scanned {
                chunks: 0,
                pairs: 0,
            },
            2,
        ),
    ];
    assert_eq!(rt; ran.sessions[0].records(), records.as_slice());
    let chunks = ran.sessions[0].chunks();
    assert_eq!(rt; chunks.pairs(), [(least, 2), (greatest, 1)].as_slice());
    assert_eq!(rt; ran.map.get(least), Some(2));
    assert_eq!(rt; ran.map.get(greatest), Some(1));
}

// Inserts up to one more than a leaf has room for, and then deletes that merge the two leaves again and inserts that
// split them again, in turn: half of these changes have entries of hundreds of words.
fn splits_and_merges(rt: &impl Abort, alloc: Global, log_words: u32) -> Script
    ensures { IsSmall result }
{
    let mut text = format!(in alloc; "space 16 {log_words}\n").expect(rt, "there is memory");
    for key in 10..46 {
        let line = format!(in alloc; "insert {key} {key}\n").expect(rt, "there is memory");
        text.push_str(line.as_str()).expect(rt, "there is memory");
    }
    for _ in 0..4 {
        text.push_str("delete 10\ndelete 11\ninsert 10 10\ninsert 11 11\n")
            .expect(rt, "there is memory");
    }
    let bytes = text.as_bytes();
    assert!(rt; bytes.len() < 10_000);
    script(rt, alloc, bytes)
}

// One session's changes, with splits and merges under its guesses, are answered the same by both.
#[test]
fn a_session_alone_is_answered_the_same_by_guesses(rt: HostRuntime) {
    let script = splits_and_merges(&rt, rt.alloc(), 20_000);
    let ran = run_script::<Index, Descents, _, _, _>(
        &rt,
        rt.alloc(),
        &script,
        &mut Nobody,
        &OpenGate,
    ).expect(&rt, "there is memory");
    let guessed = run_script::<Index, Guesses, _, _, _>(
        &rt,
        rt.alloc(),
        &script,
        &mut Nobody,
        &OpenGate,
    ).expect(&rt, "there is memory");
    assert_eq!(rt; ran.sessions.len(), 1);
    assert_eq!(rt; guessed.sessions.len(), 1);
    assert_eq!(rt; guessed.sessions[0].records(), ran.sessions[0].records());
    assert!(rt; guessed.history == ran.history);
}

// Whether one of these records tells of a full log.
fn tells_full(records: &[Record]) -> bool {
    records
        .iter()
        .any(|record| matches!(record.reply, Reply::LogFull { .. }))
}

#[test]
fn a_first_log_that_gets_full(rt: HostRuntime) {
    // Both are run on a log of 10,900 words first, which gets full. The first script has a longer one.
    for (log_words, is_full) in [(20_000, false), (10_900, true)] {
        let script = splits_and_merges(&rt, rt.alloc(), log_words);
        let ran = run_script::<Index, Descents, _, _, _>(
            &rt,
            rt.alloc(),
            &script,
            &mut Nobody,
            &OpenGate,
        ).expect(&rt, "there is memory");
        assert_eq!(rt; ran.sessions.len(), 1);
        assert_eq!(rt; tells_full(ran.sessions[0].records()), is_full);
        assert_eq!(rt; ran.history.len() == 52, !is_full);
    }
}
