//! Four sessions, each on a thread of its own, that put pairs into one leaf, look up what they have put
//! there, and scan.

ghost use Rattle.std.specs.Prelude.{◌≡◌, true};
ghost use Rattle.ib_core.specs.Sessions.{idle};
ghost use Rattle.ib_rule.specs.Pass.{IsAtRest, IsOf};

use crate::space::{come, get, insert, open, scan_keys};
use ib_index::{Index, SharedSpace};
use ib_map::{Chunks, Key, Reply};
use ib_rule::Pass;
use std::process::Abort;
use std::sync::Wait;
use std::thread::{Threads, join_mut};

// How many pairs each session puts in, and how often it looks them up.
const PAIRS: u64 = 8;

const ROUNDS: u64 = 200;

// One session puts its pairs in, and finds each of them again and again.
fn work<R: Abort + Wait>(rt: &R, index: &Index, pass: &mut Pass)
    requires rest { IsAtRest index.now pass.old }
    ensures rest { IsAtRest index.now pass.new }
{
    let number = pass.number() as u64;
    for pair in 0..PAIRS {
        let put = insert(rt, index, pass, pair * 1024 + number, pair);
        assert_eq!(rt; put.reply, Reply::Inserted);
    }
    for round in 0..ROUNDS {
        let pair = round % PAIRS;
        let record = get(rt, index, pass, pair * 1024 + number);
        assert_eq!(rt; record.reply, Reply::Found { value: pair });
    }
}

// Two threads.
fn pair<R: Abort + Wait + Threads + Sync>(rt: &R, index: &Index, one: &mut Pass, two: &mut Pass)
    requires one { IsOf index.now one.old × (one.old.view.session ≡ idle) × (one.old.has_scratch ≡ true) }
    requires two { IsOf index.now two.old × (two.old.view.session ≡ idle) × (two.old.has_scratch ≡ true) }
    ensures one { IsOf index.now one.new × (one.new.view.session ≡ idle) × (one.new.has_scratch ≡ true) }
    ensures two { IsOf index.now two.new × (two.new.view.session ≡ idle) × (two.new.has_scratch ≡ true) }
{
    join_mut(
        rt,
        &mut || work(rt, index, one),
        &mut || work(rt, index, two),
    );
}

#[test]
fn four_sessions_share_a_leaf(rt: HostRuntime) {
    let mut index = open(&rt, rt.alloc(), 100_000);
    let mut one = come(&rt, rt.alloc(), &mut index);
    let mut two = come(&rt, rt.alloc(), &mut index);
    let mut three = come(&rt, rt.alloc(), &mut index);
    let mut four = come(&rt, rt.alloc(), &mut index);
    join_mut(
        &rt,
        &mut || pair(&rt, &index, &mut one, &mut two),
        &mut || pair(&rt, &index, &mut three, &mut four),
    );
    let mut out = Chunks::with_room(rt.alloc(), 1, 35).expect(&rt, "there is memory");
    let scanned = scan_keys(
        &rt,
        &index,
        &mut one,
        Key::least(),
        Key::greatest(),
        &mut out,
    )
    .expect(&rt, "there is room");
    assert_eq!(rt; scanned.place, 32);
    assert_eq!(rt;
        scanned.reply,
        Reply::Scanned {
            chunks: 1,
            pairs: 32
        }
    );
    index.disconnect(one);
    index.disconnect(two);
    index.disconnect(three);
    index.disconnect(four);
    assert_eq!(rt; index.connected(), 0);
    index.discard();
}
