//! Sessions on threads of their own that change two trees.

ghost use Rattle.std.specs.Prelude.{◌≡◌, true};
ghost use Rattle.ib_core.specs.Sessions.{idle};
ghost use Rattle.ib_rule.specs.Pass.{IsAtRest, IsOf};

use crate::rows::check_contents;
use crate::space::{come, delete, insert, keys_with, numbered, open};
use ib_map::Reply;
use ib_rule::Pass;
use ib_second::{Pair, SharedSpace};
use std::alloc::Global;
use std::process::Abort;
use std::sync::Wait;
use std::thread::{Threads, join_mut};

// How many pairs each session puts in, and how many of them it takes out again.
const PAIRS: u16 = 80;

const TAKEN: u16 = 30;

// One session puts its pairs in, all with its number as the value, finds them by it, and takes the first of them out.
fn work<R: Abort + Wait>(rt: &R, alloc: Global, pair: &Pair, pass: &mut Pass)
    requires rest { IsAtRest pair.now pass.old }
    ensures rest { IsAtRest pair.now pass.new }
{
    let number = pass.number() as u16;
    for place in 0..PAIRS {
        let key = numbered(rt, place * 16 + number % 16);
        let put = insert(rt, pair, pass, key, u64::from(number));
        assert_eq!(rt; put.reply, Reply::Inserted);
    }
    let (keys, _) = keys_with(rt, alloc, pair, pass, u64::from(number));
    assert_eq!(rt; keys.len(), usize::from(PAIRS));
    for place in 0..TAKEN {
        let key = numbered(rt, place * 16 + number % 16);
        let taken = delete(rt, pair, pass, key);
        assert_eq!(rt;
            taken.reply,
            Reply::Deleted {
                value: u64::from(number)
            }
        );
    }
}

#[test]
fn two_sessions_change_both_trees(rt: HostRuntime) {
    let alloc = rt.alloc();
    let mut pair = open(&rt, alloc, 64, 1_000_000);
    let mut one = come(&rt, alloc, &mut pair);
    let mut two = come(&rt, alloc, &mut pair);
    join_mut(
        &rt,
        &mut || work(&rt, alloc, &pair, &mut one),
        &mut || work(&rt, alloc, &pair, &mut two),
    );
    pair.disconnect(one);
    pair.disconnect(two);
    check_contents(&rt, alloc, pair, 64, 2 * usize::from(PAIRS - TAKEN));
}
