//! One session on two trees: what it is answered at which place, and what the closed space holds.

ghost use Rattle.std.specs.Prelude.{◌≡◌};
ghost use Rattle.ib_rule.specs.Pass.{IsAtRest};

use crate::space::{
    check, close, come, contents, delete, get, insert, key, keys_with, numbered, open,
};
use ib_map::{Key, Reply};
use ib_rule::Pass;
use ib_second::{Pair, SharedSpace};
use ib_second_key::{is_primary, second_key};
use std::alloc::Global;
use std::process::Abort;
use std::sync::Wait;

#[test]
fn a_value_finds_its_keys(rt: HostRuntime) {
    let alloc = rt.alloc();
    let mut pair = open(&rt, alloc, 16, 100_000);
    let mut one = come(&rt, alloc, &mut pair);
    let a = key(&rt, b"a");
    let b = key(&rt, b"b");
    check(&rt, insert(&rt, &pair, &mut one, a, 5), Reply::Inserted, 0);
    check(&rt, insert(&rt, &pair, &mut one, b, 5), Reply::Inserted, 1);
    let (keys, place) = keys_with(&rt, alloc, &pair, &mut one, 5);
    assert_eq!(rt; (keys.as_slice(), place), ([a, b].as_slice(), 2));
    check(
        &rt,
        delete(&rt, &pair, &mut one, a),
        Reply::Deleted { value: 5 },
        2,
    );
    let (keys, place) = keys_with(&rt, alloc, &pair, &mut one, 5);
    assert_eq!(rt; (keys.as_slice(), place), ([b].as_slice(), 3));
    pair.disconnect(one);
    let closed = close(&rt, alloc, pair);
    let (first, second) = contents(&rt, alloc, &closed, 16);
    assert_eq!(rt; (first.len(), first.get(b)), (1, Some(5)));
    assert_eq!(rt; (second.len(), second.get(second_key(b, 5))), (1, Some(0)));
}

// Two S at least, and five at most; the refusals of a change take no grant of the log latch.
#[test]
fn refusals_change_neither_tree(rt: HostRuntime) {
    let alloc = rt.alloc();
    let mut pair = open(&rt, alloc, 16, 8196);
    let mut one = come(&rt, alloc, &mut pair);
    let a = key(&rt, b"a");
    let b = key(&rt, b"b");
    check(&rt, delete(&rt, &pair, &mut one, a), Reply::Missing, 0);
    check(&rt, get(&rt, &pair, &mut one, a), Reply::NotFound, 0);
    check(&rt, insert(&rt, &pair, &mut one, a, 5), Reply::Inserted, 0);
    check(&rt, insert(&rt, &pair, &mut one, a, 6), Reply::Duplicate, 1);
    let before = one.grants_taken();
    assert!(rt; before.s < 1 << 40);
    check(
        &rt,
        get(&rt, &pair, &mut one, a),
        Reply::Found { value: 5 },
        1,
    );
    let taken = one.grants_taken();
    assert_eq!(rt;
        (taken.s, taken.sx, taken.x),
        (before.s + 2, before.sx, before.x)
    );
    let refused = insert(&rt, &pair, &mut one, b, 6);
    assert!(rt; matches!(refused.reply, Reply::LogFull { cap: 8196, .. }));
    let kept = delete(&rt, &pair, &mut one, a);
    assert_eq!(rt; (kept.reply, kept.place), (refused.reply, 1));
    let (keys, _) = keys_with(&rt, alloc, &pair, &mut one, 6);
    assert!(rt; keys.is_empty());
    pair.disconnect(one);
    let closed = close(&rt, alloc, pair);
    let (first, second) = contents(&rt, alloc, &closed, 16);
    assert_eq!(rt; (first.len(), first.get(a)), (1, Some(5)));
    assert_eq!(rt; (second.len(), second.get(second_key(a, 5))), (1, Some(0)));
}

// Each pair of the first tree stands in the second by its value, and there is no other.
pub(crate) fn check_contents<R: Abort>(rt: &R, alloc: Global, pair: Pair, pages: u32, count: usize)
    requires { pages ≡ pair.sizes.pages }
{
    let closed = close(rt, alloc, pair);
    let (first, second) = contents(rt, alloc, &closed, pages);
    assert_eq!(rt; (first.len(), second.len()), (count, count));
    for (key, value) in first.range(Key::least(), Key::greatest()) {
        assert!(rt; is_primary(*key));
        assert_eq!(rt; second.get(second_key(*key, *value)), Some(0));
    }
}

// Inserts the keys from 0 on, each with one of seven values, until no page is free. It tells how many there are then.
fn fill<R: Abort + Wait>(rt: &R, pair: &Pair, pass: &mut Pass) -> u16
    requires rest { IsAtRest pair.now pass.old }
    ensures rest { IsAtRest pair.now pass.new }
{
    for number in 0..500 {
        let record = insert(rt, pair, pass, numbered(rt, number), u64::from(number % 7));
        if record.reply != Reply::Inserted {
            assert!(rt; matches!(record.reply, Reply::SpaceFull { .. }));
            return number;
        }
    }
    rt.abort()
}

// Deletes the keys from 0 to 59.
fn take_out<R: Abort + Wait>(rt: &R, pair: &Pair, pass: &mut Pass)
    requires rest { IsAtRest pair.now pass.old }
    ensures rest { IsAtRest pair.now pass.new }
{
    for number in 0..60u16 {
        let record = delete(rt, pair, pass, numbered(rt, number));
        assert_eq!(rt;
            record.reply,
            Reply::Deleted {
                value: u64::from(number % 7)
            }
        );
    }
}

// Both trees split until no page is free; then pages are freed by deletes, and an insert has room again.
#[test]
fn both_trees_fill_the_space(rt: HostRuntime) {
    let alloc = rt.alloc();
    let mut pair = open(&rt, alloc, 16, 1_000_000);
    let mut one = come(&rt, alloc, &mut pair);
    let count = fill(&rt, &pair, &mut one);
    assert!(rt; count > 100);
    take_out(&rt, &pair, &mut one);
    let last = numbered(&rt, count);
    let record = insert(&rt, &pair, &mut one, last, 7);
    assert_eq!(rt; record.reply, Reply::Inserted);
    let (keys, _) = keys_with(&rt, alloc, &pair, &mut one, 7);
    assert_eq!(rt; keys.as_slice(), [last].as_slice());
    pair.disconnect(one);
    check_contents(&rt, alloc, pair, 16, usize::from(count) - 59);
}
