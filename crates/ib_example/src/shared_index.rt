//! One index that two threads share: each puts pairs in and looks them up, then one scans, and the index is closed.

ghost use Rattle.std.specs.Prelude.{◌≡◌, length};
ghost use Rattle.ib_rule.specs.Pass.{IsAtRest};

use ib_index::{Index, IndexRefused, SharedSpace};
use ib_layout::Geometry;
use ib_map::{Chunks, Key, Reply};
use ib_rule::Pass;
use ib_scan::scan;
use std::alloc::Global;
use std::sync::Wait;
use std::thread::{Threads, join_mut};

// How many pairs each session puts in.
const PAIRS: u64 = 10;

/// Two sessions on one index, each on a thread of its own. How many pairs there are in the end; None where memory ran out, or an
/// answer was not the one expected.
pub(crate) fn run<R: Threads + Wait + Sync>(rt: &R, alloc: Global) -> Option<usize> {
    let sizes = Geometry::new(64, 100_000).ok()?;
    let mut index: Index = Index::open(alloc, sizes).ok()?;
    let pairs = in_two_sessions(rt, alloc, &mut index);
    match index.close(alloc) {
        Ok(_closed) => pairs,
        Err(IndexRefused { index }) => {
            index.discard();
            None
        }
    }
}

// Two sessions connect, work, and disconnect.
fn in_two_sessions<R: Threads + Wait + Sync>(
    rt: &R,
    alloc: Global,
    index: &mut Index,
) -> Option<usize>
    requires { length index.old.ended ≡ index.old.drawn }
    ensures { length index.new.ended ≡ index.new.drawn }
{
    let Ok(mut one) = index.connect(alloc) else {
        return None;
    };
    let Ok(mut two) = index.connect(alloc) else {
        index.disconnect(one);
        return None;
    };
    let pairs = work_and_count(rt, alloc, index, &mut one, &mut two);
    index.disconnect(one);
    index.disconnect(two);
    pairs
}

// Both sessions work, each on its thread, and then the first one scans.
fn work_and_count<R: Threads + Wait + Sync>(
    rt: &R,
    alloc: Global,
    index: &Index,
    one: &mut Pass,
    two: &mut Pass,
) -> Option<usize>
    requires one { IsAtRest index.now one.old }
    requires two { IsAtRest index.now two.old }
    ensures one { IsAtRest index.now one.new }
    ensures two { IsAtRest index.now two.new }
{
    let (first, second) = join_mut(
        rt,
        &mut || work(rt, index, one),
        &mut || work(rt, index, two),
    );
    if !first || !second {
        return None;
    }
    count(rt, alloc, index, one)
}

// A session puts its pairs in, and looks each up again. Whether each was found.
fn work<R: Wait>(rt: &R, index: &Index, pass: &mut Pass) -> bool
    requires rest { IsAtRest index.now pass.old }
    ensures rest { IsAtRest index.now pass.new }
{
    let first = u64::from(pass.number()) * 100;
    for n in 0..PAIRS {
        if !put_and_find(rt, index, pass, Key::of_number(first + n), n) {
            return false;
        }
    }
    true
}

// What a caller does not prove of a call, it asks before: here, that the session may take as many grants more as a call may need.
fn put_and_find<R: Wait>(rt: &R, index: &Index, pass: &mut Pass, key: Key, value: u64) -> bool
    requires rest { IsAtRest index.now pass.old }
    ensures rest { IsAtRest index.now pass.new }
{
    if !pass.may_call() {
        return false;
    }
    index.insert(rt, pass, key, value);
    if !pass.may_call() {
        return false;
    }
    index.get(rt, pass, key).reply == Reply::Found { value }
}

// How many pairs there are, by one scan from the least key to the greatest.
fn count<R: Wait>(rt: &R, alloc: Global, index: &Index, pass: &mut Pass) -> Option<usize>
    requires rest { IsAtRest index.now pass.old }
    ensures rest { IsAtRest index.now pass.new }
{
    let mut chunks = Chunks::with_room(alloc, 8, 280).ok()?;
    if !pass.may_scan(chunks.room().0) {
        return None;
    }
    let (low, high) = (Key::least(), Key::greatest());
    match scan(rt, index.latches(), pass, low, high, &mut chunks) {
        Ok(_) => Some(chunks.pairs().len()),
        Err(_) => None,
    }
}
