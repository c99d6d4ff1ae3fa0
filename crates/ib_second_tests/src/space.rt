//! A pair of trees to test, and what its sessions may ask for.

ghost use Rattle.std.specs.Prelude.{◌≡◌, ◌+◌, ◌*◌, ◌<◌, ◌≤◌};
ghost use Rattle.ib_rule.specs.Conditions.{HasGrantsLeft};
ghost use Rattle.ib_rule.specs.Pass.{IsAtRest};
ghost use Rattle.ib_second_key.specs.SecondKeys.{IsPrimary};

use ib_layout::Geometry;
use ib_map::{Chunks, Key, LEAST_PAGES, MOST_PAGES, PlainMap, Record, Reply};
use ib_page::Image;
use ib_rule::{Closed, Pass};
use ib_scan::scan_at;
use ib_second::{Pair, SharedSpace};
use ib_second_key::{is_primary, keys_of_value, primary_key};
use ib_tree::{check_tree, content_of};
use std::alloc::Global;
use std::process::Abort;
use std::sync::Wait;

// The key of these bytes, which are few.
pub(crate) fn key(rt: &impl Abort, bytes: &[u8]) -> Key
    ensures { IsPrimary result }
{
    let key = Key::from_bytes(bytes).expect(rt, "it is a key");
    assert!(rt; is_primary(key));
    key
}

// The key of a number below 2^16, by two bytes.
pub(crate) fn numbered(rt: &impl Abort, number: u16) -> Key
    ensures { IsPrimary result }
{
    key(rt, &number.to_be_bytes())
}

// Two trees on so many pages, with a log of so many words.
pub(crate) fn open(rt: &impl Abort, alloc: Global, pages: u32, log_words: u32) -> Pair
    ensures { result.sizes.pages ≡ pages }
{
    let sizes = Geometry::new(pages, log_words).expect(rt, "there are such sizes");
    Pair::open(alloc, sizes).expect(rt, "there is memory")
}

pub(crate) fn come(rt: &impl Abort, alloc: Global, pair: &mut Pair) -> Pass
    ensures rest { IsAtRest pair.new result }
    ensures table { pair.new.table ≡ pair.old.table }
    ensures sizes { pair.new.sizes ≡ pair.old.sizes }
{
    pair.connect(alloc).expect(rt, "a session")
}

// It may make a call: it has taken few grants.
pub(crate) fn may_call(rt: &impl Abort, pass: &Pass)
    ensures { HasGrantsLeft 16384 pass.now.view }
{
    let taken = pass.grants_taken();
    assert!(rt; taken.s < 1 << 40);
    assert!(rt; taken.sx < 1 << 40);
    assert!(rt; taken.x < 1 << 40);
}

// It may scan, with this room for chunks.
fn may_scan(rt: &impl Abort, pass: &Pass, out: &Chunks)
    ensures { HasGrantsLeft (8192 * out.now.chunk_room + 8192) pass.now.view }
{
    let taken = pass.grants_taken();
    assert!(rt; taken.s < 1 << 40);
    assert!(rt; taken.sx < 1 << 40);
    assert!(rt; taken.x < 1 << 40);
    assert!(rt; out.room().0 < 1 << 20);
}

pub(crate) fn insert<R: Abort + Wait>(
    rt: &R,
    pair: &Pair,
    pass: &mut Pass,
    key: Key,
    value: u64,
) -> Record
    requires rest { IsAtRest pair.now pass.old }
    requires primary { IsPrimary key }
    ensures rest { IsAtRest pair.now pass.new }
{
    may_call(rt, pass);
    pair.insert(rt, pass, key, value)
}

pub(crate) fn delete<R: Abort + Wait>(rt: &R, pair: &Pair, pass: &mut Pass, key: Key) -> Record
    requires rest { IsAtRest pair.now pass.old }
    requires primary { IsPrimary key }
    ensures rest { IsAtRest pair.now pass.new }
{
    may_call(rt, pass);
    pair.delete(rt, pass, key)
}

pub(crate) fn get<R: Abort + Wait>(rt: &R, pair: &Pair, pass: &mut Pass, key: Key) -> Record
    requires rest { IsAtRest pair.now pass.old }
    requires primary { IsPrimary key }
    ensures rest { IsAtRest pair.now pass.new }
{
    may_call(rt, pass);
    pair.get(rt, pass, key)
}

// The keys that a scan of the second tree finds of a value, which has few, and the place of the call.
pub(crate) fn keys_with<R: Abort + Wait>(
    rt: &R,
    alloc: Global,
    pair: &Pair,
    pass: &mut Pass,
    value: u64,
) -> (Vec<Key>, u32)
    requires rest { IsAtRest pair.now pass.old }
    ensures rest { IsAtRest pair.now pass.new }
{
    let (low, high) = keys_of_value(value);
    let mut out = Chunks::with_room(alloc, 16, 512).expect(rt, "there is memory");
    may_scan(rt, pass, &out);
    let scanned = scan_at(rt, pair.latches(), 2, pass, low, high, &mut out).expect(
        rt,
        "there is room",
    );
    let mut keys = Vec::new(alloc);
    for (second, _) in out.pairs() {
        assert!(rt; second.len() >= 8);
        keys.push(primary_key(*second))
            .expect(rt, "there is memory");
    }
    (keys, scanned.place)
}

// What one reply is.
pub(crate) fn check<R: Abort>(rt: &R, record: Record, reply: Reply, place: u32) {
    assert_eq!(rt; (record.reply, record.place), (reply, place));
}

// The pair is closed: no pass is out.
pub(crate) fn close(rt: &impl Abort, alloc: Global, pair: Pair) -> Closed
    ensures { result.sizes ≡ pair.sizes }
{
    assert_eq!(rt; pair.connected(), 0);
    match pair.close(alloc) {
        Ok(closed) => closed,
        Err(refused) => {
            refused.pair.discard();
            rt.abort()
        }
    }
}

// What the tree of a root has, where the memory is lawful.
fn content(rt: &impl Abort, alloc: Global, memory: &[Image], root: u32) -> PlainMap
    requires some { 0 < root }
    requires within { root ≤ 2 }
{
    assert!(rt; memory.len() >= LEAST_PAGES as usize);
    assert!(rt; memory.len() <= MOST_PAGES as usize);
    assert!(rt; check_tree(memory, 2));
    content_of(alloc, memory, root).expect(rt, "there is memory")
}

// The pairs of both trees of a closed space of so many pages, by walks of its pages.
pub(crate) fn contents(
    rt: &impl Abort,
    alloc: Global,
    closed: &Closed,
    pages: u32,
) -> (PlainMap, PlainMap)
    requires { pages ≡ closed.now.sizes.pages }
{
    let mut images = Vec::new(alloc);
    for page in 0..pages {
        images.push(closed.page(page)).expect(rt, "there is memory");
    }
    let first = content(rt, alloc, images.as_slice(), 1);
    let second = content(rt, alloc, images.as_slice(), 2);
    (first, second)
}
