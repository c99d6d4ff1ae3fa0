//! An index to test, and what its sessions may ask for.

ghost use Rattle.std.specs.Prelude.{◌≡◌, ◌+◌, ◌*◌};
ghost use Rattle.ib_rule.specs.Conditions.{HasGrantsLeft};
ghost use Rattle.ib_rule.specs.Pass.{IsAtRest};

use ib_index::{Index, SharedSpace};
use ib_latch::Sleep;
use ib_layout::Geometry;
use ib_map::{Chunks, Key, Record};
use ib_rule::Pass;
use ib_scan::{More, scan};
use std::alloc::Global;
use std::process::Abort;
use std::sync::Wait;

// An index on 16 pages, with a log of so many words.
pub(crate) fn open(rt: &impl Abort, alloc: Global, log_words: u32) -> Index
    ensures { result.sizes.pages ≡ 16 }
{
    let sizes = Geometry::new(16, log_words).expect(rt, "there are such sizes");
    Index::open(alloc, sizes).expect(rt, "there is memory")
}

pub(crate) fn come<S: Sleep>(rt: &impl Abort, alloc: Global, index: &mut Index<S>) -> Pass
    ensures rest { IsAtRest index.new result }
    ensures table { index.new.table ≡ index.old.table }
    ensures sizes { index.new.sizes ≡ index.old.sizes }
{
    index.connect(alloc).expect(rt, "a session")
}

// It may make a call: it has taken few grants.
pub(crate) fn may_call(rt: &impl Abort, pass: &Pass)
    ensures { HasGrantsLeft 16384 pass.now.view }
{
    let taken = pass.grants_taken();
    assert!(rt; taken.s < 1 << 40);
    assert!(rt; taken.sx < 1 << 40);
    assert!(rt; taken.x < 1 << 40);
}

// It may scan, with this room for chunks.
pub(crate) fn may_scan(rt: &impl Abort, pass: &Pass, out: &Chunks)
    ensures { HasGrantsLeft (8192 * out.now.chunk_room + 8192) pass.now.view }
{
    may_call(rt, pass);
    let taken = pass.grants_taken();
    assert!(rt; taken.s < 1 << 40);
    assert!(rt; taken.sx < 1 << 40);
    assert!(rt; taken.x < 1 << 40);
    assert!(rt; out.room().0 < 1 << 20);
}

pub(crate) fn insert<R: Abort + Wait>(
    rt: &R,
    index: &Index,
    pass: &mut Pass,
    key: u64,
    value: u64,
) -> Record
    requires rest { IsAtRest index.now pass.old }
    ensures rest { IsAtRest index.now pass.new }
{
    may_call(rt, pass);
    index.insert(rt, pass, Key::of_number(key), value)
}

pub(crate) fn delete<R: Abort + Wait>(rt: &R, index: &Index, pass: &mut Pass, key: u64) -> Record
    requires rest { IsAtRest index.now pass.old }
    ensures rest { IsAtRest index.now pass.new }
{
    may_call(rt, pass);
    index.delete(rt, pass, Key::of_number(key))
}

pub(crate) fn get<R: Abort + Wait>(rt: &R, index: &Index, pass: &mut Pass, key: u64) -> Record
    requires rest { IsAtRest index.now pass.old }
    ensures rest { IsAtRest index.now pass.new }
{
    may_call(rt, pass);
    index.get(rt, pass, Key::of_number(key))
}

pub(crate) fn scan_keys<R: Abort + Wait>(
    rt: &R,
    index: &Index,
    pass: &mut Pass,
    low: Key,
    high: Key,
    out: &mut Chunks,
) -> Result<Record, More>
    requires rest { IsAtRest index.now pass.old }
    ensures rest { IsAtRest index.now pass.new }
{
    may_scan(rt, pass, out);
    scan(rt, index.latches(), pass, low, high, out)
}
