//! Mini-transactions of one's own: two threads count in one word of a page, each time by one commit.

ghost use Rattle.std.specs.Prelude.{◌≡◌, length};
ghost use Rattle.ib_rule.specs.Pass.{IsAtRest};
ghost use Rattle.ib_mtr.specs.Mtr.{IsMtr, IsStillMtr};

use ib_latch::{Latches, LatchesCloseRefused};
use ib_layout::Geometry;
use ib_levels::{Latch, Level};
use ib_logrec::AnyLaw;
use ib_map::{Change, Key};
use ib_mtr::Mtr;
use ib_page::MOST_WORK_PAGES;
use ib_rule::Pass;
use std::alloc::Global;
use std::sync::Wait;
use std::thread::{Threads, join_mut};

// A space whose law allows every entry in the grammar, and a mini-transaction on it.
type Table = Latches<AnyLaw>;

type Work<'a> = Mtr<'a, AnyLaw>;

// The page on which is counted, and the word of it.
const PAGE: u32 = 5;

const WORD: usize = 9;

// How often each session counts.
const ROUNDS: u64 = 100;

/// Two sessions on one space, each on a thread of its own. What the word counts in the end; None where memory ran out, or a session
/// could not go on.
pub(crate) fn run<R: Threads + Wait + Sync>(rt: &R, alloc: Global) -> Option<u64> {
    let sizes = Geometry::new(16, 100_000).ok()?;
    if sizes.pages() <= PAGE {
        return None;
    }
    let mut table = Table::open(alloc, sizes).ok()?;
    let counted = in_two_sessions(rt, alloc, &mut table);
    match table.close(alloc) {
        Ok(closed) if counted => Some(closed.page(PAGE).word(WORD)),
        Ok(_) => None,
        Err(LatchesCloseRefused { latches }) => {
            latches.discard();
            None
        }
    }
}

// Two sessions connect, count, and disconnect. Whether both went on to the end.
fn in_two_sessions<R: Threads + Wait + Sync>(rt: &R, alloc: Global, table: &mut Table) -> bool
    requires { length table.old.ended ≡ table.old.drawn }
    ensures ended { length table.new.ended ≡ table.new.drawn }
    ensures sizes { table.new.sizes ≡ table.old.sizes }
{
    let Ok(mut one) = table.connect(alloc) else {
        return false;
    };
    let Ok(mut two) = table.connect(alloc) else {
        table.disconnect(one);
        return false;
    };
    let (first, second) = join_mut(
        rt,
        &mut || work(rt, table, &mut one),
        &mut || work(rt, table, &mut two),
    );
    table.disconnect(one);
    table.disconnect(two);
    first && second
}

// A session counts.
fn work<R: Wait>(rt: &R, table: &Table, pass: &mut Pass) -> bool
    requires rest { IsAtRest table.now pass.old }
    ensures rest { IsAtRest table.now pass.new }
{
    for round in 0..ROUNDS {
        if !count(rt, table, pass, round) {
            return false;
        }
    }
    true
}

// One mini-transaction: X on the page, the page loaded, one more in the word, and a commit that logs it under the round's key. It
// ends without a change where one of these cannot be done.
fn count<R: Wait>(rt: &R, table: &Table, pass: &mut Pass, round: u64) -> bool
    requires rest { IsAtRest table.now pass.old }
    ensures rest { IsAtRest table.now pass.new }
{
    let mut mtr = Mtr::start(table, pass);
    if !own_page(rt, &mut mtr) || !add_one(&mut mtr) || !mtr.may_commit_any() {
        mtr.commit_read();
        return false;
    }
    let key = Key::of_number(round);
    mtr.commit(rt, Change::Insert { key, value: round }).is_ok()
}

// Takes X on the page, and loads it. What a caller does not prove of a call, it asks the pass for.
fn own_page<R: Wait>(rt: &R, mtr: &mut Work<'_>) -> bool
    requires mtr { IsMtr mtr.old.latches.now mtr.old.pass.now }
    ensures still { IsStillMtr mtr.old mtr.new }
{
    let latch = Latch::page(PAGE);
    let pass = mtr.pass();
    if mtr.geometry().pages() <= PAGE
        || !pass.may_grow()
        || !pass.may_claim(latch, Level::TreeNode)
    {
        return false;
    }
    mtr.x_latch(rt, latch, Level::TreeNode);
    load_owned(mtr)
}

// Loads the page, where X is owned on its latch and it is not loaded.
fn load_owned(mtr: &mut Work<'_>) -> bool
    requires mtr { IsMtr mtr.old.latches.now mtr.old.pass.now }
    ensures still { IsStillMtr mtr.old mtr.new }
{
    let owned = mtr.pass().counts(Latch::page(PAGE)).x;
    if owned == 0 || mtr.geometry().pages() <= PAGE || mtr.image(PAGE).is_some() {
        return false;
    }
    if mtr.pass().work().len() >= MOST_WORK_PAGES {
        return false;
    }
    mtr.load(PAGE);
    true
}

// The word of the page is one more, where the page is loaded and owned.
fn add_one(mtr: &mut Work<'_>) -> bool
    requires mtr { IsMtr mtr.old.latches.now mtr.old.pass.now }
    ensures still { IsStillMtr mtr.old mtr.new }
{
    if mtr.pass().counts(Latch::page(PAGE)).x == 0 || mtr.image(PAGE).is_none() {
        return false;
    }
    let image = mtr.edit(PAGE);
    let count = image.word(WORD);
    image.set_word(WORD, count.saturating_add(1));
    true
}
