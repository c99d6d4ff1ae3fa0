//! Mini-transactions that commit: a log that takes two entries, and four threads whose closed pages are
//! those that their log gives.

ghost use Rattle.std.specs.Prelude.{◌≡◌, ◌+◌, ◌<◌, [], None, length};
ghost use Rattle.ib_core.specs.Sessions.{holdings, idle};
ghost use Rattle.ib_page.specs.Work.{changed_of};
ghost use Rattle.ib_logrec.specs.Law.{AreInGrammar};
ghost use Rattle.ib_map.specs.declared.call.Change.TheVariants.{Insert};
ghost use Rattle.ib_rule.specs.Pass.{IsAtRest, IsOf};
ghost use Rattle.ib_mtr.specs.Commits.{MayCommit};
ghost use Rattle.ib_mtr.specs.Mtr.{IsMtr, IsStillMtr};

use crate::locks::may_claim;
use crate::memos::come;
use ib_frames::LogFull;
use ib_latch::Latches;
use ib_layout::Geometry;
use ib_levels::{Latch, Level};
use ib_logrec::{AnyLaw, decode_at};
use ib_map::{Change, Key, PAGE_WORDS};
use ib_mtr::Mtr;
use ib_page::{Image, MOST_WORK_PAGES};
use ib_rule::{Closed, Pass};
use ib_word::LockWord;
use std::alloc::Global;
use std::process::Abort;
use std::sync::Wait;
use std::thread::{Threads, join_mut};

pub(crate) type Table = Latches<AnyLaw>;

pub(crate) type Work<'a> = Mtr<'a, AnyLaw>;

const PAGES: u32 = 16;

// A table of 16 pages.
pub(crate) fn small(rt: &impl Abort, alloc: Global, log_words: u32) -> Table
    ensures ended { result.ended ≡ [] }
    ensures pages { result.sizes.pages ≡ PAGES }
{
    let sizes = Geometry::new(PAGES, log_words).expect(rt, "there are such sizes");
    Latches::open(alloc, sizes).expect(rt, "there is memory")
}

// X on a page.
pub(crate) fn take_x<R: Abort + Wait>(rt: &R, mtr: &mut Work<'_>, page: u32)
    requires mtr { IsMtr mtr.old.latches.now mtr.old.pass.now }
    requires page { page < 4096 }
    ensures still { IsStillMtr mtr.old mtr.new }
{
    let latch = Latch::page(page);
    may_claim(rt, mtr, latch, Level::TreeNode);
    mtr.x_latch(rt, latch, Level::TreeNode);
}

// The page, of which it owns X, as it is now.
pub(crate) fn load_owned(rt: &impl Abort, mtr: &mut Work<'_>, page: u32)
    requires mtr { IsMtr mtr.old.latches.now mtr.old.pass.now }
    requires page { page < 4096 }
    ensures still { IsStillMtr mtr.old mtr.new }
{
    assert!(rt; page < mtr.geometry().pages());
    assert!(rt; mtr.pass().counts(Latch::page(page)).x > 0);
    assert!(rt; mtr.image(page).is_none());
    assert!(rt; mtr.pass().work().len() < MOST_WORK_PAGES);
    load(mtr, page);
}

pub(crate) fn load(mtr: &mut Work<'_>, page: u32)
    requires mtr { IsMtr mtr.old.latches.now mtr.old.pass.now }
    requires page { page < mtr.old.latches.now.sizes.pages }
    requires held { 0 < holdings (page + 2) mtr.old.pass.now.view.session }
    requires absent { changed_of page mtr.old.pass.now.work ≡ None }
    requires few { length mtr.old.pass.now.work < MOST_WORK_PAGES }
    ensures still { IsStillMtr mtr.old mtr.new }
{
    mtr.load(page);
}

// A word of the page is changed.
fn set_word(rt: &impl Abort, mtr: &mut Work<'_>, page: u32, index: usize, word: u64)
    requires mtr { IsMtr mtr.old.latches.now mtr.old.pass.now }
    requires page { page < 4096 }
    requires index { index < 160 }
    ensures still { IsStillMtr mtr.old mtr.new }
{
    assert!(rt; mtr.pass().counts(Latch::page(page)).x > 0);
    assert!(rt; mtr.image(page).is_some());
    mtr.edit(page).set_word(index, word);
}

// The clock of the page goes on.
pub(crate) fn touch(rt: &impl Abort, mtr: &mut Work<'_>, page: u32)
    requires mtr { IsMtr mtr.old.latches.now mtr.old.pass.now }
    requires page { page < 4096 }
    ensures still { IsStillMtr mtr.old mtr.new }
{
    assert!(rt; mtr.pass().counts(Latch::page(page)).x > 0);
    assert!(rt; mtr.image(page).is_some());
    let image = mtr.edit(page);
    assert!(rt; image.is_formed());
    assert!(rt; image.clock() < 1 << 62);
    image.touch();
}

// What it changed may be committed, as it answers itself.
pub(crate) fn may_commit(rt: &impl Abort, mtr: &Work<'_>, key: Key, value: u64)
    requires { IsMtr mtr.now.latches.now mtr.now.pass.now }
    ensures { MayCommit (AreInGrammar mtr.now.latches.now.sizes.pages) mtr.now.pass.now
        (Insert key value) }
{
    assert!(rt; mtr.may_commit_any());
    // The clause alone speaks of them.
    let _ = (key, value);
}

// A mini-transaction that touches the page.
fn commit_touch<R: Abort + Wait>(
    rt: &R,
    table: &Table,
    pass: &mut Pass,
    page: u32,
    key: Key,
    value: u64,
) -> Result<u32, LogFull>
    requires rest { IsAtRest table.now pass.old }
    requires page { page < 4096 }
    ensures rest { IsAtRest table.now pass.new }
{
    let mut mtr = Mtr::start(table, pass);
    take_x(rt, &mut mtr, page);
    load_owned(rt, &mut mtr, page);
    touch(rt, &mut mtr, page);
    may_commit(rt, &mtr, key, value);
    mtr.commit(rt, Change::Insert { key, value })
}

// The lock word of a latch, read by a session that holds nothing.
pub(crate) fn word(rt: &impl Abort, table: &Table, pass: &mut Pass, latch: Latch) -> LockWord
    requires own { IsOf table.now pass.old }
    requires idle { pass.old.view.session ≡ idle }
    ensures own { IsOf table.now pass.new }
    ensures idle { pass.new.view.session ≡ idle }
    ensures scratch { pass.new.has_scratch ≡ pass.old.has_scratch }
{
    assert!(rt; latch.0 < table.space().geometry().pages() + 2);
    table.word_of(pass, latch)
}

// A session that holds nothing ends.
fn leave(table: &mut Table, pass: Pass)
    requires rest { IsAtRest table.old pass }
    ensures table { table.new.table ≡ table.old.table }
    ensures sizes { table.new.sizes ≡ table.old.sizes }
{
    table.disconnect(pass);
}

fn close(rt: &impl Abort, alloc: Global, table: Table) -> Closed
    ensures { result.sizes ≡ table.sizes }
{
    assert_eq!(rt; table.connected(), 0);
    match table.close(alloc) {
        Ok(closed) => closed,
        Err(refused) => {
            refused.latches.discard();
            panic!(rt; "there is memory")
        }
    }
}

#[test]
fn a_log_has_room_for_two_entries(rt: HostRuntime) {
    let mut table = small(&rt, rt.alloc(), 8203);
    let mut one = come(&rt, rt.alloc(), &mut table);
    assert_eq!(rt;
        commit_touch(&rt, &table, &mut one, 3, Key::of_number(10), 100),
        Ok(0)
    );
    assert_eq!(rt;
        commit_touch(&rt, &table, &mut one, 3, Key::of_number(11), 1),
        Ok(1)
    );
    let full = LogFull {
        used: 14,
        cap: 8203,
    };
    assert_eq!(rt;
        commit_touch(&rt, &table, &mut one, 3, Key::of_number(12), 1),
        Err(full)
    );
    assert_eq!(rt; (one.grants_held(), one.made(), one.place()), (0, 2, 2));
    assert_eq!(rt; word(&rt, &table, &mut one, Latch::LOG), LockWord::FREE);
    assert_eq!(rt; word(&rt, &table, &mut one, Latch(5)), LockWord::FREE);
    table.disconnect(one);
    assert_eq!(rt; table.connected(), 0);
    table.discard();
}

// A mini-transaction that changes two words of a page: it counts in one, and signs in another.
fn commit_two_words<R: Abort + Wait>(
    rt: &R,
    table: &Table,
    pass: &mut Pass,
    page: u32,
    round: u64,
) -> Result<u32, LogFull>
    requires rest { IsAtRest table.now pass.old }
    requires page { page < 4096 }
    ensures rest { IsAtRest table.now pass.new }
{
    let number = pass.number() as usize;
    let mut mtr = Mtr::start(table, pass);
    take_x(rt, &mut mtr, page);
    load_owned(rt, &mut mtr, page);
    let count = mtr.image(page).expect(rt, "it is loaded").word(5);
    assert!(rt; count < 1 << 62);
    set_word(rt, &mut mtr, page, 5, count + 1);
    set_word(rt, &mut mtr, page, 64 + number % 64, count + 1);
    let key = Key::of_number(round);
    may_commit(rt, &mtr, key, count);
    mtr.commit(rt, Change::Insert { key, value: count })
}

// How often each thread commits, and the pages that they share.
const ROUNDS: u64 = 2_500;

const SHARED: u32 = 4;

// What one thread does.
fn work<R: Abort + Wait>(rt: &R, table: &Table, pass: &mut Pass)
    requires rest { IsAtRest table.now pass.old }
    ensures rest { IsAtRest table.now pass.new }
{
    let number = pass.number();
    for round in 0..ROUNDS {
        let page = 3 + (number + (round % 64) as u32) % SHARED;
        let committed = commit_two_words(rt, table, pass, page, round).is_ok();
        assert!(rt; committed);
    }
}

// Two threads.
fn pair<R: Abort + Wait + Threads + Sync>(rt: &R, table: &Table, one: &mut Pass, two: &mut Pass)
    requires one { IsAtRest table.now one.old }
    requires two { IsAtRest table.now two.old }
    ensures one { IsAtRest table.now one.new }
    ensures two { IsAtRest table.now two.new }
{
    join_mut(
        rt,
        &mut || work(rt, table, one),
        &mut || work(rt, table, two),
    );
}

// The pages that the words of a log give, entry by entry, where each is 0 at first.
fn replayed(rt: &impl Abort, alloc: Global, words: &[u64], entries: u64) -> Vec<Image> {
    let mut images = vec![in alloc; Image::free(0); PAGES as usize].expect(rt, "there is memory");
    let mut place = 0;
    for _ in 0..entries {
        assert!(rt; words.len() < 1 << 30);
        assert!(rt; place as usize <= words.len());
        let Ok((entry, next)) = decode_at(alloc, words, place, PAGES) else {
            panic!(rt; "an entry stands there")
        };
        for write in entry.writes.as_slice() {
            assert!(rt; (write.page() as usize) < images.len());
            images[write.page() as usize].set_word(write.index(), write.value);
        }
        place = next;
    }
    assert!(rt; place as usize == words.len());
    images
}

#[test]
fn four_threads_commit_on_shared_pages(rt: HostRuntime) {
    let mut table = small(&rt, rt.alloc(), 100_000);
    let mut one = come(&rt, rt.alloc(), &mut table);
    let mut two = come(&rt, rt.alloc(), &mut table);
    let mut three = come(&rt, rt.alloc(), &mut table);
    let mut four = come(&rt, rt.alloc(), &mut table);
    join_mut(
        &rt,
        &mut || pair(&rt, &table, &mut one, &mut two),
        &mut || pair(&rt, &table, &mut three, &mut four),
    );
    leave(&mut table, one);
    leave(&mut table, two);
    leave(&mut table, three);
    leave(&mut table, four);
    let closed = close(&rt, rt.alloc(), table);
    let images = replayed(&rt, rt.alloc(), closed.log(), 4 * ROUNDS);
    let mut counted = 0;
    for page in 0..PAGES {
        let image = closed.page(page);
        let given = images.as_slice().get(page as usize).expect(&rt, "a page");
        assert!(rt; (0..PAGE_WORDS).all(|i| image.word(i) == given.word(i)));
        counted = u64::checked_add(counted, image.word(5)).expect(&rt, "few");
    }
    assert_eq!(rt; counted, 4 * ROUNDS);
}
